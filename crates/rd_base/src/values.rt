ghost use Rattle.std.specs.Prelude.{◌≡◌};

use crate::bytes::Bytes;

/// The number of a link: copies count from 0, and the client or the backend has the number of copies.
#[derive(Clone, Copy, Debug, PartialEq, Eq)]
pub struct Link(pub u8);

/// What a link, the clock or the operator gave.
#[derive(Drop)]
pub enum What {
    /// Bytes that a link read.
    Piece(Link, Bytes),
    /// The link gives no more bytes.
    End(Link),
    /// A read of the link failed.
    ReadFail(Link),
    /// A write to the link failed.
    WriteFail(Link),
    /// A look at the clock.
    Timer,
    /// The operator's stop.
    Stop,
}

/// What happened, with its stamp in milliseconds.
#[derive(Drop)]
pub struct Happening {
    pub at: u64,
    pub what: What,
}

/// What a session waits for.
#[derive(Clone, Copy, Debug, PartialEq, Eq)]
pub enum Which {
    Idle,
    Request,
    Gather,
    Reply,
}

/// Which proxy a session runs through.
#[derive(Clone, Copy, Debug, PartialEq, Eq)]
pub enum Side {
    /// One client before the instances.
    Incoming,
    /// The instances, as callers, before one backend.
    Outgoing,
}

/// Why a session ended.
#[derive(Clone, Copy, Debug, PartialEq, Eq)]
pub enum Ending {
    Done,
    Closed { link: Link },
    Retired,
    Disagree { exchange: u32, copy: u8, place: u32 },
    Noise { exchange: u32, place: u32 },
    Malformed { link: Link },
    TooBig { link: Link },
    Unsupported { link: Link, code: u32 },
    Unsolicited { link: Link },
    Broken { link: Link },
    Late { which: Which },
    LinkFault { link: Link },
    Stopped,
    FullLog,
    NoMemory,
    Unstarted,
}

/// How much may be masked: the number of places, 0 to 64, and the bytes of each token, 1 to 128.
#[derive(Clone, Copy, Debug, PartialEq, Eq)]
pub struct MaskLimits {
    pub places: u8,
    pub bytes: u8,
}

/// What a session is held to. Lengths are in bytes, times in milliseconds.
#[derive(Clone, Copy, Debug, PartialEq, Eq)]
pub struct Limits {
    /// The number of instances, 3 to 8.
    pub copies: u8,
    /// The most open bytes of one link, 1,024 to 8,388,608.
    pub unit_max: u32,
    /// The most exchanges of a session, 1 to 65,536.
    pub exchanges_max: u32,
    pub idle_ms: u64,
    pub request_ms: u64,
    pub gather_ms: u64,
    pub reply_ms: u64,
    pub mask: MaskLimits,
}

/// A dialect's phase of a conversation.
#[derive(Clone, Copy, Debug, PartialEq, Eq)]
pub struct Phase(pub u8);

/// What a dialect notes of a request, to read its reply by.
#[derive(Clone, Copy, Debug, PartialEq, Eq)]
pub struct Note(pub u8);

/// What bytes come to.
#[derive(Clone, Copy, Debug, PartialEq, Eq)]
pub enum Scan {
    /// The first so many bytes are a unit.
    Whole(usize),
    /// More bytes are needed to tell.
    More,
    /// No unit begins with these bytes, however they go on.
    Bad,
    /// A part of the unit is past its limit.
    TooBig,
    /// The unit asks for what is not supported, by this code.
    Unsupported(u32),
}

/// Which of an exchange's units is meant.
#[derive(Clone, Copy, Debug, PartialEq, Eq)]
pub enum Part {
    Request,
    Reply,
}

/// How a token is compared.
#[derive(Clone, Copy, Debug, PartialEq, Eq)]
pub enum TokenKind {
    /// It may be masked.
    Soft,
    /// It is never masked.
    Firm,
    /// A name, whose ASCII letters count as lower-case. It is never masked.
    Name,
}

/// Where a token lies in a flat form: from its first byte to past its last.
#[derive(Clone, Copy, Debug, PartialEq, Eq)]
pub struct TokenSpan {
    pub kind: TokenKind,
    pub start: u32,
    pub end: u32,
}

/// Where a walk over a flat form's tokens stands. Its numbers are the dialect's own.
#[derive(Clone, Copy, Debug, PartialEq, Eq)]
pub struct Cursor {
    pub at: u32,
    pub mode: u8,
    pub left: u32,
    pub mark: u32,
    pub beside: Beside,
}

/// A list that a walk goes along beside the tokens: where it stands, its next item, and how many are left.
#[derive(Clone, Copy, Debug, PartialEq, Eq)]
pub struct Beside {
    pub from: u32,
    pub to: u32,
    pub at: u32,
    pub left: u32,
}

impl Beside {
    /// No such list.
    pub fn nothing() -> Beside
        ensures { result ≡ record { from = 0; to = 0; at = 0; left = 0 } }
    {
        Beside {
            from: 0,
            to: 0,
            at: 0,
            left: 0,
        }
    }
}
