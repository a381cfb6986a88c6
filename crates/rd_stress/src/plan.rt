ghost use Rattle.std.specs.Prelude.{◌≡◌, ◌≤◌};
ghost use Rattle.rd_base.specs.Limits.{AreLimits};

use rd_base::{Limits, Link, MaskLimits, Side};
use std::alloc::{AllocError, Global};

/// What sessions are made of.
#[derive(Clone, Copy)]
pub struct Plan {
    pub side: Side,
    pub copies: u8,
    pub exchanges: u32,
    /// The least bytes of a request.
    pub length: u32,
    /// The most bytes of a piece of a request, and of a reply.
    pub request_piece: u32,
    pub reply_piece: u32,
    /// One in so many answers of a source is late, and one in so many things goes wrong; 0 stands for none.
    pub delays: u32,
    pub troubles: u32,
    /// Whether replies have a word of each copy's own.
    pub words: bool,
    /// Whether those that ask end behind their last reply.
    pub ends: bool,
}

impl Plan {
    /// The plan of this name, for this side and so many copies.
    pub fn of(words: &[String]) -> Option<Plan> {
        let [name, side, copies, ..] = words else {
            return None;
        };
        let side = match side.as_str() {
            "incoming" => Side::Incoming,
            "outgoing" => Side::Outgoing,
            _ => return None,
        };
        let copies = copies.as_str().parse().ok()?;
        let quiet = Plan {
            side,
            copies,
            exchanges: 2,
            length: 0,
            request_piece: 9,
            reply_piece: 9,
            delays: 8,
            troubles: 0,
            words: true,
            ends: true,
        };
        match name.as_str() {
            "quiet" => Some(quiet),
            "trouble" => Some(Plan {
                troubles: 80,
                ..quiet
            }),
            "long" => Some(Plan {
                exchanges: 10_000,
                length: 100,
                request_piece: 1,
                reply_piece: 16_384,
                delays: 0,
                words: false,
                ..quiet
            }),
            "idle" => Some(Plan {
                exchanges: 0,
                ends: false,
                ..quiet
            }),
            _ => None,
        }
    }

    /// Whether the link asks, and doesn't answer.
    pub fn asks(&self, link: Link) -> bool {
        match self.side {
            Side::Incoming => link.0 == self.copies,
            Side::Outgoing => link.0 != self.copies,
        }
    }

    /// The request of this exchange: it has the word that the first instance showed in the exchange before.
    pub fn request(
        &self,
        alloc: Global,
        session: u32,
        exchange: u32,
    ) -> Result<String, AllocError> {
        let mut text = if exchange == 0 {
            format!(in alloc; "get token-of-copy-0-of-{}-1 ", session.saturating_sub(1))?
        } else {
            format!(in alloc;
                "get token-of-copy-0-of-{session}-{} ",
                exchange.saturating_sub(1)
            )?
        };
        for _ in text.len()..self.length as usize {
            text.push('x')?;
        }
        text.push('\n')?;
        Ok(text)
    }

    /// The reply of this exchange, with a word of this copy's own; the others say so where it is good.
    pub fn reply(
        &self,
        alloc: Global,
        session: u32,
        exchange: u32,
        copy: Link,
        is_good: bool,
    ) -> Result<String, AllocError> {
        let last = if is_good { "ok" } else { "no" };
        if !self.words {
            return format!(in alloc; "{last}\n");
        }
        format!(in alloc;
            "id token-of-copy-{}-of-{session}-{exchange} {last}\n",
            copy.0
        )
    }

    pub fn limits(&self) -> Limits
        requires { (3 ≤ self.now.copies) × (self.now.copies ≤ 8) }
        ensures limits { AreLimits result }
        ensures copies { result.copies ≡ self.now.copies }
    {
        Limits {
            copies: self.copies,
            unit_max: 1_024,
            exchanges_max: 20_000,
            idle_ms: 60_000,
            request_ms: 800,
            gather_ms: 400,
            reply_ms: 600,
            mask: MaskLimits {
                places: 64,
                bytes: 128,
            },
        }
    }
}
