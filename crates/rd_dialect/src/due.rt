ghost use Rattle.std.specs.Prelude.{◌≡◌};
ghost use Rattle.rd_dialect.specs.Due.{request_due, reply_due};

use rd_base::{Note, Part, Phase};

/// Which unit is due: the request of a phase, or the reply to a request of a phase that has a note.
/// A request is read without a note.
#[derive(Clone, Copy, Debug, PartialEq, Eq)]
pub struct Due {
    pub part: Part,
    pub phase: Phase,
    pub note: Note,
}

impl Due {
    /// The request of a phase.
    pub fn request(phase: Phase) -> Due
        ensures { result ≡ request_due phase }
    {
        Due {
            part: Part::Request,
            phase,
            note: Note(0),
        }
    }

    /// The reply to a request that has this note.
    pub fn reply(phase: Phase, note: Note) -> Due
        ensures { result ≡ reply_due phase note }
    {
        Due {
            part: Part::Reply,
            phase,
            note,
        }
    }
}
