ghost use Rattle.std.specs.Prelude.{◌≡◌, ◌≤◌, false, List, ℕ, OnOk, OnErr};
ghost use Rattle.rd_base.specs.Outside.{HoldsPrefix, Rose, StaysOpen, held_with};
ghost use Rattle.rd_session_run.specs.Transcripts.{sends_text};

use rd_base::{Failed, NoMemory, Sends, Sink};
use rd_script::send_line;
use std::alloc::Global;

/// Why a transcript wasn't written to its end.
#[derive(Clone, Copy, Debug, PartialEq, Eq)]
pub enum ScriptFail {
    /// The output failed.
    WriteFail,
    NoMemory,
}

impl From<NoMemory> for ScriptFail {
    ghost use Rattle.rd_session_run.specs.declared.writing.ScriptFail.TheVariants as reason;

    ghost from_gives = { λ _ fail. fail ≡ reason.NoMemory };

    fn from(_none: NoMemory) -> ScriptFail {
        ScriptFail::NoMemory
    }
}

impl From<Failed> for ScriptFail {
    ghost use Rattle.rd_session_run.specs.declared.writing.ScriptFail.TheVariants as reason;

    ghost from_gives = { λ _ fail. fail ≡ reason.WriteFail };

    fn from(_failed: Failed) -> ScriptFail {
        ScriptFail::WriteFail
    }
}

/// Writes a line for each send of a step, which are counted from 1.
pub fn write_sends<K: Sink>(
    alloc: Global,
    step: u32,
    sends: &Sends,
    out: &mut K,
) -> Result<(), ScriptFail>
    requires { (K.tells out.old).is_closed ≡ false }
    ensures ok { OnOk result ((K.tells out.new).held ≡ held_with (K.tells out.old).held
        (sends_text step sends.now)) }
    ensures err { OnErr result (HoldsPrefix (K.tells out.old).held (K.tells out.new).held
        (sends_text step sends.now)) }
    ensures failed { result ≡ Err ScriptFail.WriteFail
        → Rose (K.tells out.old).faults (K.tells out.new).faults }
    ensures stays { StaysOpen (K.tells out.old) (K.tells out.new) }
{
    for place in 0..sends.len() {
        let line = send_line(alloc, step, sends.link_at(place), sends.bytes_at(place))?;
        out.push(line.as_bytes())?;
    }
    Ok(())
}
