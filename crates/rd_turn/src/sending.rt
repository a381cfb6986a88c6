ghost use Rattle.std.specs.Prelude.{◌≡◌, ◌≢◌, ◌≤◌, ◌<◌, ℕ, List, length, map, vec_len, OnOk, IfErr, MatchOption, slice_get};
ghost use Rattle.rd_base.specs.Sent.{sends_to};
ghost use Rattle.rd_base.specs.declared.sends.Send.{Send};
ghost use Rattle.rd_turn.specs.Sinks.{AreOpen, AllWrote, WroteTo};

use rd_base::{Link, Sends, Sink};

/// Writes what a step sends to the sinks, in the order of links. It stops at the first write that fails, and says
/// which link's it was.
pub(crate) fn send_all<K: Sink>(sinks: &mut Vec<K>, sends: &Sends) -> Result<(), Link>
    requires few { vec_len sinks.old ≤ 9 }
    requires open { AreOpen (map K.tells sinks.old.items) }
    ensures ok { OnOk result ((bytes_for : ℕ → List ℕ)
        → sends.now ≡ sends_to (vec_len sinks.old) bytes_for
        → AllWrote bytes_for (map K.tells sinks.old.items) (map K.tells sinks.new.items)) }
    ensures err { IfErr result (λ w. (bytes_for : ℕ → List ℕ)
        → sends.now ≡ sends_to (vec_len sinks.old) bytes_for
        → WroteTo w.0 bytes_for (map K.tells sinks.old.items) (map K.tells sinks.new.items)) }
    ensures link { IfErr result (λ w. w.0 < vec_len sinks.old) }
    ensures count { vec_len sinks.new ≡ vec_len sinks.old }
    ensures is_open { AreOpen (map K.tells sinks.new.items) }
{
    let mut place = 0;
    for link in 0..sinks.len() {
        match bytes_for(sends, place, link) {
            None => (),
            Some(bytes) => {
                let sink = &mut sinks[link];
                match sink.push(bytes) {
                    Ok(()) => place += 1,
                    Err(_) => return Err(Link(link as u8)),
                }
            }
        }
    }
    Ok(())
}

/// The bytes of the send that stands there, where it is for this link.
fn bytes_for(sends: &Sends, place: usize, link: usize) -> Option<&[u8]>
    ensures { MatchOption result
        ((s : Send) → slice_get sends.now place ≡ Some s → s.link.0 ≢ link)
        (λ bytes. slice_get sends.now place ≡ Some (record { link = record { 0 = link }; bytes = bytes.now })) }
{
    if place < sends.len() && sends.link_at(place).0 as usize == link {
        Some(sends.bytes_at(place))
    } else {
        None
    }
}
