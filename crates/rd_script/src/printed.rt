ghost use Rattle.std.specs.Prelude.{◌≡◌, IfOk, string_bytes};
ghost use Rattle.rd_script.specs.Printed.{send_line, last_line, ending_text, which_text};

use rd_base::{Ending, Link, NoMemory, Which};
use std::alloc::{AllocError, Global};

/// The line of a transcript for bytes that a step, counted from 1, sends to a link.
pub fn send_line(alloc: Global, step: u32, link: Link, bytes: &[u8]) -> Result<String, NoMemory>
    ensures { IfOk result (λ text. string_bytes text ≡ send_line step link.0 bytes.now) }
{
    print_send(alloc, step, link, bytes).map_err(|_| NoMemory)
}

fn print_send(alloc: Global, step: u32, link: Link, bytes: &[u8]) -> Result<String, AllocError>
    ensures { IfOk result (λ text. string_bytes text ≡ send_line step link.0 bytes.now) }
{
    let hex = hex::encode(alloc, bytes)?;
    format!(in alloc; "{step} to {} {hex}\n", link.0)
}

/// The last line of a transcript: `live` for a session without an ending.
pub fn last_line(alloc: Global, ending: Option<Ending>) -> Result<String, NoMemory>
    ensures { IfOk result (λ text. string_bytes text ≡ last_line ending) }
{
    print_last(alloc, ending).map_err(|_| NoMemory)
}

fn print_last(alloc: Global, ending: Option<Ending>) -> Result<String, AllocError>
    ensures { IfOk result (λ text. string_bytes text ≡ last_line ending) }
{
    match ending {
        None => "live\n".to_string(alloc),
        Some(ending) => {
            let text = print_ending(alloc, ending)?;
            format!(in alloc; "end {text}\n")
        }
    }
}

fn print_ending(alloc: Global, ending: Ending) -> Result<String, AllocError>
    ensures { IfOk result (λ text. string_bytes text ≡ ending_text ending) }
{
    match ending {
        Ending::Done => "Done".to_string(alloc),
        Ending::Closed { link } => format!(in alloc; "Closed link {}", link.0),
        Ending::Retired => "Retired".to_string(alloc),
        Ending::Disagree {
            exchange,
            copy,
            place,
        } => { format!(in alloc; "Disagree exchange {exchange} copy {copy} place {place}") }
        Ending::Noise { exchange, place } => {
            format!(in alloc; "Noise exchange {exchange} place {place}")
        }
        Ending::Malformed { link } => format!(in alloc; "Malformed link {}", link.0),
        Ending::TooBig { link } => format!(in alloc; "TooBig link {}", link.0),
        Ending::Unsupported { link, code } => {
            format!(in alloc; "Unsupported link {} code {code}", link.0)
        }
        Ending::Unsolicited { link } => format!(in alloc; "Unsolicited link {}", link.0),
        Ending::Broken { link } => format!(in alloc; "Broken link {}", link.0),
        Ending::Late { which } => format!(in alloc; "Late {}", which_name(which)),
        Ending::LinkFault { link } => format!(in alloc; "LinkFault link {}", link.0),
        Ending::Stopped => "Stopped".to_string(alloc),
        Ending::FullLog => "FullLog".to_string(alloc),
        Ending::NoMemory => "NoMemory".to_string(alloc),
        Ending::Unstarted => "Unstarted".to_string(alloc),
    }
}

fn which_name(which: Which) -> &'static str
    ensures { result.now ≡ which_text which }
{
    match which {
        Which::Idle => "Idle",
        Which::Request => "Request",
        Which::Gather => "Gather",
        Which::Reply => "Reply",
    }
}
