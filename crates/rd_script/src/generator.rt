ghost use Rattle.std.specs.Prelude.{◌≡◌, ◌≤◌, ◌<◌, ◌+◌, ◌*◌, ◌%◌, ◌^◌, ◌++◌, ◌∷◌, [], true, length, string_bytes, IfOk, OnOk};
ghost use Rattle.rd_base.specs.History.{is_well_formed};
ghost use Rattle.rd_script.specs.Generator.{generated, one_exchange, reply_pieces, reply_line, request_line, at_zero, piece};
ghost use Rattle.rd_script.specs.Seen.{entries_in};

use crate::script::Script;
use crate::step::Step;
use rd_base::{Bytes, Happening, Link, NoMemory, Side, What};
use std::alloc::{AllocError, Global};

/// The script of so many exchanges, 1 to 9,999, of the line dialect among 3 to 8 copies, on the incoming side.
/// In exchange j the copies' replies show the j-th number that comes from `number`, and end with a word in which they differ.
pub fn generate(alloc: Global, copies: u8, number: u16) -> Result<Script, NoMemory>
    requires least_copies { 3 ≤ copies }
    requires most_copies { copies ≤ 8 }
    requires least_number { 1 ≤ number }
    requires most_number { number ≤ 9999 }
    ensures script { IfOk result (λ script. script ≡ generated copies number) }
    ensures well_formed { IfOk result (λ script. is_well_formed copies script.entries ≡ true) }
{
    let mut steps = Vec::new(alloc);
    let mut drawn = u64::from(number);
    for place in 0..number {
        let next = next_drawn(drawn);
        push_exchange(alloc, &mut steps, copies, place + 1, drawn, next)?;
        drawn = next;
    }
    push_step(&mut steps, What::End(Link(copies)))?;
    Ok(Script::new(alloc, Side::Incoming, steps))
}

/// The number that comes after this one.
fn next_drawn(number: u64) -> u64
    requires { number < 2 ^ 31 }
    ensures { result ≡ (number * 1103515245 + 12345) % 2 ^ 31 }
{
    (number * 1_103_515_245 + 12_345) % 0x8000_0000
}

/// Appends an exchange's request and replies.
fn push_exchange(
    alloc: Global,
    steps: &mut Vec<Step>,
    copies: u8,
    exchange: u16,
    before: u64,
    drawn: u64,
) -> Result<(), NoMemory>
    requires least_copies { 3 ≤ copies }
    requires most_copies { copies ≤ 8 }
    requires most_exchange { exchange ≤ 9999 }
    requires before { before < 2 ^ 31 }
    requires drawn { drawn < 2 ^ 31 }
    ensures ok { OnOk result
        (entries_in steps.new.items
        ≡ entries_in steps.old.items ++ one_exchange copies exchange before drawn) }
    ensures few { OnOk result (length steps.new.items ≤ length steps.old.items + 17) }
{
    let request = request_line(alloc, exchange, before).map_err(|_| NoMemory)?;
    push_piece(alloc, steps, copies, request.as_bytes())?;
    for place in 0..copies {
        push_reply(
            alloc,
            steps,
            exchange,
            drawn,
            copy_at(exchange, place, copies),
        )?;
    }
    Ok(())
}

/// The copy that replies at a place of an exchange, from 0.
fn copy_at(exchange: u16, place: u8, copies: u8) -> u8
    requires some { 0 < copies }
    requires most { exchange ≤ 9999 }
    ensures { result ≡ (exchange + place) % copies }
{
    ((exchange + u16::from(place)) % u16::from(copies)) as u8
}

/// The client's line in an exchange, after a reply that showed this number.
fn request_line(alloc: Global, exchange: u16, before: u64) -> Result<String, AllocError>
    requires { before < 2 ^ 31 }
    ensures { IfOk result (λ text. string_bytes text ≡ request_line exchange before) }
{
    if exchange == 1 {
        "get 1\n".to_string(alloc)
    } else {
        format!(in alloc; "get {exchange} {before:016}\n")
    }
}

/// A copy's line in an exchange.
fn reply_line(alloc: Global, exchange: u16, drawn: u64, copy: u8) -> Result<String, AllocError>
    requires { drawn < 2 ^ 31 }
    ensures { IfOk result (λ text. string_bytes text ≡ reply_line exchange drawn copy) }
{
    let word = drawn + u64::from(copy);
    format!(in alloc; "{exchange} {drawn} {word:016}\n")
}

/// Appends a copy's reply, in one or two pieces.
fn push_reply(
    alloc: Global,
    steps: &mut Vec<Step>,
    exchange: u16,
    drawn: u64,
    copy: u8,
) -> Result<(), NoMemory>
    requires { drawn < 2 ^ 31 }
    ensures ok { OnOk result
        (entries_in steps.new.items
        ≡ entries_in steps.old.items ++ reply_pieces exchange drawn copy) }
    ensures few { OnOk result (length steps.new.items ≤ length steps.old.items + 2) }
{
    let text = reply_line(alloc, exchange, drawn, copy).map_err(|_| NoMemory)?;
    let bytes = text.as_bytes();
    let cut = drawn as usize % bytes.len();
    if cut == 0 {
        push_piece(alloc, steps, copy, bytes)
    } else {
        push_piece(alloc, steps, copy, &bytes[..cut])?;
        push_piece(alloc, steps, copy, &bytes[cut..])
    }
}

/// Appends a piece of a link.
fn push_piece(alloc: Global, steps: &mut Vec<Step>, link: u8, bytes: &[u8]) -> Result<(), NoMemory>
    ensures ok { OnOk result
        (entries_in steps.new.items ≡ entries_in steps.old.items ++ piece link bytes.now ∷ []) }
    ensures one { OnOk result (length steps.new.items ≡ length steps.old.items + 1) }
{
    push_step(
        steps,
        What::Piece(Link(link), Bytes::from_slice(alloc, bytes)?),
    )
}

/// Appends what happened, at stamp 0.
fn push_step(steps: &mut Vec<Step>, what: What) -> Result<(), NoMemory>
    ensures ok { OnOk result
        (entries_in steps.new.items ≡ entries_in steps.old.items ++ at_zero what ∷ []) }
    ensures one { OnOk result (length steps.new.items ≡ length steps.old.items + 1) }
{
    match steps.push(Step {
        happening: Happening { at: 0, what },
        told: None,
    }) {
        Ok(()) => Ok(()),
        Err(_) => Err(NoMemory),
    }
}
