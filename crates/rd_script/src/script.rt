ghost use Rattle.std.specs.Prelude.{◌≡◌, ◌≤◌, ◌<◌, ◌^◌, ◌-◌, min, ℕ, true, length, slice_get, option_map, Some, None, IfOk, IsErrAnd, if◌then◌else◌};
ghost use Rattle.rd_base.specs.History.{is_well_formed};
ghost use Rattle.rd_script.specs.Script.{script_of, read_lines, with_line, nothing_read, parts_of, words_of};
ghost use Rattle.rd_script.specs.Seen.{entries_in, happening_in};

use crate::cut::cut_at_byte;
use crate::line::{read_happening, read_side};
use crate::reading::Reading;
use crate::step::Step;
use crate::told::{is_told, read_told};
use rd_base::{Happening, NoMemory, Rows, Side};
use std::alloc::Global;
use std::marker::Model;

/// A recorded session: its side, and what happened to it, in order.
#[derive(Drop)]
pub struct Script {
    side: Side,
    steps: Vec<Step>,
    no_rows: Rows,
}

impl Model for Script {
    ghost use Rattle.std.specs.Prelude.{◌≤◌, ◌≡◌, length};
    ghost use Rattle.rd_script.specs.Script.{ScriptState};
    ghost use Rattle.rd_script.specs.Seen.{entries_in};

    ghost Value = { ScriptState };

    ghost view = { λ s. record { side = s.side; entries = entries_in s.steps.items } };

    ghost invariant = { λ s. (length s.steps.items ≤ 1048576) × (length s.no_rows ≡ 0) };
}

impl Script {
    /// The script of these happenings.
    pub(crate) fn new(alloc: Global, side: Side, steps: Vec<Step>) -> Script
        requires { length steps.items ≤ 1048576 }
        ensures { result ≡ record { side = side; entries = entries_in steps.items } }
    {
        Script {
            side,
            steps,
            no_rows: Rows::new(alloc),
        }
    }

    pub fn side(&self) -> Side
        ensures { result ≡ self.now.side }
    {
        self.side
    }

    /// The number of happenings, at most 1,048,576.
    pub fn len(&self) -> usize
        ensures count { result ≡ length self.now.entries }
        ensures most { result ≤ 1048576 }
    {
        self.steps.len()
    }

    /// The happening that stands there, from 0.
    pub fn happening(&self, place: usize) -> &Happening
        requires { place < length self.now.entries }
        ensures { option_map happening_in (slice_get self.now.entries place) ≡ Some result.now }
    {
        &self.steps[place].happening
    }

    /// The rows told to the happening that stands there, from 0.
    pub fn told(&self, place: usize) -> &Rows
        requires { place < length self.now.entries }
        ensures { option_map (λ e. e.told) (slice_get self.now.entries place) ≡ Some result.now }
    {
        match &self.steps[place].told {
            Some(rows) => rows,
            None => &self.no_rows,
        }
    }
}

/// Why a text isn't a script.
#[derive(Clone, Copy, Debug, PartialEq, Eq)]
pub enum ScriptRefusal {
    /// The first bad line, counted from 1. A line past the 4,294,967,295th is named by that number.
    BadLine(u32),
    NoMemory,
}

impl From<NoMemory> for ScriptRefusal {
    ghost use Rattle.rd_script.specs.declared.script.ScriptRefusal.TheVariants as refusal;

    ghost from_gives = { λ _ r. r ≡ refusal.NoMemory };

    fn from(_none: NoMemory) -> ScriptRefusal {
        ScriptRefusal::NoMemory
    }
}

/// The script that a text stands for among so many copies.
pub fn read_script(alloc: Global, copies: u8, text: &[u8]) -> Result<Script, ScriptRefusal>
    requires least { 3 ≤ copies }
    requires most { copies ≤ 8 }
    ensures script { IfOk result (λ script. script_of copies text.now ≡ Ok script) }
    ensures bad_line { (number : ℕ) → result ≡ Err (ScriptRefusal.BadLine number)
        → IsErrAnd (script_of copies text.now) (λ line. number ≡ min line (2 ^ 32 - 1)) }
    ensures well_formed { IfOk result (λ script. is_well_formed copies script.entries ≡ true) }
{
    let Some((first, rest)) = cut_at_byte(text, b'\n') else {
        return Err(ScriptRefusal::BadLine(1));
    };
    let Some(side) = read_side(first) else {
        return Err(ScriptRefusal::BadLine(1));
    };
    let steps = read_lines(alloc, copies, side, rest)?;
    Ok(Script::new(alloc, side, steps))
}

/// The happenings of the lines from the second on.
fn read_lines(
    alloc: Global,
    copies: u8,
    side: Side,
    text: &[u8],
) -> Result<Vec<Step>, ScriptRefusal>
    requires least { 1 ≤ copies }
    requires most { copies ≤ 8 }
    ensures steps { IfOk result
        (λ steps. read_lines copies side 2 nothing_read (parts_of text.now)
        ≡ Ok (entries_in steps.items)) }
    ensures bad_line { (number : ℕ) → result ≡ Err (ScriptRefusal.BadLine number)
        → IsErrAnd (read_lines copies side 2 nothing_read (parts_of text.now))
        (λ line. number ≡ min line (2 ^ 32 - 1)) }
{
    let mut reading = Reading::new(alloc);
    let mut number: u64 = 2;
    let mut rest = text;
    'lines: while let Some((line, more)) = cut_at_byte(rest, b'\n') {
        if !read_line(alloc, copies, side, line, &mut reading)? {
            return Err(bad_line(number));
        }
        number += 1;
        rest = more;
    }
    if !rest.is_empty() {
        return Err(bad_line(number));
    }
    let waiting = reading.waiting();
    if waiting > 0 {
        return Err(bad_line(number - waiting as u64));
    }
    Ok(reading.into_steps())
}

/// The refusal that names this line.
fn bad_line(number: u64) -> ScriptRefusal
    ensures { result ≡ ScriptRefusal.BadLine (min number (2 ^ 32 - 1)) }
{
    ScriptRefusal::BadLine(number.min(u64::from(u32::MAX)) as u32)
}

/// Takes one line. False where it is bad.
fn read_line(
    alloc: Global,
    copies: u8,
    side: Side,
    line: &[u8],
    reading: &mut Reading,
) -> Result<bool, NoMemory>
    requires least { 1 ≤ copies }
    requires most { copies ≤ 8 }
    ensures { IfOk result (λ good. with_line copies side reading.old (words_of line.now)
        ≡ (if good then Some reading.new else None)) }
{
    if is_told(line) {
        let Some(row) = read_told(alloc, copies, side, line)? else {
            return Ok(false);
        };
        reading.tell(alloc, &row)?;
    } else {
        let Some(happening) = read_happening(alloc, copies, line)? else {
            return Ok(false);
        };
        if !reading.may_stand(copies, &happening.what) {
            return Ok(false);
        }
        reading.push(copies, happening)?;
    }
    Ok(true)
}
