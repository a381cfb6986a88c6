ghost use Rattle.std.specs.Prelude.{◌≡◌, ◌≤◌, ◌++◌, [], ◌∷◌, ◌&&◌, not, nat_le, true, length, IfOk, OnOk, OnErr};
ghost use Rattle.rd_base.specs.History.{may_follow, is_over};
ghost use Rattle.rd_script.specs.Script.{may_stand, nothing_read, with_happening, with_row};
ghost use Rattle.rd_script.specs.Seen.{entries_in, rows_in, over_link};

use crate::step::Step;
use rd_base::{Happening, Link, NoMemory, Row, Rows, What};
use std::alloc::Global;
use std::marker::Model;

/// The most happenings of a script.
const MOST_HAPPENINGS: usize = 1_048_576;

/// What was read so far: the happenings, the rows told to the next one, and of each link whether it is over.
#[derive(Drop)]
pub struct Reading {
    steps: Vec<Step>,
    told: Option<Box<Rows>>,
    over: [bool; 9],
}

impl Model for Reading {
    ghost use Rattle.rd_script.specs.Script.{LinesRead};
    ghost use Rattle.rd_script.specs.Seen.{entries_in, rows_in, TellsOver};

    ghost Value = { LinesRead };

    ghost view = { λ r. record { entries = entries_in r.steps.items; told = rows_in r.told } };

    ghost invariant = { λ r. TellsOver r.over (entries_in r.steps.items) };
}

impl Reading {
    /// Nothing was read.
    pub fn new(alloc: Global) -> Reading
        ensures { result ≡ nothing_read }
    {
        Reading {
            steps: Vec::new(alloc),
            told: None,
            over: [false; 9],
        }
    }

    /// The number of rows told to the next happening.
    pub fn waiting(&self) -> usize
        ensures { result ≡ length self.now.told }
    {
        match &self.told {
            Some(rows) => rows.len(),
            None => 0,
        }
    }

    /// Whether this may stand behind what was read.
    pub fn may_stand(&self, copies: u8, what: &What) -> bool
        requires { copies ≤ 8 }
        ensures { result ≡ may_stand copies self.now.entries what.now }
    {
        self.steps.len() < MOST_HAPPENINGS && self.may_follow(copies, what)
    }

    fn may_follow(&self, copies: u8, what: &What) -> bool
        requires { copies ≤ 8 }
        ensures { result ≡ may_follow copies self.now.entries what.now }
    {
        match what {
            What::Piece(link, bytes) => {
                self.reads(copies, *link) && bytes.len() >= 1 && bytes.len() <= 16_384
            }
            What::End(link) => self.reads(copies, *link),
            What::ReadFail(link) => self.reads(copies, *link),
            What::WriteFail(link) => link.0 <= copies,
            What::Timer => true,
            What::Stop => true,
        }
    }

    /// Whether the link is there and not over.
    fn reads(&self, copies: u8, link: Link) -> bool
        requires { copies ≤ 8 }
        ensures { result ≡ (nat_le link.0 copies && not (is_over link.0 self.now.entries)) }
    {
        link.0 <= copies && !self.over[link.0 as usize]
    }

    /// Appends a happening, with the rows told to it.
    pub fn push(&mut self, copies: u8, happening: Happening) -> Result<(), NoMemory>
        requires copies { copies ≤ 8 }
        requires stands { may_follow copies self.old.entries happening.what ≡ true }
        ensures ok { OnOk result (self.new ≡ with_happening self.old happening) }
        ensures err { OnErr result (self.new ≡ self.old) }
    {
        match self.steps.reserve(1) {
            Ok(()) => (),
            Err(_) => return Err(NoMemory),
        }
        let over = over_link(&happening.what);
        let told = self.told.take();
        self.steps.push_reserved(Step { happening, told });
        if let Some(link) = over {
            self.over[link.0 as usize] = true;
        }
        Ok(())
    }

    /// Keeps a row for the next happening.
    pub fn tell(&mut self, alloc: Global, row: &Row) -> Result<(), NoMemory>
        ensures ok { OnOk result (self.new ≡ with_row self.old row.now) }
        ensures err { OnErr result (self.new ≡ self.old) }
    {
        let mut rows = match self.told.take() {
            Some(rows) => rows,
            None => boxed_rows(alloc)?,
        };
        let pushed = rows.push(row);
        self.told = Some(rows);
        pushed
    }

    /// The happenings, each with the rows told to it.
    pub fn into_steps(self) -> Vec<Step>
        ensures { entries_in result.items ≡ self.entries }
    {
        self.steps
    }
}

/// No rows yet.
fn boxed_rows(alloc: Global) -> Result<Box<Rows>, NoMemory>
    ensures { IfOk result (λ rows. rows.value ≡ []) }
{
    match Box::new(alloc, Rows::new(alloc)) {
        Ok(rows) => Ok(rows),
        Err(_) => Err(NoMemory),
    }
}

/// The link that reads no more after this.
fn over_link(what: &What) -> Option<Link>
    ensures { result ≡ over_link what.now }
{
    match what {
        What::End(link) => Some(*link),
        What::ReadFail(link) => Some(*link),
        What::Piece(_, _) => None,
        What::WriteFail(_) => None,
        What::Timer => None,
        What::Stop => None,
    }
}
