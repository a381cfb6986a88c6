ghost use Rattle.std.specs.Prelude.{◌≡◌, ◌≤◌, ◌<◌, ◌+◌, ◌++◌, [], ◌∷◌, List, ℕ, None, Some, true, OnOk, OnErr, IfOk, IfSome, false, is_some, is_none};
ghost use Rattle.rd_base.specs.Limits.{AreLimits};
ghost use Rattle.rd_base.specs.History.{Entry, is_well_formed};
ghost use Rattle.rd_rules.specs.Exchange.{Rules};
ghost use Rattle.rd_rules.specs.Sent.{final, exchanges, masked, agreed_rows};
ghost use Rattle.rd_rules.specs.Wait.{wait, due_moment};
ghost use Rattle.rd_rules.specs.Wanted.{wanted};
ghost use Rattle.rd_reading.specs.Seen.{rules_of};
ghost use Rattle.rd_core.specs.Clocks.{entry_of};
ghost use Rattle.rd_core.specs.Standing.{Seen, IsAt, Steps, Counts, SendsMore, open_len};
ghost use Rattle.rd_core.specs.Kept.{is_oversized};

use crate::clock::Clock;
use crate::faults::unsolicited;
use crate::plan::{Outcome, go_on};
use crate::stage::Stage;
use crate::step::{Move, take_step};
use crate::trouble::open_len;
use crate::waits::{due_at, which_at};
use crate::wanted::{is_alone, words_next};
use crate::watch::{Watch, watch_of};
use rd_base::{Ending, Happening, NoMemory, Rows, Sends, Side, What, Which, Words};
use rd_dialect::Dialect;
use rd_reading::{Setup, grown_front, start_front};
use rd_token_map::OwnRows;
use std::alloc::Global;
use std::marker::Model;

/// One session of a single link with its copies.
#[derive(Drop)]
pub struct Session<D: Dialect> {
    alloc: Global,
    dialect: D,
    setup: Setup,
    stage: Stage,
    watch: Watch,
    own: OwnRows,
    clock: Clock,
    masked: u64,
    rows: Rows,
    ending: Option<Ending>,
}

impl<D: Dialect> Model for Session<D> {
    ghost use Rattle.rd_core.specs.Clocks.{standing};
    ghost use Rattle.rd_core.specs.Standing.{Seen};
    ghost use Rattle.rd_core.specs.Kept.{IsKept};

    ghost Value = { Seen D };

    ghost view = { λ a. record { dialect = a.dialect; setup = a.setup; at = standing a.stage a.own a.clock; tally = record { masked = a.masked; rows = a.rows }; ending = a.ending } };

    ghost invariant = { λ a. IsKept (D.grammar a.dialect) a.setup a.stage a.watch a.clock.entries a.masked a.ending };
}

impl<D: Dialect> Session<D> {
    /// A session of which nothing was heard yet.
    pub fn new(alloc: Global, dialect: D, setup: Setup) -> Result<Session<D>, NoMemory>
        requires limits { AreLimits setup.limits }
        ensures dialect { IfOk result (λ s. s.dialect ≡ dialect) }
        ensures setup { IfOk result (λ s. s.setup ≡ setup) }
        ensures at { IfOk result (λ s. IsAt (rules_of (D.grammar dialect) setup) s []) }
    {
        let front = start_front(alloc, &dialect, &setup)?;
        let mut stage = Stage {
            count: 0,
            bye: false,
            left: front,
            out: None,
        };
        let own = OwnRows::new(alloc);
        let told = Rows::new(alloc);
        let watch = watch_of(&dialect, &stage);
        let outcome = go_on(alloc, &dialect, &setup, &own, &told, &mut stage, watch)?;
        let Outcome {
            rows: _,
            own: later,
            sends: _,
            masked,
            trouble,
            watch: seen,
        } = outcome;
        Ok(Session {
            alloc,
            dialect,
            setup,
            stage,
            watch: seen,
            own: later.unwrap_or(own),
            clock: Clock {
                entries: 0,
                moment: 0,
                began: 0,
            },
            masked,
            rows: Rows::new(alloc),
            ending: trouble,
        })
    }

    /// How the session has ended. None while it is live.
    pub fn ending(&self) -> Option<Ending>
        ensures seen { result ≡ self.now.ending }
        ensures ending { (h : List Entry)
            → IsAt (rules_of (D.grammar self.now.dialect) self.now.setup) self.now h
            → result ≡ final (rules_of (D.grammar self.now.dialect) self.now.setup) h }
    {
        self.ending
    }

    /// How many exchanges are agreed: incoming their replies are, outgoing their calls.
    pub fn exchanges(&self) -> u32
        ensures { (h : List Entry) → IsAt (rules_of (D.grammar self.now.dialect) self.now.setup)
            self.now h → result ≡ exchanges (rules_of (D.grammar self.now.dialect)
            self.now.setup) h }
    {
        match self.setup.side {
            Side::Incoming => self.stage.count,
            Side::Outgoing => match self.stage.out {
                Some(_) => self.stage.count + 1,
                None => self.stage.count,
            },
        }
    }

    /// How many places are masked in agreed exchanges.
    pub fn masked(&self) -> u32
        ensures { (h : List Entry) → IsAt (rules_of (D.grammar self.now.dialect) self.now.setup)
            self.now h → result ≡ masked (rules_of (D.grammar self.now.dialect) self.now.setup) h }
    {
        self.masked.min(u64::from(u32::MAX)) as u32
    }

    /// The rows that the last step learnt; after an ending, those of the step that ended the session.
    pub fn agreed_rows(&self) -> &Rows
        ensures { (h : List Entry) → IsAt (rules_of (D.grammar self.now.dialect) self.now.setup)
            self.now h → result.now
            ≡ agreed_rows (rules_of (D.grammar self.now.dialect) self.now.setup) h }
    {
        &self.rows
    }

    /// How many bytes the session keeps of its links: those past the last agreed exchange.
    pub fn open_bytes(&self) -> usize
        ensures { result ≡ open_len self.now.at.stage }
    {
        let left = &self.stage.left;
        open_len(left.asking.as_slice()) + open_len(left.answering.as_slice())
    }

    /// The moment in milliseconds at which the session's wait ends, and what it waits for. None after an
    /// ending.
    pub fn due(&self) -> Option<(u64, Which)>
        ensures over { is_none result ≡ is_some self.now.ending }
        ensures due { (h : List Entry)
            → IsAt (rules_of (D.grammar self.now.dialect) self.now.setup)
            self.now h
            → IfSome result (λ d. (d.0 ≡ due_moment (rules_of (D.grammar self.now.dialect) self.now.setup) h) × (d.1 ≡ (wait (rules_of (D.grammar self.now.dialect) self.now.setup) h).which)) }
    {
        if self.ending.is_some() {
            return None;
        }
        let due = due_at(&self.setup, &self.stage, self.clock);
        Some((due, which_at(self.setup.side, &self.stage)))
    }

    /// One step, with the rows told to it. After an ending, and of a piece past 16,384 bytes, nothing is
    /// taken. After want of memory the session is as before, and nothing is sent.
    pub fn take(&mut self, happening: &Happening, told: &Rows) -> Result<Sends, NoMemory>
        ensures dialect { self.new.dialect ≡ self.old.dialect }
        ensures setup { self.new.setup ≡ self.old.setup }
        ensures at { OnOk result ((h : List Entry)
            → is_well_formed self.old.setup.limits.copies (h
            ++ entry_of happening.now told.now ∷ []) ≡ true
            → IsAt (rules_of (D.grammar self.old.dialect) self.old.setup) self.old h
            → IsAt (rules_of (D.grammar self.old.dialect) self.old.setup) self.new (h ++ entry_of happening.now told.now ∷ [])) }
        ensures sent { IfOk result (λ sends. (h : List Entry)
            → is_well_formed self.old.setup.limits.copies (h
            ++ entry_of happening.now told.now ∷ []) ≡ true
            → IsAt (rules_of (D.grammar self.old.dialect) self.old.setup) self.old h
            → SendsMore (rules_of (D.grammar self.old.dialect) self.old.setup) h (entry_of happening.now told.now) sends) }
        ensures over { OnOk result (is_some self.old.ending ≡ true → self.new ≡ self.old) }
        ensures err { OnErr result (self.new ≡ self.old) }
    {
        if self.ending.is_some() {
            return Ok(Sends::new(self.alloc));
        }
        if is_oversized(&happening.what) {
            return Ok(Sends::new(self.alloc));
        }
        self.go(happening, told)
    }

    /// The words of 16 to 128 bytes that are looked up in the requests which this happening releases, each once, in
    /// the order of their first places, without those that the own rows before their request show; the first 4,096.
    pub fn wanted(&self, happening: &Happening) -> Result<Words, NoMemory>
        ensures { IfOk result (λ words. (h : List Entry)
            → is_well_formed self.now.setup.limits.copies (h ++ entry_of happening.now [] ∷ [])
            ≡ true
            → IsAt (rules_of (D.grammar self.now.dialect) self.now.setup) self.now h
            → words ≡ wanted (rules_of (D.grammar self.now.dialect) self.now.setup) h (entry_of happening.now [])) }
    {
        if self.ending.is_some() {
            return Ok(Words::new(self.alloc));
        }
        let what = &happening.what;
        if is_oversized(what) {
            return Ok(Words::new(self.alloc));
        }
        if is_alone(&self.stage, what) {
            return Ok(Words::new(self.alloc));
        }
        let front = grown_front(self.alloc, &self.stage.left, what)?;
        match unsolicited(
            &self.dialect,
            &self.stage.out,
            front.answering.as_slice(),
            what,
        ) {
            Some(_) => Ok(Words::new(self.alloc)),
            None => words_next(
                self.alloc,
                &self.dialect,
                &self.setup,
                &self.stage,
                &self.own,
                &front,
            ),
        }
    }

    fn go(&mut self, happening: &Happening, told: &Rows) -> Result<Sends, NoMemory>
        requires live { self.old.ending ≡ None }
        requires sized { is_oversized happening.now.what ≡ false }
        ensures dialect { self.new.dialect ≡ self.old.dialect }
        ensures setup { self.new.setup ≡ self.old.setup }
        ensures steps { IfOk result (λ sends. Steps
            (rules_of (D.grammar self.old.dialect) self.old.setup) self.old.at
            (entry_of happening.now told.now) self.new.at self.new.ending sends) }
        ensures counts { OnOk result (Counts (rules_of (D.grammar self.old.dialect) self.old.setup)
            self.old.at.stage (entry_of happening.now told.now) self.old.tally self.new.tally) }
        ensures err { OnErr result (self.new ≡ self.old) }
    {
        let Move {
            rows,
            own,
            clock,
            ending,
            sends,
            masked,
        } = take_step(
            self.alloc,
            &self.dialect,
            &self.setup,
            &mut self.stage,
            &mut self.watch,
            &self.own,
            self.clock,
            self.masked,
            happening,
            told,
        )?;
        if let Some(own) = own {
            self.own = own;
        }
        self.clock = clock;
        self.masked = masked;
        self.rows = rows;
        self.ending = ending;
        Ok(sends)
    }
}

/// A piece has at most 16,384 bytes.
fn is_oversized(what: &What) -> bool
    ensures { result ≡ is_oversized what.now }
{
    match what {
        What::Piece(_, bytes) => bytes.len() > 16_384,
        _ => false,
    }
}
