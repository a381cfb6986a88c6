ghost use Rattle.std.specs.Prelude.{◌≡◌, ◌≤◌, ◌+◌, ◌++◌, [], ◌∷◌, ℕ, List, true, IfOk, IfSome, OnOk, OnErr, is_some, is_none};
ghost use Rattle.rd_base.specs.History.{History, Entry, is_well_formed};
ghost use Rattle.rd_base.specs.Limits.{AreLimits};
ghost use Rattle.rd_rules.specs.Sent.{final, sent, sent_past, step_sends, exchanges, masked, agreed_rows};
ghost use Rattle.rd_rules.specs.Wait.{wait, due_moment};
ghost use Rattle.rd_rules.specs.Wanted.{wanted};
ghost use Rattle.rd_core.specs.Clocks.{entry_of};
ghost use Rattle.rd_core.specs.Standing.{open_len};
ghost use Rattle.rd_in_core.specs.Seen.{IsAt, session_rules};

use rd_base::{Ending, Happening, Limits, NoMemory, Rows, Sends, Side, Which, Words};
use rd_core::{Session, Setup};
use rd_dialect::Dialect;
use std::alloc::Global;
use std::marker::Model;

/// One session of a client before 3 to 8 instances, over any dialect. It is a pure step over happenings:
/// where it stands is a function of the history that it has taken.
#[derive(Drop)]
pub struct InSession<D: Dialect> {
    session: Session<D>,
}

impl<D: Dialect> Model for InSession<D> {
    ghost use Rattle.rd_base.specs.declared.values.Side.TheVariants.{Incoming};
    ghost use Rattle.rd_core.specs.Standing.{IsOn};
    ghost use Rattle.rd_core.specs.Faces.{Face, face_of};

    ghost Value = { Face D };

    ghost view = { λ a. face_of a.session };

    ghost invariant = { λ a. IsOn Incoming a.session };
}

impl<D: Dialect> InSession<D> {
    /// A session of which nothing was heard yet. The limits are in their ranges.
    pub fn new(alloc: Global, dialect: D, limits: Limits) -> Result<InSession<D>, NoMemory>
        requires { AreLimits limits }
        ensures dialect { IfOk result (λ s. s.dialect ≡ dialect) }
        ensures limits { IfOk result (λ s. s.limits ≡ limits) }
        ensures at { IfOk result (λ s. IsAt (session_rules (D.grammar s.dialect) s) s []) }
    {
        let setup = Setup {
            side: Side::Incoming,
            limits,
        };
        let session = Session::new(alloc, dialect, setup)?;
        Ok(InSession { session })
    }

    /// One step, with the rows told to it: what each link has been sent after it past what it had been sent
    /// before, in the order of links. After an ending nothing is taken. After want of memory the session is
    /// as before and nothing is sent. A happening that can't follow what was taken, as a
    /// piece past 16,384 bytes or one of a link that has ended, leaves open what the session then is, and
    /// is safe.
    pub fn take(&mut self, happening: &Happening, told: &Rows) -> Result<Sends, NoMemory>
        ensures dialect { self.new.dialect ≡ self.old.dialect }
        ensures limits { self.new.limits ≡ self.old.limits }
        ensures at { OnOk result ((h : History) → is_well_formed self.old.limits.copies (h
            ++ entry_of happening.now told.now ∷ []) ≡ true
            → IsAt (session_rules (D.grammar self.old.dialect) self.old) self.old h
            → IsAt (session_rules (D.grammar self.old.dialect) self.old) self.new (h ++ entry_of happening.now told.now ∷ [])) }
        ensures sends { IfOk result (λ sends. (h : History)
            → is_well_formed self.old.limits.copies (h ++ entry_of happening.now told.now ∷ [])
            ≡ true
            → IsAt (session_rules (D.grammar self.old.dialect) self.old) self.old h
            → sends ≡ step_sends (session_rules (D.grammar self.old.dialect) self.old) h (h ++ entry_of happening.now told.now ∷ [])) }
        ensures adds { OnOk result ((h : History) → is_well_formed self.old.limits.copies (h
            ++ entry_of happening.now told.now ∷ []) ≡ true
            → IsAt (session_rules (D.grammar self.old.dialect) self.old) self.old h
            → (l : ℕ) → sent (session_rules (D.grammar self.old.dialect) self.old) l (h ++ entry_of happening.now told.now ∷ [])
            ≡ sent (session_rules (D.grammar self.old.dialect) self.old) l h ++ sent_past (session_rules (D.grammar self.old.dialect) self.old) h (h ++ entry_of happening.now told.now ∷ []) l) }
        ensures over { OnOk result (is_some self.old.ending ≡ true → self.new ≡ self.old) }
        ensures err { OnErr result (self.new ≡ self.old) }
    {
        self.session.take(happening, told)
    }

    /// How the session has ended. None while it is live.
    pub fn ending(&self) -> Option<Ending>
        ensures seen { result ≡ self.now.ending }
        ensures ending { (h : History)
            → IsAt (session_rules (D.grammar self.now.dialect) self.now)
            self.now h → result ≡ final (session_rules (D.grammar self.now.dialect) self.now) h }
    {
        self.session.ending()
    }

    /// How many exchanges are agreed.
    pub fn exchanges(&self) -> u32
        ensures { (h : History) → IsAt (session_rules (D.grammar self.now.dialect) self.now)
            self.now h → result ≡ exchanges (session_rules (D.grammar self.now.dialect)
            self.now) h }
    {
        self.session.exchanges()
    }

    /// How many places are masked in the replies of agreed exchanges.
    pub fn masked(&self) -> u32
        ensures { (h : History) → IsAt (session_rules (D.grammar self.now.dialect) self.now)
            self.now h → result ≡ masked (session_rules (D.grammar self.now.dialect) self.now) h }
    {
        self.session.masked()
    }

    /// The rows that the last step learnt. A step whose reply an unsolicited byte withholds learns none. After an
    /// ending they are those of the step that ended the session.
    pub fn agreed_rows(&self) -> &Rows
        ensures { (h : History) → IsAt (session_rules (D.grammar self.now.dialect) self.now)
            self.now h → result.now
            ≡ agreed_rows (session_rules (D.grammar self.now.dialect) self.now) h }
    {
        self.session.agreed_rows()
    }

    /// The words of 16 to 128 bytes that are looked up in the requests which this happening releases, each once, in
    /// the order of their first places, but those that the own rows show as they stand before the word's request;
    /// the first 4,096. None where the happening releases nothing. It may be asked of before the step itself.
    pub fn wanted(&self, happening: &Happening) -> Result<Words, NoMemory>
        ensures { IfOk result (λ words. (h : History)
            → is_well_formed self.now.limits.copies (h ++ entry_of happening.now [] ∷ []) ≡ true
            → IsAt (session_rules (D.grammar self.now.dialect) self.now) self.now h
            → words ≡ wanted (session_rules (D.grammar self.now.dialect) self.now) h (entry_of happening.now [])) }
    {
        self.session.wanted(happening)
    }

    /// How many bytes the session keeps of its links: those past the last agreed exchange.
    pub fn open_bytes(&self) -> usize
        ensures { result ≡ open_len self.now.at.stage }
    {
        self.session.open_bytes()
    }

    /// The moment in milliseconds at which the session's wait ends, and what it waits for. None exactly
    /// after an ending.
    pub fn due(&self) -> Option<(u64, Which)>
        ensures over { is_none result ≡ is_some self.now.ending }
        ensures due { (h : History) → IsAt (session_rules (D.grammar self.now.dialect) self.now)
            self.now h
            → IfSome result (λ d. (d.0 ≡ due_moment (session_rules (D.grammar self.now.dialect) self.now) h) × (d.1 ≡ (wait (session_rules (D.grammar self.now.dialect) self.now) h).which)) }
    {
        self.session.due()
    }
}
