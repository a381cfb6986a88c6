ghost use Rattle.std.specs.Prelude.{◌≡◌, ◌≤◌, ◌+◌, ◌++◌, [], ◌∷◌, ℕ, List, true, IfOk, IfSome, OnOk, OnErr, is_some, is_none};
ghost use Rattle.rd_base.specs.History.{History, Entry, is_well_formed};
ghost use Rattle.rd_base.specs.Limits.{AreLimits};
ghost use Rattle.rd_rules.specs.Sent.{final, sent, sent_past, step_sends, exchanges, masked};
ghost use Rattle.rd_rules.specs.Wait.{wait, due_moment};
ghost use Rattle.rd_core.specs.Clocks.{entry_of};
ghost use Rattle.rd_core.specs.Standing.{open_len};
ghost use Rattle.rd_out_core.specs.Seen.{IsAt, session_rules};

use rd_base::{Ending, Happening, Limits, NoMemory, Rows, Sends, Side, Which};
use rd_core::{Session, Setup};
use rd_dialect::Dialect;
use std::alloc::Global;
use std::marker::Model;

/// One session of 3 to 8 callers before a backend, over any dialect. It is a pure step over happenings:
/// where it stands is a function of the history that it has taken.
#[derive(Drop)]
pub struct OutSession<D: Dialect> {
    session: Session<D>,
    alloc: Global,
}

impl<D: Dialect> Model for OutSession<D> {
    ghost use Rattle.rd_base.specs.declared.values.Side.TheVariants.{Outgoing};
    ghost use Rattle.rd_core.specs.Standing.{IsOn};
    ghost use Rattle.rd_core.specs.Faces.{Face, face_of};

    ghost Value = { Face D };

    ghost view = { λ a. face_of a.session };

    ghost invariant = { λ a. IsOn Outgoing a.session };
}

impl<D: Dialect> OutSession<D> {
    /// A session of which nothing was heard yet. The limits are in their ranges.
    pub fn new(alloc: Global, dialect: D, limits: Limits) -> Result<OutSession<D>, NoMemory>
        requires { AreLimits limits }
        ensures dialect { IfOk result (λ s. s.dialect ≡ dialect) }
        ensures limits { IfOk result (λ s. s.limits ≡ limits) }
        ensures at { IfOk result (λ s. IsAt (session_rules (D.grammar s.dialect) s) s []) }
    {
        let setup = Setup {
            side: Side::Outgoing,
            limits,
        };
        let session = Session::new(alloc, dialect, setup)?;
        Ok(OutSession { session, alloc })
    }

    /// One step: what each link has been sent after it past what it had been sent before, in the order of links.
    /// After an ending nothing is taken. After want of memory the session is as before and nothing is sent. A
    /// happening that can't follow what was taken, as a piece past 16,384 bytes or one of a link that has ended,
    /// leaves open what the session then is, and is safe.
    pub fn take(&mut self, happening: &Happening) -> Result<Sends, NoMemory>
        ensures dialect { self.new.dialect ≡ self.old.dialect }
        ensures limits { self.new.limits ≡ self.old.limits }
        ensures at { OnOk result ((h : History) → is_well_formed self.old.limits.copies (h
            ++ entry_of happening.now [] ∷ []) ≡ true
            → IsAt (session_rules (D.grammar self.old.dialect) self.old) self.old h
            → IsAt (session_rules (D.grammar self.old.dialect) self.old) self.new (h ++ entry_of happening.now [] ∷ [])) }
        ensures sends { IfOk result (λ sends. (h : History)
            → is_well_formed self.old.limits.copies (h ++ entry_of happening.now [] ∷ []) ≡ true
            → IsAt (session_rules (D.grammar self.old.dialect) self.old) self.old h
            → sends ≡ step_sends (session_rules (D.grammar self.old.dialect) self.old) h (h ++ entry_of happening.now [] ∷ [])) }
        ensures adds { OnOk result ((h : History) → is_well_formed self.old.limits.copies (h
            ++ entry_of happening.now [] ∷ []) ≡ true
            → IsAt (session_rules (D.grammar self.old.dialect) self.old) self.old h
            → (l : ℕ) → sent (session_rules (D.grammar self.old.dialect) self.old) l (h ++ entry_of happening.now [] ∷ [])
            ≡ sent (session_rules (D.grammar self.old.dialect) self.old) l h ++ sent_past (session_rules (D.grammar self.old.dialect) self.old) h (h ++ entry_of happening.now [] ∷ []) l) }
        ensures over { OnOk result (is_some self.old.ending ≡ true → self.new ≡ self.old) }
        ensures err { OnErr result (self.new ≡ self.old) }
    {
        let none = Rows::new(self.alloc);
        self.session.take(happening, &none)
    }

    /// How the session has ended. None while it is live.
    pub fn ending(&self) -> Option<Ending>
        ensures seen { result ≡ self.now.ending }
        ensures ending { (h : History)
            → IsAt (session_rules (D.grammar self.now.dialect) self.now)
            self.now h → result ≡ final (session_rules (D.grammar self.now.dialect) self.now) h }
    {
        self.session.ending()
    }

    /// How many calls are agreed: those that are answered, and the one that is out.
    pub fn exchanges(&self) -> u32
        ensures { (h : History) → IsAt (session_rules (D.grammar self.now.dialect) self.now)
            self.now h → result ≡ exchanges (session_rules (D.grammar self.now.dialect)
            self.now) h }
    {
        self.session.exchanges()
    }

    /// How many places are masked in agreed calls.
    pub fn masked(&self) -> u32
        ensures { (h : History) → IsAt (session_rules (D.grammar self.now.dialect) self.now)
            self.now h → result ≡ masked (session_rules (D.grammar self.now.dialect) self.now) h }
    {
        self.session.masked()
    }

    /// How many bytes the session keeps of its links: those past the last answered call. So a call that is out counts,
    /// though it is agreed.
    pub fn open_bytes(&self) -> usize
        ensures { result ≡ open_len self.now.at.stage }
    {
        self.session.open_bytes()
    }

    /// The moment in milliseconds at which the session's wait ends, and what it waits for. None exactly
    /// after an ending.
    pub fn due(&self) -> Option<(u64, Which)>
        ensures over { is_none result ≡ is_some self.now.ending }
        ensures due { (h : History) → IsAt (session_rules (D.grammar self.now.dialect) self.now)
            self.now h
            → IfSome result (λ d. (d.0 ≡ due_moment (session_rules (D.grammar self.now.dialect) self.now) h) × (d.1 ≡ (wait (session_rules (D.grammar self.now.dialect) self.now) h).which)) }
    {
        self.session.due()
    }
}
