ghost use Rattle.std.specs.Prelude.{◌≡◌, ◌≤◌, ◌++◌, [], ◌∷◌, length, IfOk, OnOk};
ghost use Rattle.rd_rules.specs.Given.{learnt};
ghost use Rattle.rd_core.specs.OwnLists.{latest_of, own_at, last_own, owns_after};

use rd_base::{NoMemory, Rows};
use rd_reading::DoneExchange;
use rd_token_map::OwnRows;
use std::alloc::Global;
use std::marker::Model;

/// The own rows that the requests of one step are looked up in: those before it, and those after each of its
/// exchanges, as a list of their own once the step has learnt rows.
#[derive(Drop)]
pub(crate) struct OwnLists<'a> {
    own: &'a OwnRows,
    after: Vec<Option<OwnRows>>,
}

impl<'a> Model for OwnLists<'a> {
    ghost use Rattle.std.specs.Prelude.{map};
    ghost use Rattle.rd_core.specs.OwnLists.{OwnsSeen, latest_of};

    ghost Value = { OwnsSeen };

    ghost view = { λ o. record { own = o.own.now; after = map (latest_of o.own.now) o.after.items } };
}

impl<'a> OwnLists<'a> {
    /// The own rows before these exchanges, and after each.
    pub(crate) fn of(
        alloc: Global,
        own: &'a OwnRows,
        done: &[DoneExchange],
    ) -> Result<OwnLists<'a>, NoMemory>
        ensures { IfOk result (λ lists. lists ≡ record {
          own = own.now;
          after = owns_after own.now done.now;
        }) }
    {
        let mut lists = OwnLists {
            own,
            after: Vec::new(alloc),
        };
        for exchange in done {
            lists.learn(alloc, &exchange.replies.rows)?;
        }
        Ok(lists)
    }

    /// Adds the own rows after those of one exchange more.
    fn learn(&mut self, alloc: Global, rows: &Rows) -> Result<(), NoMemory>
        ensures { OnOk result (self.new ≡ record {
          own = self.old.own;
          after = self.old.after ++ learnt (last_own self.old) rows.now ∷ [];
        }) }
    {
        let later = self.later(alloc, rows)?;
        match self.after.push(later) {
            Ok(()) => Ok(()),
            Err(_) => Err(NoMemory),
        }
    }

    /// The own rows after those of one exchange more. None where the step has learnt none.
    fn later(&self, alloc: Global, rows: &Rows) -> Result<Option<OwnRows>, NoMemory>
        ensures { IfOk result (λ o. latest_of self.now.own o
            ≡ learnt (last_own self.now) rows.now) }
    {
        let count = self.after.len();
        if count == 0 {
            return after_rows(alloc, self.own, &None, rows);
        }
        after_rows(alloc, self.own, &self.after[count - 1], rows)
    }

    /// The own rows after so many of the exchanges.
    pub(crate) fn at(&self, count: usize) -> &Rows
        requires { count ≤ length self.now.after }
        ensures { result.now ≡ own_at self.now.own self.now.after count }
    {
        if count == 0 {
            return self.own.rows();
        }
        latest(self.own, &self.after[count - 1]).rows()
    }

    /// Takes out the own rows after all exchanges. None where they are those before.
    pub(crate) fn take_last(&mut self) -> Option<OwnRows>
        ensures { latest_of self.old.own result ≡ last_own self.old }
    {
        self.after.pop()?
    }
}

/// The rows that a request is looked up in: those after what was learnt in this step, else the session's.
pub(crate) fn latest<'a>(own: &'a OwnRows, later: &'a Option<OwnRows>) -> &'a OwnRows
    ensures { result.now ≡ latest_of own.now later.now }
{
    match later {
        Some(rows) => rows,
        None => own,
    }
}

/// The own rows after those of an exchange, from the latest before it. None where the step has learnt none.
pub(crate) fn after_rows(
    alloc: Global,
    own: &OwnRows,
    before: &Option<OwnRows>,
    rows: &Rows,
) -> Result<Option<OwnRows>, NoMemory>
    ensures { IfOk result (λ o. latest_of own.now o
        ≡ learnt (latest_of own.now before.now) rows.now) }
{
    if before.is_none() && rows.len() == 0 {
        return Ok(None);
    }
    let mut later = latest(own, before).copied(alloc)?;
    for place in 0..rows.len() {
        later.learn(rows, place)?;
    }
    Ok(Some(later))
}
