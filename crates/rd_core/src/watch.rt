ghost use Rattle.std.specs.Prelude.{◌≡◌, []};
ghost use Rattle.rd_rules.specs.Trouble as rule;
ghost use Rattle.rd_core.specs.Stages.{seen_stage, HasAsked};
ghost use Rattle.rd_core.specs.Watches.{IsWatch, WasWatch};

use crate::stage::Stage;
use arrayvec::ArrayVec;
use rd_base::What;
use rd_dialect::{Dialect, Due};
use rd_reading::{Links, Look, look_again, look_at, note_of};

/// Which unit is due where a session stands, and what is seen of the links on which it is.
#[derive(Drop)]
pub(crate) struct Watch {
    pub(crate) due: Due,
    pub(crate) looks: ArrayVec<Look, 8>,
}

/// Which unit is due.
fn due_of<D: Dialect>(dialect: &D, stage: &Stage) -> Due
    requires { HasAsked (D.grammar dialect.now) stage.now.out }
    ensures { result ≡ rule.due_of (D.grammar dialect.now) (seen_stage stage.now []) }
{
    match &stage.out {
        None => Due::request(stage.left.phase),
        Some(request) => Due::reply(request.phase, note_of(dialect, request)),
    }
}

/// The links on which it is due.
pub(crate) fn due_links(stage: &Stage) -> &Links
    ensures { result.now.opens.items ≡ rule.due_opens (seen_stage stage.now []) }
{
    if stage.out.is_some() {
        &stage.left.answering
    } else {
        &stage.left.asking
    }
}

/// Scans what is open of each due link.
pub(crate) fn watch_of<D: Dialect>(dialect: &D, stage: &Stage) -> Watch
    requires { HasAsked (D.grammar dialect.now) stage.now.out }
    ensures { IsWatch (D.grammar dialect.now) stage.now result }
{
    let due = due_of(dialect, stage);
    let looks = look_at(dialect, due, due_links(stage).as_slice());
    Watch { due, looks }
}

/// What is seen after a happening, by what was seen before it: only the link that was heard is scanned.
pub(crate) fn watch_again<D: Dialect>(
    dialect: &D,
    stage: &Stage,
    what: &What,
    before: &Watch,
) -> Watch
    requires { WasWatch (D.grammar dialect.now) stage.now what.now before.now }
    ensures { IsWatch (D.grammar dialect.now) stage.now result }
{
    let due = before.due;
    let links = due_links(stage).as_slice();
    let looks = look_again(dialect, due, what, links, before.looks.as_slice());
    Watch { due, looks }
}
