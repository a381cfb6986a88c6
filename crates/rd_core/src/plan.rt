ghost use Rattle.std.specs.Prelude.{◌≡◌, ◌≤◌, ◌+◌, ◌-◌, [], List, ℕ, map, length, is_some, true, not, All, IfOk, IfSome, OnOk, OnErr};
ghost use Rattle.std.specs.List.{flat_map, list_any};
ghost use Rattle.rd_base.specs.Limits.{AreLimits, AreMaskLimits};
ghost use Rattle.rd_base.specs.Sent.{sends_to};
ghost use Rattle.rd_rules.specs.Given.{own_after, exchange_rows};
ghost use Rattle.rd_rules.specs.Step.{given_now, masked_now};
ghost use Rattle.rd_rules.specs.Trouble.{trouble_of, ends_by, is_whole};
ghost use Rattle.rd_reading.specs.Whole.{IsDone};
ghost use Rattle.rd_reading.specs.Seen.{seen_exchange, seen_front, seen_reading, rules_of, rows_are};
ghost use Rattle.rd_core.specs.OwnLists.{latest_of};
ghost use Rattle.rd_core.specs.Stages.{seen_stage, seen_next, read_now, HasAsked};
ghost use Rattle.rd_core.specs.Standing.{now_from};
ghost use Rattle.rd_core.specs.Kept.{IsOut};
ghost use Rattle.rd_core.specs.Looks.{looks_at};
ghost use Rattle.rd_core.specs.Watches.{IsWatch};
ghost use Rattle.rd_core.specs.Quiet.{StillWaits, IsQuiet};

use crate::masks::masked_in;
use crate::own_lists::OwnLists;
use crate::sending::sends_of;
use crate::stage::{Next, Stage, enter};
use crate::trouble::trouble_of;
use crate::watch::{Watch, watch_of};
use rd_base::{Ending, NoMemory, Rows, Scan, Sends};
use rd_dialect::Dialect;
use rd_reading::{DoneExchange, Look, Reading, Setup, note_of, read_on};
use rd_token_map::OwnRows;
use std::alloc::Global;

/// What a step does, worked out before the session goes on to what is next.
#[derive(Drop)]
pub(crate) struct Plan {
    pub(crate) next: Next,
    pub(crate) rows: Rows,
    pub(crate) own: Option<OwnRows>,
    pub(crate) sends: Sends,
    pub(crate) masked: u64,
}

/// Whether the last exchange is a farewell; of none, what was so before.
fn ends_in_farewell<D: Dialect>(dialect: &D, before: bool, done: &[DoneExchange]) -> bool
    requires { All (λ x. IsDone (D.grammar dialect.now) (seen_exchange x)) done.now }
    ensures { result ≡ ends_by (D.grammar dialect.now) before (map seen_exchange done.now) }
{
    let mut bye = before;
    for exchange in done {
        bye = dialect.is_farewell(note_of(dialect, &exchange.request));
    }
    bye
}

/// All rows of these exchanges, in their order.
fn rows_in(alloc: Global, done: &[DoneExchange]) -> Result<Rows, NoMemory>
    ensures { IfOk result (λ rows. rows ≡ flat_map (λ x. x.replies.rows) done.now) }
{
    let mut rows = Rows::new(alloc);
    for exchange in done {
        rows.push_all(&exchange.replies.rows)?;
    }
    Ok(rows)
}

/// What is read of what is open, and what it comes to.
pub(crate) fn plan_of<D: Dialect>(
    alloc: Global,
    dialect: &D,
    setup: &Setup,
    own: &OwnRows,
    told: &Rows,
    stage: &Stage,
) -> Result<Plan, NoMemory>
    requires limits { AreLimits setup.now.limits }
    requires count { stage.now.count ≤ setup.now.limits.exchanges_max }
    ensures next { IfOk result (λ p. seen_next stage.now.left p.next (latest_of own.now p.own)
        ≡ now_from (rules_of (D.grammar dialect.now)
        setup.now) stage.now.count stage.now.bye own.now
        (read_now (rules_of (D.grammar dialect.now) setup.now) stage.now)) }
    ensures sends { IfOk result (λ p. p.sends ≡ sends_to (setup.now.limits.copies + 1)
        (λ link. given_now (rules_of (D.grammar dialect.now) setup.now)
        link own.now told.now (is_some stage.now.out)
        (read_now (rules_of (D.grammar dialect.now) setup.now) stage.now))) }
    ensures rows { IfOk result (λ p. p.rows ≡ flat_map
        (exchange_rows (rules_of (D.grammar dialect.now) setup.now))
        (read_now (rules_of (D.grammar dialect.now) setup.now) stage.now).done) }
    ensures masked { IfOk result (λ p. p.masked ≡ masked_now setup.now.side
        (rules_of (D.grammar dialect.now) setup.now) (is_some stage.now.out)
        (read_now (rules_of (D.grammar dialect.now) setup.now) stage.now)) }
    ensures few_masked { IfOk result (λ p. p.masked ≤ 16777216) }
    ensures count { IfOk result (λ p. p.next.count ≤ setup.now.limits.exchanges_max) }
    ensures asked { IfOk result (λ p. HasAsked (D.grammar dialect.now) p.next.out) }
{
    let spare = setup.limits.exchanges_max - stage.count;
    let was_out = stage.out.is_some();
    let reading = read_on(alloc, dialect, setup, spare, &stage.left)?;
    let done = reading.done.as_slice();
    let mut lists = OwnLists::of(alloc, own, done)?;
    let sends = sends_of(alloc, dialect, setup, &lists, told, was_out, &reading)?;
    let rows = rows_in(alloc, done)?;
    let later = lists.take_last();
    let masked = masked_in(setup.side, was_out, &reading);
    let bye = ends_in_farewell(dialect, stage.bye, done);
    let Reading {
        from: _,
        done: _,
        left,
        out,
        spare: more,
    } = reading;
    let next = Next {
        count: setup.limits.exchanges_max - more,
        bye,
        left,
        out,
    };
    Ok(Plan {
        next,
        rows,
        own: later,
        sends,
        masked,
    })
}

/// What a step came to, and the trouble of where it leads.
#[derive(Drop)]
pub(crate) struct Outcome {
    pub(crate) rows: Rows,
    pub(crate) own: Option<OwnRows>,
    pub(crate) sends: Sends,
    pub(crate) masked: u64,
    pub(crate) trouble: Option<Ending>,
    pub(crate) watch: Watch,
}

fn is_part(scan: Scan) -> bool
    ensures { result ≡ not (is_whole scan) }
{
    !matches!(scan, Scan::Whole(_))
}

/// Whether some link has no whole unit yet.
fn some_part(looks: &[Look]) -> bool
    ensures { result ≡ list_any (λ l. not (is_whole l.scan)) looks.now }
{
    looks.iter().any(|look| is_part(look.scan))
}

/// Whether the request that is out waits for more of a reply.
fn still_waits<D: Dialect>(dialect: &D, setup: &Setup, stage: &Stage, looks: &[Look]) -> bool
    requires asked { HasAsked (D.grammar dialect.now) stage.now.out }
    requires looks { looks.now ≡ looks_at (D.grammar dialect.now) stage.now }
    ensures { result ≡ true → StillWaits (D.grammar dialect.now) setup.now stage.now }
{
    let Some(request) = &stage.out else {
        return false;
    };
    if stage.count >= setup.limits.exchanges_max {
        return false;
    }
    if dialect.is_farewell(note_of(dialect, request)) {
        return false;
    }
    some_part(looks)
}

/// What a step comes to where the request that is out waits for more of a reply: nothing is read again of what is open.
fn wait_on<D: Dialect>(
    alloc: Global,
    dialect: &D,
    setup: &Setup,
    stage: &Stage,
    watch: Watch,
) -> Result<Outcome, NoMemory>
    requires limits { AreLimits setup.now.limits }
    requires count { stage.now.count ≤ setup.now.limits.exchanges_max }
    requires waits { StillWaits (D.grammar dialect.now) setup.now stage.now }
    requires watch { IsWatch (D.grammar dialect.now) stage.now watch }
    ensures quiet { IfOk result (IsQuiet (D.grammar dialect.now) setup.now stage.now) }
    ensures watch { IfOk result (λ p. IsWatch (D.grammar dialect.now) stage.now p.watch) }
{
    let trouble = trouble_of(alloc, dialect, setup, stage, &watch)?;
    Ok(Outcome {
        rows: Rows::new(alloc),
        own: None,
        sends: Sends::new(alloc),
        masked: 0,
        trouble,
        watch,
    })
}

/// Reads what is open, and goes on past what was read.
fn read_further<D: Dialect>(
    alloc: Global,
    dialect: &D,
    setup: &Setup,
    own: &OwnRows,
    told: &Rows,
    stage: &mut Stage,
) -> Result<Outcome, NoMemory>
    requires limits { AreLimits setup.now.limits }
    requires count { stage.old.count ≤ setup.now.limits.exchanges_max }
    ensures stage { IfOk result (λ p. seen_stage stage.new (latest_of own.now p.own)
        ≡ now_from (rules_of (D.grammar dialect.now)
        setup.now) stage.old.count stage.old.bye own.now
        (read_now (rules_of (D.grammar dialect.now) setup.now) stage.old)) }
    ensures trouble { IfOk result (λ p. p.trouble
        ≡ trouble_of (rules_of (D.grammar dialect.now) setup.now) (seen_stage stage.new [])) }
    ensures sends { IfOk result (λ p. p.sends ≡ sends_to (setup.now.limits.copies + 1)
        (λ link. given_now (rules_of (D.grammar dialect.now) setup.now)
        link own.now told.now (is_some stage.old.out)
        (read_now (rules_of (D.grammar dialect.now) setup.now) stage.old))) }
    ensures rows { IfOk result (λ p. p.rows ≡ flat_map
        (exchange_rows (rules_of (D.grammar dialect.now) setup.now))
        (read_now (rules_of (D.grammar dialect.now) setup.now) stage.old).done) }
    ensures masked { IfOk result (λ p. p.masked ≡ masked_now setup.now.side
        (rules_of (D.grammar dialect.now) setup.now) (is_some stage.old.out)
        (read_now (rules_of (D.grammar dialect.now) setup.now) stage.old)) }
    ensures few_masked { IfOk result (λ p. p.masked ≤ 16777216) }
    ensures count { OnOk result (stage.new.count ≤ setup.now.limits.exchanges_max) }
    ensures asked { OnOk result (HasAsked (D.grammar dialect.now) stage.new.out) }
    ensures watch { IfOk result (λ p. IsWatch (D.grammar dialect.now) stage.new p.watch) }
    ensures err { OnErr result (stage.new ≡ stage.old) }
{
    let Plan {
        next,
        rows,
        own: later,
        sends,
        masked,
    } = plan_of(alloc, dialect, setup, own, told, stage)?;
    let before = enter(stage, next);
    let watch = watch_of(dialect, stage);
    match trouble_of(alloc, dialect, setup, stage, &watch) {
        Ok(trouble) => Ok(Outcome {
            rows,
            own: later,
            sends,
            masked,
            trouble,
            watch,
        }),
        Err(refused) => {
            let _next = enter(stage, before);
            Err(refused)
        }
    }
}

/// Goes on past what is read of what is open, by what is seen of the due links.
pub(crate) fn go_on<D: Dialect>(
    alloc: Global,
    dialect: &D,
    setup: &Setup,
    own: &OwnRows,
    told: &Rows,
    stage: &mut Stage,
    watch: Watch,
) -> Result<Outcome, NoMemory>
    requires limits { AreLimits setup.now.limits }
    requires count { stage.old.count ≤ setup.now.limits.exchanges_max }
    requires asked { HasAsked (D.grammar dialect.now) stage.old.out }
    requires out { IsOut (D.grammar dialect.now) setup.now stage.old }
    requires watch { IsWatch (D.grammar dialect.now) stage.old watch }
    ensures stage { IfOk result (λ p. seen_stage stage.new (latest_of own.now p.own)
        ≡ now_from (rules_of (D.grammar dialect.now)
        setup.now) stage.old.count stage.old.bye own.now
        (read_now (rules_of (D.grammar dialect.now) setup.now) stage.old)) }
    ensures trouble { IfOk result (λ p. p.trouble
        ≡ trouble_of (rules_of (D.grammar dialect.now) setup.now) (seen_stage stage.new [])) }
    ensures sends { IfOk result (λ p. p.sends ≡ sends_to (setup.now.limits.copies + 1)
        (λ link. given_now (rules_of (D.grammar dialect.now) setup.now)
        link own.now told.now (is_some stage.old.out)
        (read_now (rules_of (D.grammar dialect.now) setup.now) stage.old))) }
    ensures rows { IfOk result (λ p. p.rows ≡ flat_map
        (exchange_rows (rules_of (D.grammar dialect.now) setup.now))
        (read_now (rules_of (D.grammar dialect.now) setup.now) stage.old).done) }
    ensures masked { IfOk result (λ p. p.masked ≡ masked_now setup.now.side
        (rules_of (D.grammar dialect.now) setup.now) (is_some stage.old.out)
        (read_now (rules_of (D.grammar dialect.now) setup.now) stage.old)) }
    ensures few_masked { IfOk result (λ p. p.masked ≤ 16777216) }
    ensures count { OnOk result (stage.new.count ≤ setup.now.limits.exchanges_max) }
    ensures asked { OnOk result (HasAsked (D.grammar dialect.now) stage.new.out) }
    ensures watch { IfOk result (λ p. IsWatch (D.grammar dialect.now) stage.new p.watch) }
    ensures err { OnErr result (stage.new ≡ stage.old) }
{
    if still_waits(dialect, setup, stage, watch.looks.as_slice()) {
        return wait_on(alloc, dialect, setup, stage, watch);
    }
    read_further(alloc, dialect, setup, own, told, stage)
}
