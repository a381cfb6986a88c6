ghost use Rattle.rd_reading.specs.Room.{room};
ghost use Rattle.std.specs.Prelude.{◌≡◌, ◌≤◌, ◌<◌, ◌+◌, ◌*◌, sum_by, ◌++◌, [], ◌∷◌, List, ℕ, Some, None, not, map, length, is_some, find, nat_lt, if◌then◌else◌, ◌&&◌, ◌==◌, option_map, IfSome, IfOk};
ghost use Rattle.std.specs.List.{list_all};
ghost use Rattle.rd_base.specs.Limits.{AreMaskLimits};
ghost use Rattle.rd_base.specs.Words.{is_empty};
ghost use Rattle.rd_dialect.specs.Grammar.{Grammar};
ghost use Rattle.rd_rules.specs.Trouble as rule;
ghost use Rattle.rd_rules.specs.Wait as wait;
ghost use Rattle.rd_core.specs.Stages.{seen_stage};
ghost use Rattle.rd_core.specs.Watches.{IsWatch};
ghost use Rattle.rd_core.specs.Looks.{looks_at, least_look, looks_big, looks_cut, unsupported_look};
ghost use Rattle.rd_reading.specs.Seen.{seen_front, seen_request, rules_of};

use crate::stage::Stage;
use crate::watch::{Watch, due_links};
use rd_base::{Bytes, Ending, Limits, Link, NoMemory, Scan, Side, What};
use rd_dialect::Dialect;
use rd_reading::{Front, Links, Look, Open, Request, Setup, early_fault, past_units};
use std::alloc::Global;

pub(crate) fn or_else(first: Option<Ending>, next: Option<Ending>) -> Option<Ending>
    ensures { result ≡ rule.or_else first next }
{
    match first {
        Some(ending) => Some(ending),
        None => next,
    }
}

fn by_links(side: Side, answering: Option<Ending>, asking: Option<Ending>) -> Option<Ending>
    ensures { result ≡ rule.by_links side answering asking }
{
    match side {
        Side::Incoming => or_else(answering, asking),
        Side::Outgoing => or_else(asking, answering),
    }
}

fn is_bad(scan: Scan) -> bool
    ensures { result ≡ rule.is_bad scan }
{
    matches!(scan, Scan::Bad)
}

fn malformed(looks: &[Look]) -> Option<Ending>
    ensures { result ≡ least_look Ending.Malformed (λ l. rule.is_bad l.scan) looks.now }
{
    for look in looks {
        if is_bad(look.scan) {
            return Some(Ending::Malformed { link: look.link });
        }
    }
    None
}

fn is_long(most: u32, one: &Open) -> bool
    ensures { result ≡ nat_lt most (length one.now.bytes) }
{
    one.bytes().len() > most as usize
}

/// The size limit of links on which nothing is due.
fn long_among(most: u32, opens: &[Open]) -> Option<Ending>
    ensures { result ≡ rule.least_open Ending.TooBig
        (λ o. nat_lt most (length o.bytes)) opens.now }
{
    for one in opens {
        if is_long(most, one) {
            return Some(Ending::TooBig { link: one.link() });
        }
    }
    None
}

fn is_big(most: u32, look: Look) -> bool
    ensures { result ≡ looks_big most look }
{
    look.len > most as usize || matches!(look.scan, Scan::TooBig)
}

/// The size limits of links on which a unit is due.
fn big_among(most: u32, looks: &[Look]) -> Option<Ending>
    ensures { result ≡ least_look Ending.TooBig (looks_big most) looks.now }
{
    for look in looks {
        if is_big(most, *look) {
            return Some(Ending::TooBig { link: look.link });
        }
    }
    None
}

/// The size limits of the links that answer.
fn big_answerer(setup: &Setup, stage: &Stage, looks: &[Look]) -> Option<Ending>
    ensures { (g : Grammar) → looks.now ≡ looks_at g stage.now
        → result ≡ rule.big_among g setup.now.limits.unit_max (is_some stage.now.out) (rule.due_of g (seen_stage stage.now [])) stage.now.left.answering.opens.items }
{
    let most = setup.limits.unit_max;
    match stage.out {
        Some(_) => big_among(most, looks),
        None => long_among(most, stage.left.answering.as_slice()),
    }
}

/// The size limits of the links that ask: outgoing, a request that is out doesn't count.
fn big_asker(
    alloc: Global,
    setup: &Setup,
    stage: &Stage,
    looks: &[Look],
) -> Result<Option<Ending>, NoMemory>
    ensures { IfOk result (λ e. (g : Grammar) → looks.now ≡ looks_at g stage.now
        → e ≡ rule.big_among g setup.now.limits.unit_max (not (is_some stage.now.out)) (rule.due_of g (seen_stage stage.now []))
        (rule.open_asking setup.now.side stage.now.left.asking.opens.items (option_map seen_request stage.now.out))) }
{
    let most = setup.limits.unit_max;
    let asking = stage.left.asking.as_slice();
    match (setup.side, &stage.out) {
        (_, None) => Ok(big_among(most, looks)),
        (Side::Incoming, Some(_)) => Ok(long_among(most, asking)),
        (Side::Outgoing, Some(request)) => {
            let left = past_units(alloc, asking, request.units.as_slice())?;
            Ok(long_among(most, left.as_slice()))
        }
    }
}

fn too_big(
    alloc: Global,
    setup: &Setup,
    stage: &Stage,
    looks: &[Look],
) -> Result<Option<Ending>, NoMemory>
    ensures { IfOk result (λ e. (g : Grammar) → looks.now ≡ looks_at g stage.now
        → e ≡ rule.too_big (rules_of g setup.now) (seen_stage stage.now [])) }
{
    let answering = big_answerer(setup, stage, looks);
    let asking = big_asker(alloc, setup, stage, looks)?;
    Ok(by_links(setup.side, answering, asking))
}

fn code_of(link: Link, scan: Scan) -> Option<Ending>
    ensures { result ≡ rule.code_of link.0 scan }
{
    match scan {
        Scan::Unsupported(code) => Some(Ending::Unsupported { link, code }),
        _ => None,
    }
}

fn unsupported(looks: &[Look]) -> Option<Ending>
    ensures { result ≡ unsupported_look looks.now }
{
    for look in looks {
        let found = code_of(look.link, look.scan);
        if found.is_some() {
            return found;
        }
    }
    None
}

/// What scans and sizes say.
fn scan_trouble(
    alloc: Global,
    setup: &Setup,
    stage: &Stage,
    looks: &[Look],
) -> Result<Option<Ending>, NoMemory>
    ensures { IfOk result (λ e. (g : Grammar) → looks.now ≡ looks_at g stage.now
        → e ≡ rule.scan_trouble (rules_of g setup.now) (seen_stage stage.now [])) }
{
    let big = too_big(alloc, setup, stage, looks)?;
    let bad = malformed(looks);
    let unknown = unsupported(looks);
    Ok(or_else(bad, or_else(big, unknown)))
}

fn is_open(one: &Open) -> bool
    ensures { result ≡ not (is_empty one.now.bytes) }
{
    !one.bytes().is_empty()
}

/// How many bytes are open on these links.
pub(crate) fn open_len(opens: &[Open]) -> usize
    requires { length opens.now ≤ 8 }
    ensures sum { result ≡ sum_by (λ o. length o.bytes) opens.now }
    ensures most { result ≤ room * length opens.now }
{
    let mut total = 0;
    for one in opens {
        total += one.bytes().len();
    }
    total
}

pub(crate) fn some_open(opens: &[Open]) -> bool
    ensures { result ≡ wait.some_open opens.now }
{
    opens.iter().any(|one| is_open(one))
}

fn is_cut(look: Look) -> bool
    ensures { result ≡ looks_cut look }
{
    look.is_ended && !matches!(look.scan, Scan::Whole(_))
}

fn cut_among(looks: &[Look]) -> Option<Ending>
    ensures { result ≡ least_look Ending.Broken looks_cut looks.now }
{
    for look in looks {
        if is_cut(*look) {
            return Some(Ending::Broken { link: look.link });
        }
    }
    None
}

fn left_among(opens: &[Open]) -> Option<Ending>
    ensures { result ≡ rule.least_open Ending.Broken rule.is_left opens.now }
{
    for one in opens {
        if one.is_ended() && is_open(one) {
            return Some(Ending::Broken { link: one.link() });
        }
    }
    None
}

/// A link that ended inside a unit, of those that ask.
fn cut_asker(stage: &Stage, looks: &[Look]) -> Option<Ending>
    ensures { result ≡ (if wait.some_open stage.now.left.asking.opens.items
        then least_look Ending.Broken looks_cut looks.now else None) }
{
    if some_open(stage.left.asking.as_slice()) {
        cut_among(looks)
    } else {
        None
    }
}

fn broken(side: Side, stage: &Stage, looks: &[Look]) -> Option<Ending>
    ensures { (g : Grammar) → looks.now ≡ looks_at g stage.now
        → result ≡ rule.broken_on side g (rule.due_of g (seen_stage stage.now [])) (is_some stage.now.out) stage.now.left.asking.opens.items stage.now.left.answering.opens.items }
{
    match stage.out {
        Some(_) => cut_among(looks),
        None => {
            let left = left_among(stage.left.answering.as_slice());
            by_links(side, left, cut_asker(stage, looks))
        }
    }
}

fn is_over(one: &Open) -> bool
    ensures { result ≡ rule.is_over one.now }
{
    one.is_ended() && !is_open(one)
}

fn over_among(opens: &[Open]) -> Option<Ending>
    ensures { result ≡ rule.least_open Ending.Closed rule.is_over opens.now }
{
    for one in opens {
        if is_over(one) {
            return Some(Ending::Closed { link: one.link() });
        }
    }
    None
}

fn closed(stage: &Stage) -> Option<Ending>
    ensures { result ≡ rule.closed (seen_stage stage.now []) }
{
    if stage.out.is_some() {
        None
    } else {
        over_among(stage.left.answering.as_slice())
    }
}

fn all_over(opens: &[Open]) -> bool
    ensures { result ≡ list_all rule.is_over opens.now }
{
    opens.iter().all(|one| is_over(one))
}

fn all_done(stage: &Stage) -> Option<Ending>
    ensures { result ≡ rule.all_done (seen_stage stage.now []) }
{
    if (stage.out.is_none() && all_over(stage.left.asking.as_slice())) || stage.bye {
        Some(Ending::Done)
    } else {
        None
    }
}

fn retired(limits: &Limits, stage: &Stage) -> Option<Ending>
    ensures { result ≡ rule.retired_at limits.now.exchanges_max stage.now.count }
{
    if stage.count == limits.exchanges_max {
        Some(Ending::Retired)
    } else {
        None
    }
}

/// What ends and counts say.
fn end_trouble(setup: &Setup, stage: &Stage, looks: &[Look]) -> Option<Ending>
    ensures { (g : Grammar) → looks.now ≡ looks_at g stage.now
        → result ≡ rule.end_trouble (rules_of g setup.now) (seen_stage stage.now []) }
{
    let cut = broken(setup.side, stage, looks);
    let last = or_else(all_done(stage), retired(&setup.limits, stage));
    or_else(cut, or_else(closed(stage), last))
}

/// The first trouble of where a session stands, by what is seen of the due links.
pub(crate) fn trouble_of<D: Dialect>(
    alloc: Global,
    dialect: &D,
    setup: &Setup,
    stage: &Stage,
    watch: &Watch,
) -> Result<Option<Ending>, NoMemory>
    requires limits { AreMaskLimits setup.now.limits.mask }
    requires count { stage.now.count ≤ 65536 }
    requires watch { IsWatch (D.grammar dialect.now) stage.now watch.now }
    ensures { IfOk result (λ e. e ≡ rule.trouble_of (rules_of (D.grammar dialect.now) setup.now)
        (seen_stage stage.now [])) }
{
    let looks = watch.looks.as_slice();
    let scans = scan_trouble(alloc, setup, stage, looks)?;
    let exchange = stage.count + 1;
    let differs = early_fault(
        alloc,
        dialect,
        setup.limits.mask,
        exchange,
        watch.due,
        due_links(stage),
        looks,
    )?;
    let ends = end_trouble(setup, stage, looks);
    Ok(or_else(scans, or_else(differs, ends)))
}
