ghost use Rattle.std.specs.Prelude.{◌≡◌, ◌≤◌, ◌<◌, ◌+◌, ◌-◌, ◌^◌, ◌++◌, [], ◌∷◌, List, ℕ, Some, None, true, false, length, map, take, All, MatchOption, option_map, IfSome, IfOk, OnOk, is_some};
ghost use Rattle.rd_base.specs.Limits.{AreMaskLimits};
ghost use Rattle.rd_verdict.specs.LiesIn.{LiesIn};
ghost use Rattle.rd_dialect.specs.Due.{IsDue, tokens_due};
ghost use Rattle.rd_rules.specs.Exchange as rule;
ghost use Rattle.rd_base.specs.Heard.{Heard, judged_of, lists_of};
ghost use Rattle.rd_rules.specs.Early.{heard};
ghost use Rattle.rd_rules.specs.Given.{agreed_mask, learnt_rows};
ghost use Rattle.rd_rules.specs.Trouble.{judge_by, blamed as rule_blamed};
ghost use Rattle.rd_reading.specs.Room.{room, flat_room};
ghost use Rattle.rd_reading.specs.Heard.{left_due};
ghost use Rattle.rd_reading.specs.Looks.{look_of};
ghost use Rattle.rd_base.specs.Token.{Token, token_of};
ghost use Rattle.rd_reading.specs.Alike.{AreJudged, are_units};

use crate::fronts::have_fronts;
use crate::links::Links;
use crate::looks::Look;
use crate::opens::{Open, scan_open};
use crate::unit::{LinkUnit, first_bytes, push_unit};
use rd_base::{Bytes, Ending, Mask, MaskLimits, NoMemory, Rows, Scan, Verdict};
use rd_dialect::{Dialect, Due};
use rd_verdict::{Copies, Spans, judge, rows_of};
use std::alloc::Global;

/// The spans of all tokens of a flat form, or of those that are closed.
fn spans_of<D: Dialect>(
    alloc: Global,
    dialect: &D,
    due: Due,
    flat: &[u8],
    whole: bool,
) -> Result<Spans, NoMemory>
    requires { length flat.now ≤ flat_room }
    ensures tokens { IfOk result (λ spans. map (token_of flat.now) spans
        ≡ left_due (D.grammar dialect.now) due flat.now whole) }
    ensures within { IfOk result (λ spans. All (LiesIn (length flat.now)) spans) }
    ensures count { IfOk result (λ spans. length spans < 2 ^ 32) }
{
    let mut spans = Spans::new(alloc);
    let mut cursor = dialect.first_cursor();
    while let Some((span, next)) = dialect.next_token(
        due.part, due.phase, due.note, flat, whole, cursor,
    ) {
        spans.push(span)?;
        cursor = next;
    }
    Ok(spans)
}

/// Adds a copy: the tokens of a whole unit, or the closed ones of a part. Gives their number.
fn push_tokens<D: Dialect>(
    alloc: Global,
    dialect: &D,
    due: Due,
    bytes: &[u8],
    whole: bool,
    copies: &mut Copies,
) -> Result<usize, NoMemory>
    requires stands { IsDue (D.grammar dialect.now) due bytes.now whole }
    requires room { length bytes.now ≤ room }
    requires few { length copies.old < 8 }
    ensures copies { OnOk result (copies.new ≡ copies.old
        ++ tokens_due (D.grammar dialect.now) due bytes.now whole ∷ []) }
    ensures count { IfOk result (λ n. n ≡ length
        (tokens_due (D.grammar dialect.now) due bytes.now whole)) }
{
    let mut flat = Bytes::new(alloc);
    dialect.flat_into(due.part, due.phase, due.note, bytes, whole, &mut flat)?;
    let spans = spans_of(alloc, dialect, due, flat.as_slice(), whole)?;
    let count = spans.len();
    copies.push_copy(flat, spans)?;
    Ok(count)
}

/// Whole units, one of each link, and their tokens: none where the units are equal, which then agree without a mask.
#[derive(Drop)]
pub(crate) struct WholeUnits {
    pub units: Vec<LinkUnit>,
    pub copies: Option<Copies>,
}

/// Whether the unit of each of these links is there.
fn are_whole<D: Dialect>(dialect: &D, due: Due, opens: &[Open]) -> bool
    ensures { result ≡ is_some (rule.units (D.grammar dialect.now) due opens.now) }
{
    for one in opens {
        match scan_open(dialect, due, one) {
            Scan::Whole(_) => {}
            _ => return false,
        }
    }
    true
}

/// The units that all of these links begin with. None where one of them isn't there.
pub(crate) fn whole_units<D: Dialect>(
    alloc: Global,
    dialect: &D,
    due: Due,
    opens: &[Open],
) -> Result<Option<WholeUnits>, NoMemory>
    requires { length opens.now ≤ 8 }
    ensures units { IfOk result (λ found. option_map (λ w. w.units.items) found
        ≡ rule.units (D.grammar dialect.now) due opens.now) }
    ensures copies { IfOk result (λ found. IfSome found (λ w.
        AreJudged (rule.token_lists (D.grammar dialect.now) due w.units.items) w.copies)) }
{
    if !are_whole(dialect, due, opens) {
        return Ok(None);
    }
    let mut units = Vec::new(alloc);
    for one in opens {
        match scan_open(dialect, due, one) {
            Scan::Whole(len) => {
                let bytes = Bytes::from_slice(alloc, &one.bytes()[..len])?;
                push_unit(&mut units, LinkUnit::new(one.link(), bytes))?;
            }
            _ => return Ok(None),
        }
    }
    let copies = copies_of(alloc, dialect, due, units.as_slice())?;
    Ok(Some(WholeUnits { units, copies }))
}

/// The tokens of whole units, unless the units are equal.
fn copies_of<D: Dialect>(
    alloc: Global,
    dialect: &D,
    due: Due,
    units: &[LinkUnit],
) -> Result<Option<Copies>, NoMemory>
    requires few { length units.now ≤ 8 }
    requires stand { All (λ u. IsDue (D.grammar dialect.now) due u.bytes true) units.now }
    requires room { All (λ u. length u.bytes ≤ room) units.now }
    ensures { IfOk result (λ copies.
        AreJudged (rule.token_lists (D.grammar dialect.now) due units.now) copies) }
{
    if are_equal(units) {
        return Ok(None);
    }
    let copies = cut_units(alloc, dialect, due, units)?;
    Ok(Some(copies))
}

/// Whether these units have the same bytes.
fn are_equal(units: &[LinkUnit]) -> bool
    ensures { result ≡ are_units (rule.first_bytes units.now) units.now }
{
    let first = first_bytes(units);
    units.iter().all(|unit| unit.bytes() == first)
}

/// The tokens of whole units.
fn cut_units<D: Dialect>(
    alloc: Global,
    dialect: &D,
    due: Due,
    units: &[LinkUnit],
) -> Result<Copies, NoMemory>
    requires few { length units.now ≤ 8 }
    requires stand { All (λ u. IsDue (D.grammar dialect.now) due u.bytes true) units.now }
    requires room { All (λ u. length u.bytes ≤ room) units.now }
    ensures { IfOk result (λ copies. copies ≡ rule.token_lists (D.grammar dialect.now)
        due units.now) }
{
    let mut copies = Copies::new(alloc);
    for unit in units {
        push_tokens(alloc, dialect, due, unit.bytes(), true, &mut copies)?;
    }
    Ok(copies)
}

/// The masked places, where the copies agree.
pub(crate) fn agreement(most: MaskLimits, copies: &Option<Copies>) -> Option<Mask>
    requires { AreMaskLimits most }
    ensures { (lists : List (List Token)) → AreJudged lists copies.now → MatchOption result
        (rule.agree most lists ≡ false)
        (λ mask. (rule.agree most lists ≡ true) × (mask ≡ agreed_mask most lists)) }
{
    match copies {
        Some(copies) => agreement_of(most, copies),
        None => Some(Mask::new()),
    }
}

fn agreement_of(most: MaskLimits, copies: &Copies) -> Option<Mask>
    requires { AreMaskLimits most }
    ensures { MatchOption result
        (rule.agree most copies.now ≡ false)
        (λ mask. (rule.agree most copies.now ≡ true) × (mask ≡ agreed_mask most copies.now)) }
{
    if copies.len() < 3 {
        return Some(Mask::new());
    }
    match judge(copies, most) {
        Verdict::Agreed(mask) => Some(mask),
        Verdict::Disagree { .. } => None,
        Verdict::Noise { .. } => None,
    }
}

/// The rows of agreed copies, where any are learnt.
pub(crate) fn rows_learnt(
    alloc: Global,
    learns: bool,
    most: MaskLimits,
    copies: &Option<Copies>,
    mask: &Mask,
) -> Result<Rows, NoMemory>
    requires limits { AreMaskLimits most }
    requires agreed { IfSome copies.now (λ lists. (rule.agree most lists ≡ true)
        × (mask.now ≡ agreed_mask most lists)) }
    ensures { IfOk result (λ rows. (lists : List (List Token)) → AreJudged lists copies.now
        → rows ≡ learnt_rows learns most lists) }
{
    match copies {
        Some(copies) => rows_of_copies(alloc, learns, most, copies, mask),
        None => Ok(Rows::new(alloc)),
    }
}

/// The same of lists that were cut.
fn rows_of_copies(
    alloc: Global,
    learns: bool,
    most: MaskLimits,
    copies: &Copies,
    mask: &Mask,
) -> Result<Rows, NoMemory>
    requires limits { AreMaskLimits most }
    requires agreed { rule.agree most copies.now ≡ true }
    requires mask { mask.now ≡ agreed_mask most copies.now }
    ensures { IfOk result (λ rows. rows ≡ learnt_rows learns most copies.now) }
{
    if !learns || copies.len() < 3 {
        return Ok(Rows::new(alloc));
    }
    rows_of(alloc, copies, mask)
}

/// What the due links have said of their units so far: the closed tokens of each, and the least number
/// of them on a link whose unit isn't whole.
#[derive(Drop)]
pub(crate) struct EarlyCopies {
    copies: Copies,
    shortest: usize,
}

/// Adds what a link has said of its due unit. Gives the number of its tokens where the unit isn't whole.
fn hear_open<D: Dialect>(
    alloc: Global,
    dialect: &D,
    due: Due,
    one: &Open,
    copies: &mut Copies,
) -> Result<Option<usize>, NoMemory>
    requires { length copies.old < 8 }
    ensures copies { OnOk result (copies.new ≡ copies.old
        ++ (heard (D.grammar dialect.now) due one.now).tokens ∷ []) }
    ensures count { IfOk result (λ part. MatchOption part
        ((heard (D.grammar dialect.now) due one.now).is_whole ≡ true)
        (λ n. ((heard (D.grammar dialect.now) due one.now).is_whole ≡ false) × (n ≡ length (heard (D.grammar dialect.now) due one.now).tokens))) }
{
    match scan_open(dialect, due, one) {
        Scan::Whole(len) => {
            push_tokens(alloc, dialect, due, &one.bytes()[..len], true, copies)?;
            Ok(None)
        }
        Scan::More => {
            let count = push_tokens(alloc, dialect, due, one.bytes(), false, copies)?;
            Ok(Some(count))
        }
        Scan::Bad | Scan::TooBig | Scan::Unsupported(_) => {
            copies.push_copy(Bytes::new(alloc), Spans::new(alloc))?;
            Ok(Some(0))
        }
    }
}

/// What the due links have said so far.
pub(crate) fn hear<D: Dialect>(
    alloc: Global,
    dialect: &D,
    due: Due,
    opens: &[Open],
) -> Result<EarlyCopies, NoMemory>
    requires { length opens.now ≤ 8 }
    ensures copies { IfOk result (λ e. e.copies ≡ lists_of
        (map (heard (D.grammar dialect.now) due) opens.now)) }
    ensures shortest { IfOk result (λ e. e.shortest
        ≡ judged_of (2 ^ 64 - 1) (map (heard (D.grammar dialect.now) due) opens.now)) }
{
    let mut copies = Copies::new(alloc);
    let mut shortest = usize::MAX;
    for one in opens {
        if let Some(count) = hear_open(alloc, dialect, due, one, &mut copies)? {
            shortest = shortest.min(count);
        }
    }
    Ok(EarlyCopies { copies, shortest })
}

/// The disagreement of what was said so far, by the number of its exchange.
pub fn early_fault<D: Dialect>(
    alloc: Global,
    dialect: &D,
    most: MaskLimits,
    exchange: u32,
    due: Due,
    links: &Links,
    looks: &[Look],
) -> Result<Option<Ending>, NoMemory>
    requires limits { AreMaskLimits most }
    requires looks { looks.now ≡ map (look_of (D.grammar dialect.now) due) links.now.opens.items }
    ensures { IfOk result (λ e. e ≡ judge_by most exchange
        (map (heard (D.grammar dialect.now) due) links.now.opens.items)) }
{
    if have_fronts(dialect, due, links, looks) {
        return Ok(None);
    }
    let early = hear(alloc, dialect, due, links.as_slice())?;
    Ok(fault_of(most, exchange, early))
}

fn fault_of(most: MaskLimits, exchange: u32, early: EarlyCopies) -> Option<Ending>
    requires { AreMaskLimits most }
    ensures { (heards : List Heard) → early.copies ≡ lists_of heards
        → early.shortest ≡ judged_of (2 ^ 64 - 1) heards → result ≡ judge_by most exchange heards }
{
    let EarlyCopies {
        mut copies,
        shortest,
    } = early;
    if copies.len() < 3 {
        return None;
    }
    let judged = shortest.min(copies.longest());
    copies.cut_to(judged);
    blamed(exchange, judge(&copies, most))
}

fn blamed(exchange: u32, verdict: Verdict) -> Option<Ending>
    ensures { result ≡ rule_blamed exchange verdict }
{
    match verdict {
        Verdict::Agreed(_) => None,
        Verdict::Disagree { copy, place } => Some(Ending::Disagree {
            exchange,
            copy,
            place,
        }),
        Verdict::Noise { place } => Some(Ending::Noise { exchange, place }),
    }
}
