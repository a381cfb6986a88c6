ghost use Rattle.std.specs.Prelude.{◌≡◌, ◌<◌, true, map, length, IfSome};
ghost use Rattle.rd_dialect.specs.Due.{IsDue};
ghost use Rattle.rd_rules.specs.Exchange as rule;
ghost use Rattle.rd_reading.specs.Alike.{HaveFronts, in_front, all_in_front};
ghost use Rattle.rd_reading.specs.Looks.{look_of, fits, all_fit, fit_one};

use crate::links::Links;
use crate::looks::Look;
use crate::opens::{Open, scan_open};
use rd_base::Scan;
use rd_dialect::{Dialect, Due};

/// Whether all that the due links have said of their units is the front of one unit, or of one part of a unit: true
/// only if so. Of links that are known to be alike the lengths tell.
pub(crate) fn have_fronts<D: Dialect>(dialect: &D, due: Due, links: &Links, looks: &[Look]) -> bool
    requires { looks.now ≡ map (look_of (D.grammar dialect.now) due) links.now.opens.items }
    ensures { result ≡ true → HaveFronts (D.grammar dialect.now) due links.now.opens.items }
{
    if !links.alike {
        return are_fronts_of_one(dialect, due, links.as_slice());
    }
    match longest_look(looks) {
        Some(place) => fit_one(looks[place], looks),
        None => false,
    }
}

/// The place of the longest of what the links have said of their units.
fn longest_look(looks: &[Look]) -> Option<usize>
    ensures { IfSome result (λ place. place < length looks.now) }
{
    let mut longest = None;
    let mut most = None;
    for place in 0..looks.len() {
        let len = said_len(looks[place]);
        if len > most {
            longest = Some(place);
            most = len;
        }
    }
    longest
}

/// How much is there of a link's due unit. None where no unit can come of its bytes.
fn said_len(look: Look) -> Option<usize> {
    match look.scan {
        Scan::Whole(len) => Some(len),
        Scan::More => Some(look.len),
        Scan::Bad | Scan::TooBig | Scan::Unsupported(_) => None,
    }
}

/// Whether all fit what is there of one.
fn fit_one(top: Look, looks: &[Look]) -> bool
    ensures { result ≡ fit_one top.len top.scan looks.now }
{
    match top.scan {
        Scan::Whole(len) => all_fit(true, len, looks),
        Scan::More => all_fit(false, top.len, looks),
        Scan::Bad | Scan::TooBig | Scan::Unsupported(_) => false,
    }
}

fn all_fit(whole: bool, most: usize, looks: &[Look]) -> bool
    ensures { result ≡ all_fit whole most looks.now }
{
    looks
        .iter()
        .all(|look| fits(whole, most, look.len, look.scan))
}

fn fits(whole: bool, most: usize, size: usize, scan: Scan) -> bool
    ensures { result ≡ fits whole most size scan }
{
    match scan {
        Scan::Whole(len) => whole && len == most,
        Scan::More => size <= most,
        Scan::Bad | Scan::TooBig | Scan::Unsupported(_) => true,
    }
}

/// The same by the bytes of links that aren't known to be alike.
fn are_fronts_of_one<D: Dialect>(dialect: &D, due: Due, opens: &[Open]) -> bool
    ensures { result ≡ true → HaveFronts (D.grammar dialect.now) due opens.now }
{
    match longest(dialect, due, opens) {
        Some((top, whole)) => are_in_front(dialect, due, whole, top, opens),
        None => false,
    }
}

/// The longest of what the links have said of their units, and whether it is a whole unit. None where nothing that
/// they said begins one.
fn longest<'a, D: Dialect>(dialect: &D, due: Due, opens: &'a [Open]) -> Option<(&'a [u8], bool)>
    ensures { IfSome result (λ said. IsDue (D.grammar dialect.now) due said.0.now said.1) }
{
    let mut longest: Option<(&[u8], bool)> = None;
    for one in opens {
        if let Some((bytes, whole)) = said(dialect, due, one) {
            match longest {
                Some((top, _)) if bytes.len() <= top.len() => {}
                _ => longest = Some((bytes, whole)),
            }
        }
    }
    longest
}

/// What is there of a link's due unit, and whether it is whole. None where no unit can come of its bytes.
fn said<'a, D: Dialect>(dialect: &D, due: Due, one: &'a Open) -> Option<(&'a [u8], bool)>
    ensures { IfSome result (λ said. IsDue (D.grammar dialect.now) due said.0.now said.1) }
{
    match scan_open(dialect, due, one) {
        Scan::Whole(len) => Some((&one.bytes()[..len], true)),
        Scan::More => Some((one.bytes(), false)),
        Scan::Bad | Scan::TooBig | Scan::Unsupported(_) => None,
    }
}

fn are_in_front<D: Dialect>(dialect: &D, due: Due, whole: bool, top: &[u8], opens: &[Open]) -> bool
    ensures { result ≡ all_in_front (D.grammar dialect.now) due whole top.now opens.now }
{
    opens
        .iter()
        .all(|one| is_in_front(dialect, due, whole, top, one))
}

fn is_in_front<D: Dialect>(dialect: &D, due: Due, whole: bool, top: &[u8], one: &Open) -> bool
    ensures { result ≡ in_front whole top.now (rule.scan_open (D.grammar dialect.now) due one.now)
        one.now.bytes }
{
    let bytes = one.bytes();
    match scan_open(dialect, due, one) {
        Scan::Whole(len) => whole && &bytes[..len] == top,
        Scan::More => bytes.len() <= top.len() && bytes == &top[..bytes.len()],
        Scan::Bad | Scan::TooBig | Scan::Unsupported(_) => true,
    }
}
