ghost use Rattle.std.specs.Prelude.{◌≡◌, ◌≤◌, List, ℕ, length, take, true};
ghost use Rattle.rd_reading.specs.Extents.{all_cut_back};
ghost use Rattle.rd_reading.specs.Fronts.{IsFrontOf, AreFronts, AreFrontsOf, longer, is_front_of, are_fronts_of};

use crate::growth::Extent;
use crate::opens::Open;

/// The links of one side, 1 to 8 of them, and whether what they have open is known to be the front of one list.
#[derive(Drop)]
pub struct Links {
    pub opens: Vec<Open>,
    pub alike: bool,
    ghost some_links: { 1 ≤ length opens.items },
    ghost few_links: { length opens.items ≤ 8 },
    ghost fronts: { alike ≡ true → AreFronts opens.items },
}

impl Links {
    /// These links, compared.
    pub(crate) fn of(opens: Vec<Open>) -> Links
        requires some { 1 ≤ length opens.items }
        requires few { length opens.items ≤ 8 }
        ensures { result.opens ≡ opens }
    {
        let alike = are_fronts(opens.as_slice());
        Links { opens, alike }
    }

    pub fn as_slice(&self) -> &[Open]
        ensures value { result.now ≡ self.now.opens.items }
        ensures few { length result.now ≤ 8 }
    {
        self.opens.as_slice()
    }
}

/// The longer of two lists.
fn longer<'a>(one: &'a [u8], other: &'a [u8]) -> &'a [u8]
    ensures { result.now ≡ longer one.now other.now }
{
    if one.len() < other.len() { other } else { one }
}

/// The longest of what links have open.
fn longest(opens: &[Open]) -> &[u8] {
    let mut top: &[u8] = &[];
    for one in opens {
        top = longer(top, one.bytes());
    }
    top
}

fn is_front_of(bytes: &[u8], top: &[u8]) -> bool
    ensures { result ≡ is_front_of bytes.now top.now }
{
    bytes.len() <= top.len() && bytes == &top[..bytes.len()]
}

/// Whether what links have open is the front of one list.
pub(crate) fn are_fronts(opens: &[Open]) -> bool
    ensures { result ≡ true → AreFronts opens.now }
{
    let top = longest(opens);
    are_fronts_of(top, opens)
}

fn are_fronts_of(top: &[u8], opens: &[Open]) -> bool
    ensures { result ≡ are_fronts_of top.now opens.now }
{
    opens.iter().all(|one| is_front_of(one.bytes(), top))
}

/// The longest of what links had open up to these extents.
fn longest_before<'a>(opens: &'a [Open], extents: &[Extent]) -> &'a [u8]
    requires { length extents.now ≡ length opens.now }
    ensures { (whole : List ℕ) → AreFrontsOf whole (all_cut_back extents.now opens.now)
        → AreFrontsOf result.now (all_cut_back extents.now opens.now) }
{
    let mut top: &[u8] = &[];
    for place in 0..extents.len() {
        top = longer(top, opens[place].front(extents[place].len));
    }
    top
}

/// Whether bytes, of which the first are the front of a list, and that list are still fronts of one list.
fn go_on_alike(bytes: &[u8], from: usize, top: &[u8]) -> bool
    ensures bytes { result ≡ true → IsFrontOf (take from bytes.now) top.now
        → IsFrontOf bytes.now (longer top.now bytes.now) }
    ensures top { result ≡ true → IsFrontOf (take from bytes.now) top.now
        → IsFrontOf top.now (longer top.now bytes.now) }
{
    let both = bytes.len().min(top.len());
    both <= from || &bytes[from..both] == &top[from..both]
}

/// Whether what links have open is the front of one list, where it was up to these extents. Only what came behind them
/// is compared.
pub(crate) fn stay_alike(opens: &[Open], extents: &[Extent]) -> bool
    requires count { length extents.now ≡ length opens.now }
    requires fronts { AreFronts (all_cut_back extents.now opens.now) }
    ensures { result ≡ true → AreFronts opens.now }
{
    let mut top = longest_before(opens, extents);
    for place in 0..extents.len() {
        let bytes = opens[place].bytes();
        if !go_on_alike(bytes, extents[place].len, top) {
            return false;
        }
        top = longer(top, bytes);
    }
    true
}
