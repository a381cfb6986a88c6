ghost use Rattle.std.specs.Prelude.{◌≡◌, ◌≤◌, ◌<◌, ◌+◌, ◌++◌, [], ◌∷◌, List, ℕ, take, drop, map, length, true, false, All, IfOk, OnOk, OnErr};
ghost use Rattle.rd_base.specs.declared.values.Scan.TheVariants.{Whole, More};
ghost use Rattle.rd_base.specs.History.{piece_of, ends};
ghost use Rattle.rd_dialect.specs.Due.{IsDue};
ghost use Rattle.rd_rules.specs.Exchange as rule;
ghost use Rattle.rd_rules.specs.Step.{grow_by};
ghost use Rattle.rd_reading.specs.Room.{HasRoom, room};
ghost use Rattle.rd_reading.specs.Extents.{extent_of, cut_back};

use crate::growth::Extent;
use crate::unit::{LinkUnit, first_len, others, push_unit};
use rd_base::{Bytes, Link, NoMemory, Scan, What};
use rd_dialect::{Dialect, Due, scan_due};
use std::alloc::Global;
use std::marker::Model;

/// A link's bytes that are open, and whether the link has ended.
#[derive(Drop)]
pub struct Open {
    link: Link,
    bytes: Bytes,
    is_ended: bool,
}

impl Model for Open {
    ghost use Rattle.rd_rules.specs.Exchange as rule;
    ghost use Rattle.rd_reading.specs.Room.{room};
    ghost use Rattle.std.specs.Prelude.{◌≤◌, length};

    ghost Value = { rule.Open };

    ghost view = { λ o. record { link = o.link.0; bytes = o.bytes; is_ended = o.is_ended } };

    ghost invariant = { λ o. length o.bytes ≤ room };
}

impl Open {
    /// A link of which nothing was heard.
    pub fn new(alloc: Global, link: Link) -> Open
        ensures { result ≡ rule.open_of [] link.0 }
    {
        Open {
            link,
            bytes: Bytes::new(alloc),
            is_ended: false,
        }
    }

    pub fn link(&self) -> Link
        ensures { result.0 ≡ self.now.link }
    {
        self.link
    }

    pub fn bytes(&self) -> &[u8]
        ensures bytes { result.now ≡ self.now.bytes }
        ensures room { length result.now ≤ room }
    {
        self.bytes.as_slice()
    }

    pub fn is_ended(&self) -> bool
        ensures { result ≡ self.now.is_ended }
    {
        self.is_ended
    }

    /// What is open behind the first bytes.
    fn past(&self, alloc: Global, len: usize) -> Result<Open, NoMemory>
        ensures { IfOk result (λ o. o ≡ record {
          link = self.now.link;
          bytes = drop len self.now.bytes;
          is_ended = self.now.is_ended;
        }) }
    {
        Ok(Open {
            link: self.link,
            bytes: Bytes::from_slice(alloc, behind(self.bytes(), len))?,
            is_ended: self.is_ended,
        })
    }

    /// The first bytes that are open.
    pub(crate) fn front(&self, len: usize) -> &[u8]
        ensures { result.now ≡ take len self.now.bytes }
    {
        let bytes = self.bytes();
        &bytes[..len.min(bytes.len())]
    }

    /// How much is open.
    pub(crate) fn extent(&self) -> Extent
        ensures { result ≡ extent_of self.now }
    {
        Extent {
            len: self.bytes.len(),
            is_ended: self.is_ended,
        }
    }

    /// Hears a happening.
    pub(crate) fn grow(&mut self, what: &What) -> Result<(), NoMemory>
        requires { HasRoom what.now self.old }
        ensures ok { OnOk result (self.new ≡ grow_by what.now self.old) }
        ensures err { OnErr result (self.new ≡ self.old) }
    {
        self.bytes.push_slice(piece_of(self.link, what))?;
        self.is_ended = self.is_ended || is_end_of(self.link, what);
        Ok(())
    }

    /// Forgets what was heard since it had this extent.
    pub(crate) fn cut_back(&mut self, extent: Extent)
        ensures { self.new ≡ cut_back extent self.old }
    {
        self.bytes.truncate(extent.len);
        self.is_ended = extent.is_ended;
    }

    /// A copy of what is open once a happening is heard.
    fn grown(&self, alloc: Global, what: &What) -> Result<Open, NoMemory>
        requires { HasRoom what.now self.now }
        ensures { IfOk result (λ o. o ≡ grow_by what.now self.now) }
    {
        let mut bytes = Bytes::from_slice(alloc, self.bytes())?;
        bytes.push_slice(piece_of(self.link, what))?;
        Ok(Open {
            link: self.link,
            bytes,
            is_ended: self.is_ended || is_end_of(self.link, what),
        })
    }
}

/// What is behind the first bytes.
fn behind(bytes: &[u8], len: usize) -> &[u8]
    ensures { result.now ≡ drop len bytes.now }
{
    if len < bytes.len() {
        &bytes[len..]
    } else {
        &[]
    }
}

/// The bytes of this link in a happening.
pub(crate) fn piece_of(link: Link, what: &What) -> &[u8]
    ensures { result.now ≡ piece_of link.0 what.now }
{
    match what {
        What::Piece(from, bytes) if *from == link => bytes.as_slice(),
        _ => &[],
    }
}

/// Whether a happening brings bytes to this link, or ends it.
pub(crate) fn is_heard(link: Link, what: &What) -> bool
    ensures bytes { result ≡ false → piece_of link.0 what.now ≡ [] }
    ensures end { result ≡ false → ends link.0 what.now ≡ false }
{
    match what {
        What::Piece(from, _) => *from == link,
        What::End(from) => *from == link,
        _ => false,
    }
}

fn is_end_of(link: Link, what: &What) -> bool
    ensures { result ≡ ends link.0 what.now }
{
    match what {
        What::End(from) => *from == link,
        _ => false,
    }
}

/// The scan of the unit that is due on a link.
pub fn scan_open<D: Dialect>(dialect: &D, due: Due, one: &Open) -> Scan
    ensures scan { result ≡ rule.scan_open (D.grammar dialect.now) due one.now }
    ensures within { (len : ℕ) → result ≡ Whole len → len ≤ length one.now.bytes }
    ensures unit { (len : ℕ) → result ≡ Whole len
        → IsDue (D.grammar dialect.now) due (take len one.now.bytes) true }
    ensures part { result ≡ More → IsDue (D.grammar dialect.now) due one.now.bytes false }
{
    scan_due(dialect, due, one.bytes(), one.is_ended())
}

pub(crate) fn push_open(opens: &mut Vec<Open>, one: Open) -> Result<(), NoMemory>
    ensures { OnOk result (opens.new.items ≡ opens.old.items ++ one ∷ []) }
{
    match opens.push(one) {
        Ok(()) => Ok(()),
        Err(_) => Err(NoMemory),
    }
}

/// A unit without bytes of each link.
pub(crate) fn empty_units(alloc: Global, opens: &[Open]) -> Result<Vec<LinkUnit>, NoMemory>
    ensures { IfOk result (λ us. us.items ≡ map rule.empty_unit opens.now) }
{
    let mut units = Vec::new(alloc);
    for one in opens {
        push_unit(&mut units, LinkUnit::new(one.link(), Bytes::new(alloc)))?;
    }
    Ok(units)
}

/// What is open past these units.
pub fn past_units(alloc: Global, opens: &[Open], units: &[LinkUnit]) -> Result<Vec<Open>, NoMemory>
    ensures { IfOk result (λ os. os.items ≡ rule.past opens.now units.now) }
{
    let mut made = Vec::new(alloc);
    let mut rest = units;
    for one in opens {
        push_open(&mut made, one.past(alloc, first_len(rest))?)?;
        rest = others(rest);
    }
    Ok(made)
}

/// A copy of what is open once a happening is heard.
pub(crate) fn grown_opens(alloc: Global, opens: &[Open], what: &What) -> Result<Vec<Open>, NoMemory>
    requires { All (HasRoom what.now) opens.now }
    ensures { IfOk result (λ os. os.items ≡ map (grow_by what.now) opens.now) }
{
    let mut made = Vec::new(alloc);
    for one in opens {
        push_open(&mut made, one.grown(alloc, what)?)?;
    }
    Ok(made)
}
