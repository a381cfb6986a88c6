ghost use Rattle.std.specs.Prelude.{◌≡◌, ◌≤◌, [], ◌∷◌, ◌++◌, length, take, OnOk, OnErr, IfOk};
ghost use Rattle.rd_rules.specs.Exchange as rule;

use rd_base::{Bytes, Link, NoMemory};
use std::alloc::Global;
use std::marker::Model;

/// A whole unit of a link.
#[derive(Drop)]
pub struct LinkUnit {
    link: Link,
    bytes: Bytes,
}

impl Model for LinkUnit {
    ghost use Rattle.rd_rules.specs.Exchange as rule;
    ghost use Rattle.std.specs.Prelude.{◌≤◌, length};

    ghost Value = { rule.LinkUnit };

    ghost view = { λ u. record { link = u.link.0; bytes = u.bytes } };
}

impl LinkUnit {
    pub fn new(link: Link, bytes: Bytes) -> LinkUnit
        ensures { result ≡ record { link = link.0; bytes = bytes } }
    {
        LinkUnit { link, bytes }
    }

    pub fn bytes(&self) -> &[u8]
        ensures { result.now ≡ self.now.bytes }
    {
        self.bytes.as_slice()
    }
}

pub(crate) fn push_unit(units: &mut Vec<LinkUnit>, unit: LinkUnit) -> Result<(), NoMemory>
    ensures { OnOk result (units.new.items ≡ units.old.items ++ unit ∷ []) }
{
    match units.push(unit) {
        Ok(()) => Ok(()),
        Err(_) => Err(NoMemory),
    }
}

/// The bytes of the first of these units.
pub fn first_bytes(units: &[LinkUnit]) -> &[u8]
    ensures { result.now ≡ rule.first_bytes units.now }
{
    match units.first() {
        Some(unit) => unit.bytes(),
        None => &[],
    }
}

pub(crate) fn first_len(units: &[LinkUnit]) -> usize
    ensures { result ≡ rule.first_len units.now }
{
    match units.first() {
        Some(unit) => unit.bytes().len(),
        None => 0,
    }
}

/// The units behind the first.
pub(crate) fn others(units: &[LinkUnit]) -> &[LinkUnit]
    ensures { result.now ≡ rule.others units.now }
{
    match units {
        [] => &[],
        [_, rest @ ..] => rest,
    }
}
