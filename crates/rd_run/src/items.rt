ghost use Rattle.std.specs.Prelude.{◌≡◌, ◌<◌, ◌++◌, [], ◌∷◌, length, slice_get, option_map, Some, OnOk, OnErr};

use rd_base::{Link, NoMemory};
use rd_gate::Item;
use std::alloc::Global;
use std::marker::Model;

/// Items and their links.
#[derive(Drop)]
pub struct Items {
    kept: Vec<(Link, Item)>,
}

impl Model for Items {
    ghost use Rattle.std.specs.Prelude.{List};
    ghost use Rattle.rd_base.specs.declared.values.Link.{Link};
    ghost use Rattle.rd_gate.specs.declared.item.Item.{Item};

    ghost Value = { List (Link × Item) };

    ghost view = { λ i. i.kept.items };
}

impl Items {
    /// No items.
    pub fn new(alloc: Global) -> Items
        ensures { result ≡ [] }
    {
        Items {
            kept: Vec::new(alloc),
        }
    }

    /// Appends an item of this link.
    pub fn push(&mut self, link: Link, item: Item) -> Result<(), NoMemory>
        ensures ok { OnOk result (self.new ≡ self.old ++ (link, item) ∷ []) }
        ensures err { OnErr result (self.new ≡ self.old) }
    {
        match self.kept.push((link, item)) {
            Ok(()) => Ok(()),
            Err(_) => Err(NoMemory),
        }
    }

    pub fn len(&self) -> usize
        ensures { result ≡ length self.now }
    {
        self.kept.len()
    }

    /// The link of the item that stands there, from 0.
    pub fn link_at(&self, place: usize) -> Link
        requires { place < length self.now }
        ensures { option_map (λ x. x.0) (slice_get self.now place) ≡ Some result }
    {
        self.kept[place].0
    }

    /// The item that stands there, from 0.
    pub fn item_at(&self, place: usize) -> &Item
        requires { place < length self.now }
        ensures { option_map (λ x. x.1) (slice_get self.now place) ≡ Some result.now }
    {
        &self.kept[place].1
    }
}

/// What was taken and came to no step.
#[derive(Drop)]
pub enum LeftOver {
    All(Items),
    NoMemory,
}
