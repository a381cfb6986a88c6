ghost use Rattle.std.specs.Prelude.{◌≡◌, ◌≤◌, length, map, All, IfOk, OnOk, OnErr};
ghost use Rattle.rd_rules.specs.Step.{grow_by, grow_front_by};
ghost use Rattle.rd_reading.specs.Room.{HasRoom};
ghost use Rattle.rd_reading.specs.Extents.{extent_of, all_cut_back};
ghost use Rattle.rd_reading.specs.Seen.{seen_front};

use crate::exchange::Front;
use crate::links::{Links, are_fronts, stay_alike};
use crate::opens::Open;
use arrayvec::ArrayVec;
use rd_base::{NoMemory, What};

/// How many bytes of a link were open, and whether the link had ended.
#[derive(Clone, Copy, Debug, Default, PartialEq, Eq)]
pub struct Extent {
    pub len: usize,
    pub is_ended: bool,
}

/// The extents of the links of a front.
#[derive(Drop)]
pub struct Extents {
    pub asking: ArrayVec<Extent, 8>,
    pub answering: ArrayVec<Extent, 8>,
}

fn extents_of(opens: &[Open]) -> ArrayVec<Extent, 8>
    requires { length opens.now ≤ 8 }
    ensures { result.items ≡ map extent_of opens.now }
{
    let mut extents = ArrayVec::new();
    for one in opens {
        extents.push(one.extent());
    }
    extents
}

/// Cuts each link back to its extent.
fn cut_all_back(opens: &mut Vec<Open>, extents: &[Extent])
    requires { length extents.now ≡ length opens.old.items }
    ensures items { opens.new.items ≡ all_cut_back extents.now opens.old.items }
    ensures count { length opens.new.items ≡ length opens.old.items }
{
    for place in 0..extents.len() {
        opens[place].cut_back(extents[place]);
    }
}

/// Hears a happening on each link that it is of.
fn grow_all(opens: &mut Vec<Open>, extents: &[Extent], what: &What) -> Result<(), NoMemory>
    requires room { All (HasRoom what.now) opens.old.items }
    requires extents { extents.now ≡ map extent_of opens.old.items }
    ensures ok { OnOk result (opens.new.items ≡ map (grow_by what.now) opens.old.items) }
    ensures err { OnErr result (opens.new.items ≡ opens.old.items) }
    ensures count { length opens.new.items ≡ length opens.old.items }
{
    for place in 0..opens.len() {
        if let Err(refused) = opens[place].grow(what) {
            cut_all_back(opens, extents);
            return Err(refused);
        }
    }
    Ok(())
}

/// Hears a happening on each of these links that it is of. It answers the extents before it.
fn grow_links(links: &mut Links, what: &What) -> Result<ArrayVec<Extent, 8>, NoMemory>
    requires { All (HasRoom what.now) links.old.opens.items }
    ensures ok { OnOk result (links.new.opens.items
        ≡ map (grow_by what.now) links.old.opens.items) }
    ensures extents { IfOk result (λ e. e.items ≡ map extent_of links.old.opens.items) }
    ensures err { OnErr result (links.new.opens.items ≡ links.old.opens.items) }
{
    let extents = extents_of(links.opens.as_slice());
    grow_all(&mut links.opens, extents.as_slice(), what)?;
    links.alike = links.alike && stay_alike(links.opens.as_slice(), extents.as_slice());
    Ok(extents)
}

/// Cuts each of these links back to its extent. They are alike again where they were.
fn cut_links_back(links: &mut Links, extents: &[Extent])
    requires { length extents.now ≡ length links.old.opens.items }
    ensures { links.new.opens.items ≡ all_cut_back extents.now links.old.opens.items }
{
    cut_all_back(&mut links.opens, extents);
    links.alike = are_fronts(links.opens.as_slice());
}

/// Hears a happening in place. It answers the extents before it, by which it is undone.
pub fn grow_front(front: &mut Front, what: &What) -> Result<Extents, NoMemory>
    requires asking { All (HasRoom what.now) front.old.asking.opens.items }
    requires answering { All (HasRoom what.now) front.old.answering.opens.items }
    ensures ok { OnOk result (seen_front front.new
        ≡ grow_front_by what.now (seen_front front.old)) }
    ensures asked { IfOk result
        (λ e. e.asking.items ≡ map extent_of front.old.asking.opens.items) }
    ensures answered { IfOk result (λ e. e.answering.items
        ≡ map extent_of front.old.answering.opens.items) }
    ensures err { OnErr result (seen_front front.new ≡ seen_front front.old) }
{
    let asking = grow_links(&mut front.asking, what)?;
    match grow_links(&mut front.answering, what) {
        Ok(answering) => Ok(Extents { asking, answering }),
        Err(refused) => {
            cut_links_back(&mut front.asking, asking.as_slice());
            Err(refused)
        }
    }
}

/// Undoes what was heard since these were the extents.
pub fn cut_front_back(front: &mut Front, extents: &Extents)
    requires asking { length extents.now.asking.items ≡ length front.old.asking.opens.items }
    requires answering { length extents.now.answering.items
        ≡ length front.old.answering.opens.items }
    ensures phase { front.new.phase ≡ front.old.phase }
    ensures asking { front.new.asking.opens.items
        ≡ all_cut_back extents.now.asking.items front.old.asking.opens.items }
    ensures answering { front.new.answering.opens.items
        ≡ all_cut_back extents.now.answering.items front.old.answering.opens.items }
{
    cut_links_back(&mut front.asking, extents.asking.as_slice());
    cut_links_back(&mut front.answering, extents.answering.as_slice());
}
