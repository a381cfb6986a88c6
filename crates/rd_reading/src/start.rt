ghost use Rattle.std.specs.Prelude.{◌≡◌, ◌≤◌, [], ◌∷◌, List, ℕ, map, length, IfOk};
ghost use Rattle.rd_base.specs.Words.{below};
ghost use Rattle.rd_rules.specs.Exchange as rule;
ghost use Rattle.rd_reading.specs.Seen.{seen_front, rules_of};

use crate::exchange::Front;
use crate::links::Links;
use crate::opens::{Open, push_open};
use crate::setup::Setup;
use rd_base::{Link, NoMemory, Side};
use rd_dialect::Dialect;
use std::alloc::Global;

/// The front of a session of which nothing was heard.
pub fn start_front<D: Dialect>(alloc: Global, dialect: &D, setup: &Setup) -> Result<Front, NoMemory>
    requires some { 1 ≤ setup.now.limits.copies }
    requires few { setup.now.limits.copies ≤ 8 }
    ensures { IfOk result (λ f. seen_front f ≡ rule.start_front
        (rules_of (D.grammar dialect.now) setup.now) []) }
{
    let phase = dialect.first_phase();
    let single = single_open(alloc, setup.limits.copies)?;
    let copies = copy_opens(alloc, setup.limits.copies)?;
    match setup.side {
        Side::Incoming => Ok(Front {
            phase,
            asking: Links::of(single),
            answering: Links::of(copies),
        }),
        Side::Outgoing => Ok(Front {
            phase,
            asking: Links::of(copies),
            answering: Links::of(single),
        }),
    }
}

fn single_open(alloc: Global, link: u8) -> Result<Vec<Open>, NoMemory>
    ensures { IfOk result (λ v. v.items ≡ map (rule.open_of []) (link ∷ [])) }
{
    let mut opens = Vec::new(alloc);
    push_open(&mut opens, Open::new(alloc, Link(link)))?;
    Ok(opens)
}

fn copy_opens(alloc: Global, end: u8) -> Result<Vec<Open>, NoMemory>
    ensures opens { IfOk result (λ v. v.items ≡ map (rule.open_of []) (below end)) }
    ensures count { IfOk result (λ v. length v.items ≡ end) }
{
    let mut opens = Vec::new(alloc);
    for link in 0..end {
        push_open(&mut opens, Open::new(alloc, Link(link)))?;
    }
    Ok(opens)
}
