ghost use Rattle.std.specs.Prelude.{◌≡◌, ℕ, ◌≤◌, List, [], ◌∷◌, ◌++◌, length, true, false, IfOk, IfErr, OnOk, OnErr, IfSome, IfNone, MatchResult, MatchOption};
ghost use Rattle.crossbeam_queue.specs.Passes.{view as sight, IsPassOf, ruled_capacity};
ghost use Rattle.rd_gate.specs.Gate.{Kept, Known, known, fresh, owner, reader, took, looked, nobody, pushed, named, joined, HoldsLast, WasFull, Whole};
ghost use Rattle.std.specs.Arc.{arc_value};
ghost use Rattle.rd_gate.specs.declared.item.Item.{Item};

use crate::item::Item;
use crossbeam_queue::protocol::{Join, Lesson, Outcome, Protocol, Split};
use crossbeam_queue::{Pass, RuledArrayQueue};
use rd_base::{Link, NoMemory};
use std::alloc::{AllocError, Global};
use std::collections::{LinkedList, VecDeque};
use std::marker::Model;
use std::sync::{Arc, Wait};
use std::thread;
use std::thread::Parker;
use std::time::Duration;

/// The items that a gate holds at most.
const CAPACITY: usize = 64;

/// How often a reader that finds the gate full yields before it sleeps.
const YIELDS: u32 = 64;

/// The milliseconds that it then sleeps between two tries.
const FULL_PAUSE: u64 = 1;

/// The milliseconds that an owner rests at most.
const LONGEST_REST: u64 = 50;

/// All that a link's reader pushed. No value of it is made.
pub struct Ended {
    pub link: u64,
    pub pushed: LinkedList<Item>,
}

/// What a pass knows. No value of it is made.
pub struct View {
    /// Whether it is the owner's.
    pub owns: bool,
    /// Of the owner: how many readers' passes were made.
    pub made: u64,
    /// Of the owner: the lists of readers that have ended.
    pub ended: LinkedList<Ended>,
    /// Of the owner: what it took, in order.
    pub taken: LinkedList<(u8, Item)>,
    /// Of the owner: how many items it had taken each time that it found the gate empty.
    pub looks: LinkedList<u64>,
    /// Whether it is a reader's.
    pub reads: bool,
    /// Of a reader: its link.
    pub link: u64,
    /// Of a reader: what it pushed, in order.
    pub pushed: LinkedList<Item>,
}

/// The rule: for each link, what was taken of it and what the queue holds of it is what its reader pushed.
pub struct InOrder;

impl Protocol<(u8, Item), View> for InOrder {
    ghost holds = { Kept };

    ghost first = { owner 0 [] [] [] };
}

struct Takes;

impl Outcome<(u8, Item), View> for Takes {
    ghost then = { λ v x w. w ≡ took v x };
}

impl Lesson<(u8, Item), View> for Takes {
    ghost fact = { Whole };
}

struct Pushes;

impl Outcome<(u8, Item), View> for Pushes {
    ghost then = { λ v x w. w ≡ pushed v x.1 };
}

impl Lesson<(u8, Item), View> for Pushes {
    ghost fact = { HoldsLast };
}

struct Names;

impl Split<View> for Names {
    ghost left = { named };

    ghost right = { λ v. reader v.made [] };
}

struct Looks;

impl Split<View> for Looks {
    ghost left = { λ v. v };

    ghost right = { λ _. nobody };
}

impl Join<View> for Looks {
    ghost both = { λ v _. looked v };

    ghost spent = { nobody };
}

struct TakesIn;

impl Join<View> for TakesIn {
    ghost both = { joined };

    ghost spent = { nobody };
}

type Queue = RuledArrayQueue<(u8, Item), View, InOrder>;

/// The owner's pass. To a contract it is its gate and what it knows.
#[derive(Drop)]
pub struct OwnerPass<R: Wait + Copy> {
    rt: R,
    queue: Arc<Queue, Global>,
    bell: Arc<Parker, Global>,
    pass: Pass<(u8, Item), View>,
    lasts: u8,
}

impl<R: Wait + Copy> Model for OwnerPass<R> {
    ghost Value = { Known };

    ghost view = { λ p. record { gate = p.pass.table_id; knows = sight p.pass } };

    ghost invariant = { λ p. IsPassOf (arc_value p.queue) p.pass × ((sight p.pass).owns ≡ true) × ((sight p.pass).reads ≡ false) × (ruled_capacity (arc_value p.queue) ≡ 64) };
}

/// A reader's pass. To a contract it is its gate and what it knows.
#[derive(Drop)]
pub struct ReaderPass<R: Wait + Copy> {
    rt: R,
    queue: Arc<Queue, Global>,
    bell: Arc<Parker, Global>,
    pass: Pass<(u8, Item), View>,
    link: Link,
    pause: Parker,
}

impl<R: Wait + Copy> Model for ReaderPass<R> {
    ghost Value = { Known };

    ghost view = { λ p. record { gate = p.pass.table_id; knows = sight p.pass } };

    ghost invariant = { λ p. IsPassOf (arc_value p.queue) p.pass × ((sight p.pass).reads ≡ true) × ((sight p.pass).owns ≡ false) × ((sight p.pass).link ≡ p.link.0) × (ruled_capacity (arc_value p.queue) ≡ 64) };
}

impl<R: Wait + Copy> ReaderPass<R> {
    /// Pushes the item. It comes back only where the gate was full at one moment of the call.
    pub fn push(&mut self, item: Item) -> Result<(), Item>
        ensures gate { self.new.gate ≡ self.old.gate }
        ensures pushed { OnOk result (self.new.knows ≡ pushed self.old.knows item) }
        ensures same { IfErr result (λ x. (x ≡ item) × (self.new.knows ≡ self.old.knows)) }
        ensures full { OnErr result (WasFull self.old.knows) }
    {
        let ReaderPass {
            rt,
            queue,
            bell,
            pass,
            link,
            pause: _,
        } = self;
        match queue.push_as::<Pushes, R>(rt, pass, (link.0, item)) {
            Ok(()) => {
                bell.unpark();
                Ok(())
            }
            Err((_, back)) => Err(back),
        }
    }

    /// Pushes the item, and tries again while the gate is full.
    pub fn send(&mut self, item: Item)
        ensures gate { self.new.gate ≡ self.old.gate }
        ensures pushed { self.new.knows ≡ pushed self.old.knows item }
    {
        let rt = self.rt;
        let mut item = item;
        let mut tries: u32 = 0;
        for _ in rt.forever() {
            match self.push(item) {
                Ok(()) => return,
                Err(back) => item = back,
            }
            self.wait_for_room(tries);
            tries = tries.saturating_add(1);
        }
        unreachable!()
    }

    // An owner that is slow, as one whose client doesn't read, is not to cost a processor for each reader.
    fn wait_for_room(&self, tries: u32) {
        if tries < YIELDS {
            thread::yield_now();
        } else {
            self.pause
                .park_timeout(&self.rt, Duration::from_millis(FULL_PAUSE));
        }
    }
}

impl<R: Wait + Copy> OwnerPass<R> {
    /// Takes the oldest item. None only where the gate was empty at one moment of the call.
    pub fn take(&mut self) -> Option<(Link, Item)>
        ensures gate { self.new.gate ≡ self.old.gate }
        ensures took { IfSome result (λ x. self.new.knows ≡ took self.old.knows (x.0.0, x.1)) }
        ensures looked { IfNone result (self.new.knows ≡ looked self.old.knows) }
        ensures empty { IfNone result (Whole self.old.knows []) }
    {
        let OwnerPass {
            rt,
            queue,
            bell: _,
            pass,
            lasts,
        } = self;
        match queue.pop_as::<Takes, R>(rt, pass) {
            Some((link, item)) => {
                if !item.is_piece() {
                    *lasts = lasts.saturating_add(1);
                }
                Some((Link(link), item))
            }
            None => {
                let spare = queue.another::<Looks>(pass);
                queue.absorb::<Looks>(pass, spare);
                None
            }
        }
    }

    /// How many items that are no pieces were taken, up to 255: the readers whose last item has come. It says when
    /// there is nothing more to wait for, and nothing is promised of it.
    pub fn lasts(&self) -> u8 {
        self.lasts
    }

    /// Waits until a reader pushes, or pushed since the last wait, and no longer than this time or 50 ms. It may come
    /// back for no reason.
    pub fn rest(&self, time: Duration) {
        let longest = Duration::from_millis(LONGEST_REST);
        self.bell.park_timeout(&self.rt, time.min(longest));
    }

    /// Takes in the pass of a reader that has ended, or was never started.
    pub fn take_in(&mut self, pass: ReaderPass<R>)
        requires { pass.gate ≡ self.old.gate }
        ensures gate { self.new.gate ≡ self.old.gate }
        ensures joined { self.new.knows ≡ joined self.old.knows pass.knows }
        ensures whole { (items : List (ℕ × Item)) × Whole self.new.knows items }
    {
        let ReaderPass {
            rt: _,
            queue: _,
            bell: _,
            pass: theirs,
            link: _,
            pause: _,
        } = pass;
        let OwnerPass {
            rt: _,
            queue,
            bell: _,
            pass: mine,
            lasts: _,
        } = self;
        queue.absorb::<TakesIn>(mine, theirs);
        queue.learn_as::<Takes>(mine);
    }
}

/// The readers' passes that are still to be handed out, in link order.
#[derive(Drop)]
pub struct Passes<R: Wait + Copy> {
    left: VecDeque<ReaderPass<R>>,
}

impl<R: Wait + Copy> Model for Passes<R> {
    ghost Value = { List Known };

    ghost view = { λ p. p.left.items };
}

impl<R: Wait + Copy> Passes<R> {
    /// `None` exactly where all are given.
    pub fn next(&mut self) -> Option<ReaderPass<R>>
        ensures { MatchOption result ((self.old ≡ []) × (self.new ≡ []))
            (λ x. self.old ≡ x ∷ self.new) }
    {
        self.left.pop_front()
    }

    fn add(&mut self, pass: ReaderPass<R>) -> Result<(), NoMemory>
        ensures { MatchResult result (λ _. self.new ≡ self.old ++ pass ∷ []) (λ _. Unit {0}) }
    {
        match self.left.push_back(pass) {
            Ok(()) => Ok(()),
            Err(_) => Err(NoMemory),
        }
    }
}

impl<R: Wait + Copy> OwnerPass<R> {
    // The next link's reader.
    fn reader(&mut self, link: u8) -> Result<ReaderPass<R>, NoMemory>
        requires { (self.old.knows.made ≡ link) }
        ensures gate { self.new.gate ≡ self.old.gate }
        ensures made { IfOk result
            (λ p. (self.new.knows ≡ named self.old.knows)
            × (p ≡ known self.old.gate (reader link []))) }
    {
        let OwnerPass {
            rt,
            queue,
            bell,
            pass,
            lasts: _,
        } = self;
        let Ok(ring) = Arc::try_clone(bell) else {
            return Err(NoMemory);
        };
        let Ok(theirs) = Arc::try_clone(queue) else {
            return Err(NoMemory);
        };
        let pass = queue.another::<Names>(pass);
        Ok(ReaderPass {
            rt: *rt,
            queue: theirs,
            bell: ring,
            pass,
            link: Link(link),
            pause: Parker::new(),
        })
    }
}

/// A queue of 64 items, its owner's pass, and a reader's pass for each link.
pub fn make_gate<R: Wait + Copy>(
    rt: R,
    alloc: Global,
    links: u8,
) -> Result<(OwnerPass<R>, Passes<R>), NoMemory>
    requires { (4 ≤ links) × (links ≤ 9) }
    ensures { IfOk result (λ r. (r.0.knows ≡ owner links [] [] [])
        × (r.1 ≡ fresh r.0.gate links)) }
{
    let Ok((queue, pass)) = Queue::ruled(alloc, CAPACITY) else {
        return Err(NoMemory);
    };
    let Ok(queue) = Arc::new(alloc, queue) else {
        return Err(NoMemory);
    };
    let Ok(bell) = Arc::new(alloc, Parker::new()) else {
        return Err(NoMemory);
    };
    let mut owner = OwnerPass {
        rt,
        queue,
        bell,
        pass,
        lasts: 0,
    };
    let mut passes = Passes {
        left: VecDeque::new(alloc),
    };
    for link in 0..links {
        passes.add(owner.reader(link)?)?;
    }
    Ok((owner, passes))
}
