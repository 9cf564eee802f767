// The walk that places, over which of the slots are free: which slots are to be filled, and for
// whom, or that there is no room. It stores nothing but what it found.
#![tactic(auto, unfolding(
// slots
slots::specs::Slots::is_empty,
// which of them are taken
crate::specs::Parts::eight_taken, crate::specs::Parts::taken_from,
// and the next that is not
crate::specs::Parts::NextFree, crate::specs::Parts::with_freed),
// where it is
using(crate::proofs::Laws::passed_first,
// or where a freed one is
crate::proofs::Laws::freed_first, crate::proofs::Laws::freed_later))]

ghost use Rattle.std.specs.Prelude.{◌≡◌, ◌<◌, ◌≤◌, length, take};
ghost use Rattle.placing.specs.Parts.{Frees, Passed, NextFree, Outcome};
ghost use Rattle.placing.specs.Parts.{eight_taken, with_freed, pushed, nothing_placed};

use base::Refusal;
use slots::{SLOTS, Slot};

// A slot that is to be filled, and the host that the message there is for.
#[derive(Clone, Copy)]
pub struct Fill {
    pub slot: usize,
    pub host: u8,
}

// The slots that are to be filled, and how many were looked at to find them. A vector of fixed room
// would store its length, and read it again, for each slot: `place` counts in a local.
#[derive(Clone, Copy)]
pub struct Placed {
    pub fills: [Fill; 9],
    pub count: usize,
    pub looked: usize,
}

// Which of these slots are free.
pub fn free_of(slots: &[Slot; 96]) -> [bool; 96]
    ensures { Frees slots.now result }
{
    slots.map(|slot| slot.content.is_none())
}

// Whether there are eight slots from one on, and none of them is free. By `|`, which reads all of
// them at once: one by one, as `contains` asks, 13 with every slot in use took 1.1 of the model,
// above the mark of 1.0 of perf/events (docs/PERFORMANCE.md).
fn eight_taken(free: &[bool; 96], j: usize) -> bool
    requires { j ≤ 96 }
    ensures { result ≡ eight_taken free.now j }
{
    j + 8 <= SLOTS
        && !(free[j]
            | free[j + 1]
            | free[j + 2]
            | free[j + 3]
            | free[j + 4]
            | free[j + 5]
            | free[j + 6]
            | free[j + 7])
}

// From one slot on past those that are taken, eight at a time: a `while`, since where it ends is
// asked for, and not an element.
fn past_eights(free: &[bool; 96], from: usize) -> usize
    requires { from ≤ 96 }
    ensures { Passed free.now from result }
{
    let mut j = from;
    while eight_taken(free, j) {
        j += 8;
    }
    j
}

// The first slot from one on that is free. Most often it is that one.
fn next_free(free: &[bool; 96], from: usize) -> Option<usize>
    requires { from ≤ 96 }
    ensures { NextFree free.now from result }
{
    if from < SLOTS && free[from] {
        return Some(from);
    }
    (past_eights(free, from)..SLOTS).find(|&j| free[j])
}

// The same where a slot may be freed: that one, where the walk meets it first.
fn next_or_freed(free: &[bool; 96], freed: Option<usize>, from: usize) -> Option<usize>
    requires { from ≤ 96 }
    ensures { NextFree (with_freed freed free.now) from result }
{
    let at = next_free(free, from);
    match freed {
        Some(i) if from <= i && i < at.unwrap_or(SLOTS) => freed,
        _ => at,
    }
}

impl Placed {
    // Nothing to be filled.
    pub fn nothing() -> Placed
        ensures { result ≡ nothing_placed }
    {
        Placed {
            fills: [Fill { slot: 0, host: 0 }; 9],
            count: 0,
            looked: 0,
        }
    }

    // The slots to be filled, in their order.
    pub fn fills(&self) -> &[Fill]
        requires { self.now.count ≤ 9 }
        ensures those { result.now ≡ take self.now.count self.now.fills }
        ensures many { length result.now ≡ self.now.count }
    {
        &self.fills[..self.count]
    }

    // Where what an event sends is to go, for each receiver the lowest free slot; 13 without room.
    // One walk, which goes on from the slot just found. A slot that the event frees is free for it.
    // It goes from receiver to receiver by `next_in`, as its law is told: a `for` over all hosts
    // would ask of each whether it is one.
    pub fn place(
        &mut self,
        free: &[bool; 96],
        freed: Option<usize>,
        receivers: u16,
        n: u8,
    ) -> Result<(), Refusal>
        requires { n ≤ 9 }
        ensures { Outcome (with_freed freed free.now) receivers n result self.new }
    {
        let mut h = quorum::next_in(receivers, 0, n);
        let mut j = 0;
        // Counted apart: the count of the struct is stored and read again for each slot.
        let mut k = 0;
        while h < n {
            let Some(at) = next_or_freed(free, freed, j) else {
                self.looked = SLOTS;
                self.count = 0;
                return Err(Refusal::Full);
            };
            self.fills[k] = Fill { slot: at, host: h };
            k += 1;
            j = at + 1;
            h = quorum::next_in(receivers, h + 1, n);
        }
        self.looked = j;
        self.count = k;
        Ok(())
    }
}
