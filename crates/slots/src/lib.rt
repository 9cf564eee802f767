// The messages under way: 96 slots, each empty or holding one message, and whether they are within
// their limits.
#![tactic(auto)]

ghost use Rattle.std.specs.Prelude.{◌≡◌};
ghost use Rattle.slots.specs.Slots.{content_ok, slots_ok, no_messages};

use message::{Message, Numbers, Sizes};

// How many slots a cell has.
pub const SLOTS: usize = 96;

// One of the places for a message under way.
#[derive(Clone, Copy)]
pub struct Slot {
    pub content: Option<Message>,
}

// Whether writing to its target refuses nothing in the message that a slot holds, if it holds one.
#[tactic(auto, unfolding(crate::specs::Slots::content_ok), using(base::proofs::Answers::ok_done))]
fn content_ok(z: Sizes, c: Option<Message>) -> bool
    ensures { result ≡ content_ok z c }
{
    c.is_none_or(|m| message::fault(z, Numbers::from(m)).is_ok())
}

// The slots of a cell that opens.
pub fn no_messages() -> [Slot; 96]
    ensures { result ≡ no_messages }
{
    [Slot { content: None }; 96]
}

// Whether every slot is within its limits.
pub fn slots_ok(z: Sizes, slots: &[Slot; 96]) -> bool
    ensures { result ≡ slots_ok z slots.now }
{
    slots.iter().all(|s| content_ok(z, s.content))
}
