// The refusals of documents 01 and 02, each with its number, and a refusal of bytes with its
// offset. specs/ and proofs/ hold what every crate cites.
#![tactic(auto)]

ghost use Rattle.std.specs.Prelude.{◌≡◌};
ghost use Rattle.base.specs.Answers.{refusal_number, answer_of};

// Why something is refused.
#[derive(Clone, Copy, PartialEq, Eq)]
pub enum Refusal {
    // n, T or S, or a value of a cell or host, is past its limits
    Cell = 1,
    // bytes end before what is read
    Cut = 2,
    // a kind that is none, or not allowed there
    Kind = 3,
    // a length field that is too long
    Length = 4,
    // a host number of n or more
    Host = 5,
    // a tick or end above its limit
    Tick = 6,
    // the sender, or a response's target or a host of its receivers, is not the ballot's host; or
    // a message is handed to another host than its target
    Party = 7,
    // lent bytes are too few for what is written
    Room = 8,
    // the host waits after a restart
    Waiting = 9,
    // the clock is not above the last ballot's tick
    SameTick = 10,
    // a duration of 0, or above T - S
    Duration = 11,
    // a slot that is none, or is empty
    Slot = 12,
    // fewer empty slots than messages to send
    Full = 13,
    // two clocks would differ by more than S
    Spread = 14,
    // an advance by 0, or past the last tick
    Clock = 15,
    // a run file that is too long
    Long = 16,
    // a length field that is too short
    Short = 17,
    // the host does not name itself
    NotHolder = 18,
}

impl Refusal {
    // Its number, which is not 0.
    // A method and no `From`: its contract is the definition that all others cite.
    #[tactic(auto, unfolding(crate::specs::Answers::refusal_number))]
    pub fn number(self) -> u8
        ensures { result ≡ refusal_number self }
    {
        self as u8
    }
}

// The number of an answer: 0 for what is done, else the refusal's.
// A function and no `From`: Result is not of this crate.
#[tactic(auto, unfolding(crate::specs::Answers::answer_of))]
pub fn answer_of<T: Copy>(r: Result<T, Refusal>) -> u8
    ensures { result ≡ answer_of r }
{
    match r {
        Ok(_) => DONE,
        Err(refusal) => refusal.number(),
    }
}

// A refusal of bytes, and the offset of what is refused.
#[derive(Clone, Copy, PartialEq, Eq)]
pub struct Fault {
    pub refusal: Refusal,
    pub at: usize,
}

// The number of what is done.
// Lines of a listing and C hosts have answers as numbers, and 0 is no refusal: so no variant.
pub const DONE: u8 = 0;
