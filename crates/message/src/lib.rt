// Ballots, the two ends of a lease, the seven messages, their kinds, and what is refused in a
// message: 5, 6 and 7.
#![tactic(auto, unfolding(
// lists of refusals
base::specs::Lists::all_of, base::specs::Refusals::first_of,
// answers
base::specs::Answers::answer_of, base::specs::Answers::refusal_number,
// limits
crate::specs::Message::last_tick, crate::specs::Message::last_end,
// ballots
crate::specs::Message::is_above,
// kinds
crate::specs::Message::known_kind, crate::specs::Message::is_response,
// messages and their numbers
crate::specs::Message::numbers_of, crate::specs::Message::message_of,
// another target
crate::specs::Message::addressed_to,
// faults of a message
crate::specs::Faults::party_fits, crate::specs::Faults::fault_of,
// and of one to a set
crate::specs::Faults::party_fits_to, crate::specs::Faults::fault_to))]

ghost use Rattle.std.specs.Prelude.{◌≡◌, ◌+◌, ◌-◌, ◌≤◌};
ghost use Rattle.base.specs.Refusals.{all_hold, answer_by};
ghost use Rattle.base.specs.Answers.{answer_of};
ghost use Rattle.message.specs.Message.{last_end, is_above, is_same, to_holders, to_keepers};
ghost use Rattle.message.specs.Message.{known_kind, is_response, head_with, numbers_with};
ghost use Rattle.message.specs.Message.{head_numbers};
ghost use Rattle.message.specs.Message.{numbers_of, head_of, message_of, with_target};
ghost use Rattle.message.specs.Message.{addressed_to, target_of};
ghost use Rattle.message.specs.Faults.{sizes_fit, host_tests, tick_tests, message_refusals};
ghost use Rattle.message.specs.Faults.{party_fits, party_fits_to, fault_of, fault_to};

use base::Refusal;

// What whoever reads or writes frames is handed: how many hosts the cell has.
#[derive(Clone, Copy)]
pub struct Sizes {
    pub n: u8,
}

// Whether a cell may have so many hosts: 1 where not.
pub fn sizes_fit(z: Sizes) -> bool
    ensures { result ≡ sizes_fit z }
{
    quorum::cell_fits(z.n)
}

// The last tick of a clock, 2^48.
pub const LAST_TICK: u64 = 281474976710656;

// The last end of a lease, 2^48 + 2^31.
pub const LAST_END: u64 = 281477124194304;

// Ordered by tick, then by host. The default, tick 0 and host 0, stands in the numbers of a message
// whose kind lacks a ballot.
#[derive(Clone, Copy, Default, PartialEq, Eq, PartialOrd, Ord)]
pub struct Ballot {
    pub tick: u64,
    pub host: u8,
}

// The two forward to the derived order and equality: what they promise is the definitions that the
// rules cite.
impl Ballot {
    // Whether this ballot is above another.
    pub fn is_above(self, other: Ballot) -> bool
        ensures { result ≡ is_above self other }
    {
        self > other
    }

    // Whether this is the other ballot.
    pub fn is_same(self, other: Ballot) -> bool
        ensures { result ≡ is_same self other }
    {
        self == other
    }
}

// The keepers' end of a lease: carried in proposals and held by acceptors.
#[derive(Clone, Copy)]
pub struct KeepersEnd(pub u64);

// The holder's end of a lease: carried in learn messages and held by whoever names the holder.
#[derive(Clone, Copy)]
pub struct HoldersEnd(pub u64);

impl KeepersEnd {
    // The holder's end of the same lease, S earlier.
    pub fn to_holders(self, spread: u32) -> HoldersEnd
        requires { spread ≤ self.0 }
        ensures { result ≡ to_holders self spread }
    {
        HoldersEnd(self.0 - u64::from(spread))
    }
}

impl HoldersEnd {
    // The keepers' end of the same lease, S later.
    pub fn to_keepers(self, spread: u32) -> KeepersEnd
        requires { self.0 ≤ last_end }
        ensures { result ≡ to_keepers self spread }
    {
        KeepersEnd(self.0 + u64::from(spread))
    }
}

// A lease with one of its two ends.
#[derive(Clone, Copy)]
pub struct LeaseUntil<End> {
    pub ballot: Ballot,
    pub owner: u8,
    pub end: End,
}

// A lease as acceptors hold it.
pub type Lease = LeaseUntil<KeepersEnd>;

// A lease as whoever names its holder has it.
pub type Holder = LeaseUntil<HoldersEnd>;

// What every message has.
#[derive(Clone, Copy)]
pub struct Head {
    pub sender: u8,
    pub target: u8,
    pub ballot: Ballot,
}

impl Head {
    // The numbers of a message of a kind that has no more than this.
    pub fn numbers(self, kind: u16) -> Numbers
        ensures { result ≡ head_numbers kind self }
    {
        Numbers {
            kind,
            sender: self.sender,
            target: self.target,
            ballot: self.ballot,
            accepted: Ballot::default(),
            owner: 0,
            keepers: KeepersEnd(0),
            holders: HoldersEnd(0),
        }
    }
}

// A prepare response that tells of an accepted lease.
#[derive(Clone, Copy)]
pub struct LeaseResponse {
    pub head: Head,
    pub accepted: Lease,
}

// A message that tells of a lease with one of its two ends; its ballot is the head's.
#[derive(Clone, Copy)]
pub struct LeaseMessage<End> {
    pub head: Head,
    pub owner: u8,
    pub end: End,
}

// A propose request: the lease that is to be accepted.
pub type Proposal = LeaseMessage<KeepersEnd>;

// A learn message: the lease that was chosen, as its holder has it.
pub type LearnedLease = LeaseMessage<HoldersEnd>;

// The seven messages, in the order of their kinds.
#[derive(Clone, Copy)]
pub enum Message {
    PrepareRequest(Head),
    PrepareResponseEmpty(Head),
    PrepareResponseLease(LeaseResponse),
    ProposeRequest(Proposal),
    ProposeResponse(Head),
    Learn(LearnedLease),
    ReleaseRequest(Head),
}

// The kinds of message by number.
// Why they are no enum stands at `Numbers`.
pub const PREPARE_REQUEST: u16 = 1;

pub const PREPARE_RESPONSE_EMPTY: u16 = 2;

pub const PREPARE_RESPONSE_LEASE: u16 = 3;

pub const PROPOSE_REQUEST: u16 = 4;

pub const PROPOSE_RESPONSE: u16 = 5;

pub const LEARN: u16 = 6;

pub const RELEASE_REQUEST: u16 = 7;

// Whether a number is a kind.
pub fn known_kind(kind: u16) -> bool
    ensures { result ≡ known_kind kind }
{
    (PREPARE_REQUEST..=RELEASE_REQUEST).contains(&kind)
}

// Whether a kind answers a request. A response's target is the ballot's host; of any other kind the
// sender is.
pub fn is_response(kind: u16) -> bool
    ensures { result ≡ is_response kind }
{
    matches!(
        kind,
        PREPARE_RESPONSE_EMPTY | PREPARE_RESPONSE_LEASE | PROPOSE_RESPONSE
    )
}

// A message as numbers: `From<Message>` gives 0 for those that the kind lacks, and the way back
// does not look at them. The kind is no enum: C hosts hand over any number (`lease_frame_write`),
// and `Message::from`, `is_response` and `party_fits` are of every one.
#[derive(Clone, Copy)]
pub struct Numbers {
    pub kind: u16,
    pub sender: u8,
    pub target: u8,
    pub ballot: Ballot,
    pub accepted: Ballot,
    pub owner: u8,
    pub keepers: KeepersEnd,
    pub holders: HoldersEnd,
}

impl From<Message> for Numbers {
    ghost from_gives = { λ m f. f ≡ numbers_of m };

    fn from(m: Message) -> Numbers
        ensures { result ≡ numbers_of m }
    {
        match m {
            Message::PrepareRequest(h) => h.numbers(PREPARE_REQUEST),
            Message::PrepareResponseEmpty(h) => h.numbers(PREPARE_RESPONSE_EMPTY),
            Message::PrepareResponseLease(r) => Numbers {
                accepted: r.accepted.ballot,
                owner: r.accepted.owner,
                keepers: r.accepted.end,
                ..r.head.numbers(PREPARE_RESPONSE_LEASE)
            },
            Message::ProposeRequest(p) => Numbers {
                owner: p.owner,
                keepers: p.end,
                ..p.head.numbers(PROPOSE_REQUEST)
            },
            Message::ProposeResponse(h) => h.numbers(PROPOSE_RESPONSE),
            Message::Learn(l) => Numbers {
                owner: l.owner,
                holders: l.end,
                ..l.head.numbers(LEARN)
            },
            Message::ReleaseRequest(h) => h.numbers(RELEASE_REQUEST),
        }
    }
}

// The head that numbers have.
impl From<Numbers> for Head {
    ghost from_gives = { λ f m. m ≡ head_of f };

    fn from(f: Numbers) -> Head
        ensures { result ≡ head_of f }
    {
        Head {
            sender: f.sender,
            target: f.target,
            ballot: f.ballot,
        }
    }
}

// The message that numbers of a kind are of. A number that is no kind is taken as a release
// request: callers have refused it before, by 3, and a `TryFrom` would refuse where this cannot.
impl From<Numbers> for Message {
    ghost from_gives = { λ f m. m ≡ message_of f };

    fn from(f: Numbers) -> Message
        ensures { result ≡ message_of f }
    {
        let head = Head::from(f);
        match f.kind {
            PREPARE_REQUEST => Message::PrepareRequest(head),
            PREPARE_RESPONSE_EMPTY => Message::PrepareResponseEmpty(head),
            PREPARE_RESPONSE_LEASE => Message::PrepareResponseLease(LeaseResponse {
                head,
                accepted: Lease {
                    ballot: f.accepted,
                    owner: f.owner,
                    end: f.keepers,
                },
            }),
            PROPOSE_REQUEST => Message::ProposeRequest(Proposal {
                head,
                owner: f.owner,
                end: f.keepers,
            }),
            PROPOSE_RESPONSE => Message::ProposeResponse(head),
            LEARN => Message::Learn(LearnedLease {
                head,
                owner: f.owner,
                end: f.holders,
            }),
            _ => Message::ReleaseRequest(head),
        }
    }
}

// The numbers of the same message to another target.
// A function: its definition is cited where frames to a set are told.
pub fn with_target(f: Numbers, target: u8) -> Numbers
    ensures { result ≡ with_target f target }
{
    Numbers { target, ..f }
}

// The same message to another target.
pub fn addressed_to(m: Message, host: u8) -> Message
    ensures { result ≡ addressed_to m host }
{
    Message::from(with_target(Numbers::from(m), host))
}

// The host that a message is addressed to.
// One field, whatever the kind, by the definition `target_of`.
pub fn target_of(m: Message) -> u8
    ensures { result ≡ target_of m }
{
    Numbers::from(m).target
}

// Whether every host number is below n, the target's test being handed in: 5 where not. With `&&`
// for `&`, here and in `ticks_fit`, reading kind 1 takes 1.31 of the hand-written time in
// perf/frames, above its mark of 1.2, where this takes 1.16.
// z and f are two, here and below: z is the cell's, and f a message's.
pub fn hosts_fit(z: Sizes, f: Numbers, target_ok: bool) -> bool
    ensures { result ≡ all_hold (host_tests z f target_ok) }
{
    (f.sender < z.n)
        & (target_ok & ((f.ballot.host < z.n) & ((f.accepted.host < z.n) & (f.owner < z.n))))
}

// Whether every tick and every end is within its limit: 6 where not.
pub fn ticks_fit(f: Numbers) -> bool
    ensures { result ≡ all_hold (tick_tests f) }
{
    (f.ballot.tick <= LAST_TICK)
        & ((f.accepted.tick <= LAST_TICK) & ((f.keepers.0 <= LAST_END) & (f.holders.0 <= LAST_END)))
}

// The first refusal that a message's numbers meet, given what was found of its target and of its
// party.
pub fn fault_with(z: Sizes, f: Numbers, target_ok: bool, party_ok: bool) -> Result<(), Refusal>
    ensures { answer_of result ≡ answer_by (message_refusals z f target_ok party_ok) }
{
    if !hosts_fit(z, f, target_ok) {
        return Err(Refusal::Host);
    }
    if !ticks_fit(f) {
        return Err(Refusal::Tick);
    }
    if !party_ok {
        return Err(Refusal::Party);
    }
    Ok(())
}

// Whether the sender, or a response's target, is the ballot's host. `party_fits_to` differs in the
// test of a response alone: handed that test's value, one function would be no shorter.
pub fn party_fits(f: Numbers) -> bool
    ensures { result ≡ party_fits f }
{
    if is_response(f.kind) {
        f.target == f.ballot.host
    } else {
        f.sender == f.ballot.host
    }
}

// What is refused in a message to its own target.
// What it shares with `fault_to` is `fault_with`.
pub fn fault(z: Sizes, f: Numbers) -> Result<(), Refusal>
    ensures { answer_of result ≡ fault_of z f }
{
    fault_with(z, f, f.target < z.n, party_fits(f))
}

// Whether the sender is the ballot's host, or a response's receivers are no host but that.
pub fn party_fits_to(f: Numbers, set: u16) -> bool
    ensures { result ≡ party_fits_to f set }
{
    if is_response(f.kind) {
        quorum::is_only(set, f.ballot.host)
    } else {
        f.sender == f.ballot.host
    }
}

// What is refused in a message to a set of receivers; its own target is not looked at.
pub fn fault_to(z: Sizes, f: Numbers, set: u16) -> Result<(), Refusal>
    ensures { answer_of result ≡ fault_to z f set }
{
    fault_with(z, f, quorum::is_below(set, z.n), party_fits_to(f, set))
}
