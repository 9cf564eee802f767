// The leaf rules of a host: what is promised, accepted, kept, proposed, named and dropped, and when
// a round acts. Each is one sentence of document 01 or 02, as a free function on small values; the
// host's methods only put them together. What is asked of a clock, a tick or a sender stands in
// `requires`: the fields of the host struct that document 01 names are plain numbers.
#![tactic(auto, unfolding(
// last ticks and ends
message::specs::Message::last_tick, message::specs::Message::last_end,
// time and restart
crate::specs::Rules::wait_end, crate::specs::Rules::accepted_at, crate::specs::Rules::named_at,
// ballots and promises
crate::specs::Rules::is_fresh, crate::specs::Rules::may_promise, crate::specs::Rules::is_forbidden,
// proposals
crate::specs::Rules::may_accept, crate::specs::Rules::after_accept,
// replies
crate::specs::Rules::has_ended, crate::specs::Rules::higher_of,
// and what is made of them
crate::specs::Rules::kept_after, crate::specs::Rules::acts_on,
// what is proposed
crate::specs::Rules::value_to_propose,
// names
crate::specs::Rules::named_by, crate::specs::Rules::may_learn, crate::specs::Rules::names_itself,
// releases
crate::specs::Rules::takes_release, crate::specs::Rules::is_freed, crate::specs::Rules::freed,
// and what they leave
crate::specs::Rules::after_release))]

ghost use Rattle.std.specs.Prelude.{◌≡◌, ◌<◌, ◌≤◌, ◌^◌};
ghost use Rattle.message.specs.Message.{last_tick};
ghost use Rattle.rules.specs.Rules.{may_promise, is_forbidden, may_accept, accepted_at, named_at};
ghost use Rattle.rules.specs.Rules.{has_ended, wait_end, ballot_at, is_fresh, counts_reply};
ghost use Rattle.rules.specs.Rules.{higher_of, kept_after, own_end, value_to_propose, acts_on};
ghost use Rattle.rules.specs.Rules.{is_namable, named_by, after_accept, is_waiting, may_learn};
ghost use Rattle.rules.specs.Rules.{names_itself, takes_release, is_freed, freed, after_release};

use message::{Ballot, Head, HoldersEnd, KeepersEnd, LearnedLease, Lease, LeaseUntil};

// The holder that `named_by` and `named_at` speak of: it is `message`'s, by this crate's name too.
pub use message::Holder;

// The owner and the end of a lease to propose: in the field's word the value of a proposal.
#[derive(Clone, Copy)]
pub struct Value {
    pub owner: u8,
    pub end: KeepersEnd,
}

// What an acceptor keeps: the promised ballot, and the accepted lease.
#[derive(Clone, Copy)]
pub struct Vote {
    pub promised: Option<Ballot>,
    pub accepted: Option<Lease>,
}

// Whether a host is still waiting after a restart.
pub fn is_waiting(clock: u64, wait: u64) -> bool
    ensures { result ≡ is_waiting clock wait }
{
    clock < wait
}

// Until when a host waits after a restart.
pub fn wait_end(clock: u64, longest: u32, spread: u32) -> u64
    requires { clock ≤ last_tick }
    ensures { result ≡ wait_end clock longest spread }
{
    clock + u64::from(longest) + u64::from(spread)
}

// The accepted lease, unless its end has come.
pub fn accepted_at(clock: u64, a: Option<Lease>) -> Option<Lease>
    ensures { result ≡ accepted_at clock a }
{
    a.filter(|l| clock < l.end.0)
}

// The named holder, unless its end has come. A line for each of the two ends: a trait of ends would
// be longer, and wrong builds of one alone are refused (`holder_named_at_end_equal_to_clock`).
pub fn named_at(clock: u64, m: Option<Holder>) -> Option<Holder>
    ensures { result ≡ named_at clock m }
{
    m.filter(|h| clock < h.end.0)
}

// The ballot of a start.
pub fn ballot_at(clock: u64, number: u8) -> Ballot
    ensures { result ≡ ballot_at clock number }
{
    Ballot {
        tick: clock,
        host: number,
    }
}

// Whether a clock is above the last ballot's tick.
pub fn is_fresh(last: Option<u64>, clock: u64) -> bool
    ensures { result ≡ is_fresh last clock }
{
    last.is_none_or(|t| t < clock)
}

// Whether a prepare request is promised.
pub fn may_promise(p: Option<Ballot>, ballot: Ballot) -> bool
    ensures { result ≡ may_promise p ballot }
{
    p.is_none_or(|b| ballot.is_above(b))
}

// Whether a ballot is below the promise.
pub fn is_forbidden(p: Option<Ballot>, ballot: Ballot) -> bool
    ensures { result ≡ is_forbidden p ballot }
{
    p.is_some_and(|b| b.is_above(ballot))
}

// Whether a propose request is accepted.
pub fn may_accept(p: Option<Ballot>, clock: u64, lease: Lease) -> bool
    ensures { result ≡ may_accept p clock lease }
{
    clock < lease.end.0 && !is_forbidden(p, lease.ballot)
}

// What an acceptor keeps of a proposal that it accepts.
pub fn after_accept(lease: Lease) -> Vote
    ensures { result ≡ after_accept lease }
{
    Vote {
        promised: Some(lease.ballot),
        accepted: Some(lease),
    }
}

// Whether a reply carries a lease whose end has come.
fn has_ended(clock: u64, a: Option<Lease>) -> bool
    ensures { result ≡ has_ended clock a }
{
    a.is_some_and(|l| l.end.0 <= clock)
}

// Whether a reply from this host counts: the set with it is another, as it was not counted yet.
pub fn counts_reply(replied: u16, sender: u8) -> bool
    requires { sender < 16 }
    ensures { result ≡ counts_reply replied sender }
{
    quorum::with_host(replied, sender) != replied
}

// The reply with the highest accepted ballot, the earlier one at a tie.
fn higher_of(kept: Option<Lease>, reply: Option<Lease>) -> Option<Lease>
    ensures { result ≡ higher_of kept reply }
{
    match (kept, reply) {
        (None, _) => reply,
        (Some(_), None) => kept,
        (Some(a), Some(b)) => {
            if b.ballot.is_above(a.ballot) {
                reply
            } else {
                kept
            }
        }
    }
}

// What a round keeps after one more reply: one whose lease has ended counts as empty.
pub fn kept_after(clock: u64, kept: Option<Lease>, reply: Option<Lease>) -> Option<Lease>
    ensures { result ≡ kept_after clock kept reply }
{
    if has_ended(clock, reply) {
        return kept;
    }
    higher_of(kept, reply)
}

// Whether a round acts: the reply made the set a majority, and it was none before.
pub fn acts_on(n: u8, before: u16, after: u16) -> bool
    ensures { result ≡ acts_on n before after }
{
    !quorum::is_majority(n, before) && quorum::is_majority(n, after)
}

// The end of a lease of one's own.
pub fn own_end(tick: u64, duration: u32, spread: u32) -> KeepersEnd
    requires { (tick ≤ last_tick) × (duration ≤ 2 ^ 31) }
    ensures { result ≡ own_end tick duration spread }
{
    HoldersEnd(tick + u64::from(duration)).to_keepers(spread)
}

// The lease to propose once a majority replied: own is the end that one's own lease would have.
pub fn value_to_propose(number: u8, clock: u64, own: KeepersEnd, kept: Option<Lease>) -> Value
    ensures { result ≡ value_to_propose number clock own kept }
{
    let mine = Value {
        owner: number,
        end: own,
    };
    let Some(l) = kept else {
        return mine;
    };
    if l.end.0 <= clock {
        return mine;
    }
    if l.owner == number && l.end.0 <= own.0 {
        return mine;
    }
    Value {
        owner: l.owner,
        end: l.end,
    }
}

// Whether a chosen lease is named: its keepers' end is above clock + S.
pub fn is_namable(clock: u64, spread: u32, end: KeepersEnd) -> bool
    requires { clock ≤ last_tick }
    ensures { result ≡ is_namable clock spread end }
{
    clock + u64::from(spread) < end.0
}

// The named holder after naming: replaced only by a higher ballot.
pub fn named_by(m: Option<Holder>, holder: Holder) -> Option<Holder>
    ensures { result ≡ named_by m holder }
{
    match m {
        Some(h) if !holder.ballot.is_above(h.ballot) => m,
        _ => Some(holder),
    }
}

// Whether a learn message is taken: it names another host, and its end is to come.
pub fn may_learn(number: u8, clock: u64, m: LearnedLease) -> bool
    ensures { result ≡ may_learn number clock m }
{
    m.owner != number && clock < m.end.0
}

// Whether the named holder is the host itself.
pub fn names_itself(number: u8, m: Option<Holder>) -> bool
    ensures { result ≡ names_itself number m }
{
    m.is_some_and(|h| h.owner == number)
}

// Whether a release is taken: its ballot is not below the promise.
pub fn takes_release(p: Option<Ballot>, ballot: Ballot) -> bool
    ensures { result ≡ takes_release p ballot }
{
    !is_forbidden(p, ballot)
}

// Whether a release frees what has this owner and this ballot: the sender's, if it is lower.
fn is_freed(m: Head, owner: u8, ballot: Ballot) -> bool
    ensures { result ≡ is_freed m owner ballot }
{
    owner == m.sender && m.ballot.is_above(ballot)
}

// What is held, the accepted lease or the named holder, unless a release frees it.
pub fn freed<End: Copy>(m: Head, held: Option<LeaseUntil<End>>) -> Option<LeaseUntil<End>>
    ensures { result ≡ freed m held }
{
    held.filter(|l| !is_freed(m, l.owner, l.ballot))
}

// What an acceptor keeps after a release that it takes.
pub fn after_release(v: Vote, m: Head) -> Vote
    ensures { result ≡ after_release v m }
{
    Vote {
        promised: Some(m.ballot),
        accepted: freed(m, v.accepted),
    }
}
