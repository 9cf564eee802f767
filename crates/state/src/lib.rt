// What a host keeps of one sheet, the settings of a cell, and whether their numbers are within
// document 01's limits (number 1); and what a restart, a clock and a release leave of a state.
#![tactic(auto, unfolding(
// lists of tests
base::specs::Lists::all_of,
// last ticks and ends
message::specs::Message::last_tick, message::specs::Message::last_end,
// settings
crate::specs::StateLimits::settings_ok, crate::specs::StateLimits::last_longest,
// a lease that is asked for
crate::specs::StateLimits::duration_ok,
// ballots and leases
crate::specs::StateLimits::ballot_ok, crate::specs::StateLimits::lease_ok,
// what an acceptor keeps
crate::specs::StateLimits::accepted_ok, crate::specs::StateLimits::promised_ok,
// what else a host keeps
crate::specs::StateLimits::last_ok, crate::specs::StateLimits::named_ok,
// rounds
crate::specs::StateLimits::asking_ok, crate::specs::StateLimits::proposing_ok,
// a state
crate::specs::StateLimits::round_ok, crate::specs::StateLimits::state_ok,
// a state that ages
crate::specs::Ageing::aged_at,
// a state after a release
crate::specs::Releasing::freed_by,
// the blank state
crate::specs::Blank::is_blank_state,
// promises and leases in it
crate::specs::Blank::no_promise, crate::specs::Blank::no_lease,
// and the rest of it
crate::specs::Blank::no_tick, crate::specs::Blank::no_round,
// and whom it names
crate::specs::Blank::no_holder))]

ghost use Rattle.std.specs.Prelude.{◌≡◌};
ghost use Rattle.state.specs.Ageing.{aged_at};
ghost use Rattle.state.specs.Releasing.{released_at, freed_by};
ghost use Rattle.state.specs.Blank.{blank_state, is_blank_state};
ghost use Rattle.state.specs.StateLimits.{sizes_of, settings_ok, ballot_ok, lease_ok, accepted_ok};
ghost use Rattle.state.specs.StateLimits.{promised_ok, last_ok, named_ok, asking_ok, proposing_ok};
ghost use Rattle.state.specs.StateLimits.{round_ok, state_ok, duration_ok};

use message::{Ballot, Head, Holder, KeepersEnd, LAST_END, LAST_TICK, Lease, Sizes};
use rules::Vote;

// The longest lease that a cell may be set to, 2^31 ticks.
pub const LAST_LONGEST: u32 = 2147483648;

// The settings of a cell: how many hosts, T, the longest lease, and S, the spread of clocks.
#[derive(Clone, Copy)]
pub struct Settings {
    pub n: u8,
    pub longest: u32,
    pub spread: u32,
}

// A round that asks for promises: the first phase of Paxos.
#[derive(Clone, Copy)]
pub struct Asking {
    pub ballot: Ballot,
    pub duration: u32,
    pub replied: u16,
    pub kept: Option<Lease>,
}

// A round that proposes: the second phase of Paxos.
#[derive(Clone, Copy)]
pub struct Proposing {
    pub ballot: Ballot,
    pub owner: u8,
    pub end: KeepersEnd,
    pub replied: u16,
}

// What a host is doing as proposer.
#[derive(Clone, Copy, Default)]
pub enum Round {
    #[default]
    Idle,
    Asking(Asking),
    Proposing(Proposing),
}

// All that a host keeps but its number, its clock and the end of its wait: the promised ballot, the
// accepted lease, the tick of its last ballot, its round, and the named holder. The first two are
// not one `Vote`: definitions in specs/ read either alone, as a field of the state.
#[derive(Clone, Copy, Default)]
pub struct State {
    pub promised: Option<Ballot>,
    pub accepted: Option<Lease>,
    pub last: Option<u64>,
    pub round: Round,
    pub named: Option<Holder>,
}

impl State {
    // A restart forgets everything.
    pub fn restarted(self) -> State
        ensures { result ≡ blank_state }
    {
        blank_state()
    }

    // The rise of a clock drops an accepted lease, or a named holder, whose end has come.
    pub fn aged_at(self, clock: u64) -> State
        ensures { result ≡ aged_at clock self }
    {
        State {
            accepted: rules::accepted_at(clock, self.accepted),
            named: rules::named_at(clock, self.named),
            ..self
        }
    }

    // Letting go takes a ballot of this tick, drops the round, and names nobody.
    pub fn released_at(self, clock: u64) -> State
        ensures { result ≡ released_at clock self }
    {
        State {
            last: Some(clock),
            round: Round::Idle,
            named: None,
            ..self
        }
    }

    // A release request that is taken is promised, and drops what its sender owns.
    pub fn freed_by(self, m: Head) -> State
        ensures { result ≡ freed_by m self }
    {
        let vote = Vote {
            promised: self.promised,
            accepted: self.accepted,
        };
        let Vote { promised, accepted } = rules::after_release(vote, m);
        State {
            promised,
            accepted,
            named: rules::freed(m, self.named),
            ..self
        }
    }
}

// What whoever reads or writes a cell's frames is handed.
// A function and no `From`: contracts cite it by the definition of its name.
pub fn sizes_of(s: Settings) -> Sizes
    ensures { result ≡ sizes_of s }
{
    Sizes { n: s.n }
}

// ---- the blank state

// The state after opening or a restart: everything is none.
pub fn blank_state() -> State
    ensures { result ≡ blank_state }
{
    State::default()
}

// Whether everything is none. Each part is asked by itself: `==` would need rounds and leases to be
// compared, for a test that only asks whether they are there.
pub fn is_blank_state(t: State) -> bool
    ensures { result ≡ is_blank_state t }
{
    t.promised.is_none()
        && t.accepted.is_none()
        && t.last.is_none()
        && matches!(t.round, Round::Idle)
        && t.named.is_none()
}

// ---- limits

// Whether n, T and S are in their ranges: 1 where not.
pub fn settings_ok(s: Settings) -> bool
    ensures { result ≡ settings_ok s }
{
    quorum::cell_fits(s.n) && (1..=LAST_LONGEST).contains(&s.longest) && s.spread < s.longest
}

// Whether a lease of this duration, with the spread of clocks, is no longer than the longest.
pub fn duration_ok(s: Settings, duration: u32) -> bool
    ensures { result ≡ duration_ok s duration }
{
    u64::from(duration) + u64::from(s.spread) <= u64::from(s.longest)
}

// Whether a ballot's tick and host are within their limits.
pub fn ballot_ok(n: u8, b: Ballot) -> bool
    ensures { result ≡ ballot_ok n b }
{
    b.tick <= LAST_TICK && b.host < n
}

// A lease, or a holder, of this ballot, owner and end.
// Parts and no lease: the two leases have ends of two types, and a round that proposes has none.
pub fn lease_ok(n: u8, b: Ballot, owner: u8, end: u64) -> bool
    ensures { result ≡ lease_ok n b owner end }
{
    ballot_ok(n, b) && owner < n && end <= LAST_END
}

// Whether the accepted lease is, if there is one.
pub fn accepted_ok(n: u8, a: Option<Lease>) -> bool
    ensures { result ≡ accepted_ok n a }
{
    a.is_none_or(|l| lease_ok(n, l.ballot, l.owner, l.end.0))
}

// Whether the promised ballot is, if there is one.
pub fn promised_ok(n: u8, p: Option<Ballot>) -> bool
    ensures { result ≡ promised_ok n p }
{
    p.is_none_or(|b| ballot_ok(n, b))
}

// Whether the last ballot's tick is, if there is one.
pub fn last_ok(l: Option<u64>) -> bool
    ensures { result ≡ last_ok l }
{
    l.is_none_or(|t| t <= LAST_TICK)
}

// Whether the named holder is, if there is one: a line for each of the two ends.
pub fn named_ok(n: u8, m: Option<Holder>) -> bool
    ensures { result ≡ named_ok n m }
{
    m.is_none_or(|h| lease_ok(n, h.ballot, h.owner, h.end.0))
}

// Whether an asking round is within its limits, and its ballot is of this host.
pub fn asking_ok(s: Settings, number: u8, a: Asking) -> bool
    ensures { result ≡ asking_ok s number a }
{
    a.ballot.host == number
        && ballot_ok(s.n, a.ballot)
        && duration_ok(s, a.duration)
        && quorum::is_below(a.replied, s.n)
        && accepted_ok(s.n, a.kept)
}

// Whether a proposing round is within its limits, and its ballot is of this host.
pub fn proposing_ok(s: Settings, number: u8, p: Proposing) -> bool
    ensures { result ≡ proposing_ok s number p }
{
    p.ballot.host == number
        && lease_ok(s.n, p.ballot, p.owner, p.end.0)
        && quorum::is_below(p.replied, s.n)
}

// Whether a round is, an idle one always.
pub fn round_ok(s: Settings, number: u8, r: Round) -> bool
    ensures { result ≡ round_ok s number r }
{
    match r {
        Round::Idle => true,
        Round::Asking(a) => asking_ok(s, number, a),
        Round::Proposing(p) => proposing_ok(s, number, p),
    }
}

// Whether all that a host of this number keeps is within its limits.
pub fn state_ok(s: Settings, number: u8, t: State) -> bool
    ensures { result ≡ state_ok s number t }
{
    promised_ok(s.n, t.promised)
        && accepted_ok(s.n, t.accepted)
        && last_ok(t.last)
        && round_ok(s, number, t.round)
        && named_ok(s.n, t.named)
}
