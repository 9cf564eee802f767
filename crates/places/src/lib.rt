// The nine places for hosts: whether what they hold is within its limits, their clocks as numbers
// and how far apart these are, and what opening leaves there.
// What is asked of a clock stands in `requires`: `Host::clock` is a plain number (document 01).
#![tactic(auto, unfolding(
// limits
message::specs::Message::last_tick, host::specs::Steps::last_wait, base::specs::Lists::all_of,
// of a place, and of the state at it
crate::specs::Places::place_ok, crate::specs::Places::state_at_ok,
// a host as opening sets it
crate::specs::Places::new_host,
// a clock of its own
crate::specs::Parts::clock_with))]

ghost use Rattle.std.specs.Prelude.{◌≡◌, ◌≤◌, ◌-◌, leb};
ghost use Rattle.message.specs.Message.{last_tick};
ghost use Rattle.places.specs.Places.{place_ok, state_at_ok, places_ok, states_ok, clocks_ok};
ghost use Rattle.places.specs.Places.{new_host, new_hosts};
ghost use Rattle.places.specs.Parts.{clock_with, clock_of, Mirrors};

use host::{Host, LAST_WAIT};
use message::LAST_TICK;
use state::{Settings, State};
use std::array;

// How many places for hosts a cell has: as many as a cell may have hosts.
pub const PLACES: usize = 9;

// Whether the number, the clock and the wait at place i are within their limits.
fn place_ok(s: Settings, i: usize, h: &Host) -> bool
    ensures { result ≡ place_ok s i h.now }
{
    if i < usize::from(s.n) {
        usize::from(h.number) == i && h.clock <= LAST_TICK && h.wait <= LAST_WAIT
    } else {
        h.number == 0 && h.clock == 0 && h.wait == 0
    }
}

// Whether the state at place i is within its limits.
fn state_at_ok(s: Settings, i: usize, t: State) -> bool
    ensures { result ≡ state_at_ok s i t }
{
    if i < usize::from(s.n) {
        state::state_ok(s, i as u8, t)
    } else {
        state::is_blank_state(t)
    }
}

// Whether every place is within its limits.
// `cell_ok` has places and states as two tests, and each is held by an edit of its own.
pub fn places_ok(s: Settings, hosts: &[Host; 9]) -> bool
    ensures { result ≡ places_ok s hosts.now }
{
    hosts.iter().enumerate().all(|(i, h)| place_ok(s, i, h))
}

// Whether every state is within its limits.
pub fn states_ok(s: Settings, hosts: &[Host; 9]) -> bool
    ensures { result ≡ states_ok s hosts.now }
{
    hosts
        .iter()
        .enumerate()
        .all(|(i, h)| state_at_ok(s, i, h.state))
}

// The clocks, as numbers that can be lent. No other contract says this, and by it an edit is
// refused (`wait_lent_as_the_clock`).
pub fn clocks_of(hosts: [Host; 9]) -> [u64; 9]
    ensures { Mirrors clock_of hosts result }
{
    hosts.map(|h| h.clock)
}

// The clock at place i, where the host at one place has a new clock. No other contract says this.
pub fn clock_with(i: usize, host: usize, moved: u64, clock: u64) -> u64
    ensures { result ≡ clock_with i host moved clock }
{
    if i == host { moved } else { clock }
}

// Whether the latest clock is at most S past the earliest.
pub fn spread_ok(s: Settings, low: u64, high: u64) -> bool
    ensures { result ≡ leb (high - low) s.spread }
{
    high.saturating_sub(low) <= u64::from(s.spread)
}

// Whether the clocks of the n hosts are at most S apart: the latest and the earliest are found in
// one walk.
pub fn clocks_ok(s: Settings, hosts: &[Host; 9]) -> bool
    requires { (1 ≤ s.n) × (s.n ≤ 9) }
    ensures { result ≡ clocks_ok s hosts.now }
{
    let mut low = hosts[0].clock;
    let mut high = low;
    for h in &hosts[1..s.n as usize] {
        low = low.min(h.clock);
        high = high.max(h.clock);
    }
    spread_ok(s, low, high)
}

// A host as opening sets it: one that waits as after a restart, or the blank one at n or above.
fn new_host(s: Settings, clock: u64, i: u8) -> Host
    requires { clock ≤ last_tick }
    ensures { result ≡ new_host s clock i }
{
    let blank = Host {
        number: 0,
        clock: 0,
        wait: 0,
        state: state::blank_state(),
    };
    if i < s.n {
        Host {
            number: i,
            clock,
            ..blank
        }
        .restarted_host(s)
    } else {
        blank
    }
}

// The hosts of a cell that opens.
pub fn new_hosts(s: Settings, clock: u64) -> [Host; 9]
    requires { clock ≤ last_tick }
    ensures { result ≡ new_hosts s clock }
{
    array::from_fn(|i| new_host(s, clock, i as u8))
}
