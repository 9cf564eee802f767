// The cell as a value: nine places for hosts, and the messages under way in 96 slots. Its limits,
// and opening; what each event does to it is defined here (specs/Events.antt), and carried out by
// the crate `run`.
#![tactic(auto, unfolding(
// answers
base::specs::Answers::answer_of, base::specs::Answers::refusal_number,
// lists of tests, and of refusals
base::specs::Lists::all_of, base::specs::Refusals::first_of,
// the limits of opening
message::specs::Message::last_tick, state::specs::StateLimits::settings_ok,
// and what refuses it
crate::specs::Events::opening_refusal,
// and what it sets
crate::specs::Events::opened_with,
// limits of a cell
crate::specs::CellLimits::cell_ok),
// what the limits tell of the settings
using(state::proofs::StateLimits::settings_in))]

ghost use Rattle.std.specs.Prelude.{◌≡◌, ◌≤◌};
ghost use Rattle.base.specs.Answers.{answer_of};
ghost use Rattle.message.specs.Message.{last_tick};
ghost use Rattle.cell.specs.CellLimits.{cell_ok};
ghost use Rattle.cell.specs.Answered.{told};
ghost use Rattle.cell.specs.Events.{opened_with, opening_refusal, opening_of};

use base::Refusal;
use host::Host;
use message::LAST_TICK;
use slots::Slot;
use state::Settings;

// The settings of the cell that a refused opening hands back.
const LEAST: Settings = Settings {
    n: 1,
    longest: 1,
    spread: 0,
};

// Places at n or above hold the blank host.
// Nine places and no heap: `places_ok` holds those at n or above blank.
#[derive(Clone, Copy)]
pub struct Cell {
    pub settings: Settings,
    pub hosts: [Host; 9],
    pub slots: [Slot; 96],
}

// The eight events: ticks to advance by, a host's number, a duration, a slot's number.
#[derive(Clone, Copy)]
pub enum Event {
    AdvanceAll(u64),
    AdvanceOne(u8, u64),
    Start(u8, u32),
    Deliver(u8),
    Lose(u8),
    Repeat(u8),
    Restart(u8),
    Release(u8),
}

// What opening or an event gives: how many slots were looked at to place what was sent, or why it
// is refused; and the cell, which the next event is handed.
// The cell stands beside: `opening_of` and `event_of` have one on a refusal too.
#[derive(Clone, Copy)]
pub struct Answered {
    pub answer: Result<usize, Refusal>,
    pub cell: Cell,
}

impl Cell {
    // The cell that opens with these settings, every clock at this tick.
    fn opened_with(settings: Settings, clock: u64) -> Cell
        requires { clock ≤ last_tick }
        ensures { result ≡ opened_with settings clock }
    {
        Cell {
            settings,
            hosts: places::new_hosts(settings, clock),
            slots: slots::no_messages(),
        }
    }

    // Whether the cell is within its limits: settings, places, states, clocks, slots.
    pub fn within_limits(&self) -> bool
        ensures { result ≡ cell_ok self.now }
    {
        let s = self.settings;
        state::settings_ok(s)
            && places::places_ok(s, &self.hosts)
            && places::states_ok(s, &self.hosts)
            && places::clocks_ok(s, &self.hosts)
            && slots::slots_ok(state::sizes_of(s), &self.slots)
    }
}

// Whether a cell may open: 1, 6 where not.
fn may_open(s: Settings, clock: u64) -> Result<(), Refusal>
    ensures { answer_of result ≡ opening_refusal s clock }
{
    if !state::settings_ok(s) {
        return Err(Refusal::Cell);
    }
    if LAST_TICK < clock {
        return Err(Refusal::Tick);
    }
    Ok(())
}

// Opening, which looks at no slot. A refused one hands back the least cell.
pub fn open(s: Settings, clock: u64) -> Answered
    ensures { told result ≡ opening_of s clock }
{
    match may_open(s, clock) {
        Ok(()) => Answered {
            answer: Ok(0),
            cell: Cell::opened_with(s, clock),
        },
        Err(refusal) => Answered {
            answer: Err(refusal),
            cell: Cell::opened_with(LEAST, 0),
        },
    }
}
