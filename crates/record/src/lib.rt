// The records of a run file: what stands at an offset of it, and where opening refuses the first.
// Slice and offset are two, as document 01 has it: `reader::Reader` keeps both over these.
#![tactic(auto)]

ghost use Rattle.std.specs.Prelude.{◌≡◌, ◌+◌, ◌≤◌, length};
ghost use Rattle.record.specs.Record.{kind_of, record_length, head_of};
ghost use Rattle.record.specs.Record.{values_at, event_with, record_at, first_record};
ghost use Rattle.record.specs.Record.{opening_offset};
ghost use Rattle.record.specs.Read.{numbered_record, numbered_first};
ghost use Rattle.record.specs.Parts.{kind_number, kind_read, allowed_kind, numbered_head};

use base::{Fault, Refusal};
use cell::Event;
use message::LAST_TICK;
use state::{LAST_LONGEST, Settings};
use std::cmp::Ordering;

// The file's end; the fault, its offset counted from the record's start; or an event and the offset
// of the next record. It has three cases, and document 01 has them taken apart by let .. else: the
// event goes on, the fault ends the run. The fault is told by a plain number, as a listing tells
// it: with a `Refusal` in it, `listing::put_end` and `run::play` would ask more of whoever calls.
#[derive(Clone, Copy)]
pub enum Record {
    End,
    Fault(u8, usize),
    Event(Event, usize),
}

// The kinds of records, by number.
#[derive(Clone, Copy)]
enum Kind {
    Settings = 100,
    AdvanceAll = 101,
    AdvanceOne = 102,
    Start = 103,
    Deliver = 104,
    Lose = 105,
    Repeat = 106,
    Restart = 107,
    Release = 108,
}

// After length and kind the settings have n, T, S and the opening clock.
const N_AT: usize = layout::FORE_LENGTH;

const LONGEST_AT: usize = N_AT + 1;

const SPREAD_AT: usize = LONGEST_AT + 4;

const CLOCK_AT: usize = SPREAD_AT + 4;

pub const SETTINGS_LENGTH: usize = CLOCK_AT + 8;

// An event has ticks; a host and ticks; or a host or a slot.
const FIELDS_AT: usize = layout::FORE_LENGTH;

const TICKS_AT: usize = FIELDS_AT + 1;

const TICKS_LENGTH: usize = FIELDS_AT + 4;

const HOST_TICKS_LENGTH: usize = TICKS_AT + 4;

const BYTE_LENGTH: usize = FIELDS_AT + 1;

impl From<Event> for Kind {
    ghost from_gives = { λ e k. kind_number k ≡ kind_of e };

    #[tactic(auto, unfolding(crate::specs::Record::kind_of))]
    fn from(e: Event) -> Kind {
        match e {
            Event::AdvanceAll(_) => Kind::AdvanceAll,
            Event::AdvanceOne(_, _) => Kind::AdvanceOne,
            Event::Start(_, _) => Kind::Start,
            Event::Deliver(_) => Kind::Deliver,
            Event::Lose(_) => Kind::Lose,
            Event::Repeat(_) => Kind::Repeat,
            Event::Restart(_) => Kind::Restart,
            Event::Release(_) => Kind::Release,
        }
    }
}

impl Kind {
    // The kind of this number, if it may stand there: settings first, and only there. A number
    // cannot be cast to an enum, so that each stands here and at its kind.
    fn allowed(first: bool, number: u16) -> Option<Kind>
        ensures { kind_read result ≡ allowed_kind first number }
    {
        match (first, number) {
            (true, 100) => Some(Kind::Settings),
            (false, 101) => Some(Kind::AdvanceAll),
            (false, 102) => Some(Kind::AdvanceOne),
            (false, 103) => Some(Kind::Start),
            (false, 104) => Some(Kind::Deliver),
            (false, 105) => Some(Kind::Lose),
            (false, 106) => Some(Kind::Repeat),
            (false, 107) => Some(Kind::Restart),
            (false, 108) => Some(Kind::Release),
            _ => None,
        }
    }

    // The length of its records.
    #[tactic(auto, unfolding(wire::specs::Wire::total))]
    fn length(self) -> usize
        ensures { result ≡ record_length (kind_number self) }
    {
        match self {
            Kind::Settings => SETTINGS_LENGTH,
            Kind::AdvanceAll => TICKS_LENGTH,
            Kind::AdvanceOne | Kind::Start => HOST_TICKS_LENGTH,
            _ => BYTE_LENGTH,
        }
    }
}

// The number of the kind of an event's record.
pub fn kind_of(e: Event) -> u16
    ensures { result ≡ kind_of e }
{
    Kind::from(e) as u16
}

// A fault at an offset of the record.
fn fault(refusal: Refusal, at: usize) -> Result<(Kind, usize), Fault>
    ensures { result ≡ Err (record { refusal = refusal; at = at }) }
{
    Err(Fault { refusal, at })
}

// The faults in the order 2 (under 4 bytes), 3, 17 or 4, 2.
// The flag is that of the definition `head_of`.
fn head_at(run: &[u8], at: usize, first: bool) -> Result<(Kind, usize), Fault>
    ensures { numbered_head result ≡ head_of first run.now at }
{
    let left = run.len().saturating_sub(at);
    if left < layout::FORE_LENGTH {
        return fault(Refusal::Cut, left);
    }
    let number = wire::get(run, at + layout::KIND_AT, 2) as u16;
    let Some(kind) = Kind::allowed(first, number) else {
        return fault(Refusal::Kind, layout::KIND_AT);
    };
    let len = kind.length();
    let told = wire::get(run, at + layout::LENGTH_AT, 2);
    match told.cmp(&(len as u64)) {
        Ordering::Less => fault(Refusal::Short, layout::LENGTH_AT),
        Ordering::Greater => fault(Refusal::Length, layout::LENGTH_AT),
        Ordering::Equal if left < len => fault(Refusal::Cut, left),
        Ordering::Equal => Ok((kind, at + len)),
    }
}

// The event of a whole record; settings, which are none, stand first only.
#[tactic(auto, unfolding(wire::specs::Wire::total, wire::specs::Wire::numbers_at))]
fn event_at(run: &[u8], at: usize, kind: Kind) -> Event
    requires { at + record_length (kind_number kind) ≤ length run.now }
    ensures { result ≡ event_with (kind_number kind)
        (values_at run.now at (kind_number kind)) }
{
    let first = wire::byte(run, at + FIELDS_AT);
    match kind {
        Kind::AdvanceAll => Event::AdvanceAll(wire::get(run, at + FIELDS_AT, 4)),
        Kind::AdvanceOne => Event::AdvanceOne(first, wire::get(run, at + TICKS_AT, 4)),
        Kind::Start => Event::Start(first, wire::get(run, at + TICKS_AT, 4) as u32),
        Kind::Deliver => Event::Deliver(first),
        Kind::Lose => Event::Lose(first),
        Kind::Repeat => Event::Repeat(first),
        Kind::Restart => Event::Restart(first),
        Kind::Release | Kind::Settings => Event::Release(first),
    }
}

// What stands at an offset after the settings.
#[tactic(auto, unfolding(crate::specs::Record::record_at))]
pub fn record_at(run: &[u8], at: usize) -> Record
    ensures { numbered_record result ≡ record_at run.now at }
{
    if run.len() <= at {
        return Record::End;
    }
    match head_at(run, at, false) {
        Ok((kind, next)) => Record::Event(event_at(run, at, kind), next),
        Err(fault) => Record::Fault(fault.refusal.number(), fault.at),
    }
}

// The first record: what it says, settings and opening clock.
#[tactic(auto, unfolding(wire::specs::Wire::numbers_at, crate::specs::Record::first_record))]
pub fn first_record(run: &[u8]) -> Result<(Settings, u64), Fault>
    ensures { numbered_first result ≡ first_record run.now }
{
    head_at(run, 0, true)?;
    let n = wire::byte(run, N_AT);
    let longest = wire::get(run, LONGEST_AT, 4) as u32;
    let spread = wire::get(run, SPREAD_AT, 4) as u32;
    let clock = wire::get(run, CLOCK_AT, 8);
    Ok((Settings { n, longest, spread }, clock))
}

// The offset in the first record of what opening refuses, in opening's order; 0 where it refuses
// nothing, as the definition has it, which is cited for settings that opening takes too.
pub fn opening_offset(s: Settings, clock: u64) -> usize
    ensures { result ≡ opening_offset s clock }
{
    if !quorum::cell_fits(s.n) {
        return N_AT;
    }
    if !(1..=LAST_LONGEST).contains(&s.longest) {
        return LONGEST_AT;
    }
    if s.longest <= s.spread {
        return SPREAD_AT;
    }
    if LAST_TICK < clock {
        return CLOCK_AT;
    }
    0
}
