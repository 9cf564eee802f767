// What the listing of a run file is, and the parts of it that need no cell: the room for it, how
// far the walk has come, the line of an event, how a listing ends, and that of a file that is too
// long. The crates `run` and `player` write the rest.
#![tactic(auto)]

ghost use Rattle.std.specs.Prelude.{◌≡◌, ◌+◌, ◌≤◌, ◌<◌, ltb, length};
ghost use Rattle.text.specs.Parts.{Wrote, HasRoom};
ghost use Rattle.base.specs.Refusals.{refused_long};
ghost use Rattle.record.specs.Read.{numbered_record};
ghost use Rattle.record.specs.Record.{kind_of};
ghost use Rattle.lines.specs.Lines.{stop, event_head, line_text, text_of};
ghost use Rattle.listing.specs.Listing.{longest_run, long_room, room_for};
ghost use Rattle.listing.specs.Parts.{last_lines, walk_from, walked_to, LineFits, LinePut};

use base::DONE;
use cell::Event;
use record::{Record, SETTINGS_LENGTH};
use text::Page;

// How far the walk of a run file has come, where its listing goes on, its counts so far, and what
// the last event was answered, with how many slots it looked at. The answer is a plain number, as a
// line says it: a narrower type would ask more of whoever makes a walk.
#[derive(Clone, Copy)]
pub struct Walk {
    pub at: usize,
    pub pos: usize,
    pub applied: u64,
    pub refused: u64,
    pub answer: u8,
    pub looked: usize,
}

// The longest run file.
const LONGEST_RUN: usize = 65536;

// The bytes that the listing of every run file fits into, and those of the line of one that is too
// long.
const LISTING_ROOM: usize = 655488;

const LONG_ROOM: usize = 12;

// Whether a run file of so many bytes is too long.
pub fn is_long(len: usize) -> bool
    ensures { result ≡ ltb longest_run len }
{
    LONGEST_RUN < len
}

// The least room for the listing of a run file.
#[tactic(auto, unfolding(crate::specs::Listing::room_for))]
pub fn room_for(run: &[u8]) -> usize
    ensures { result ≡ room_for run.now }
{
    if is_long(run.len()) {
        LONG_ROOM
    } else {
        LISTING_ROOM
    }
}

// The listing of a run file that is too long.
pub fn put_long(page: &mut Page)
    requires { HasRoom page.old long_room }
    ensures { Wrote page.old (line_text (stop 0 refused_long 0)) page.new }
{
    page.word(b"stop 0 16 0\n");
}

// The walk before its first event, whose line comes at an offset.
pub fn walk_from(pos: usize) -> Walk
    ensures { result ≡ walk_from pos }
{
    Walk {
        at: SETTINGS_LENGTH,
        pos,
        applied: 0,
        refused: 0,
        answer: DONE,
        looked: 0,
    }
}

// The walk past an event: its line is written, and its answer counted. A free function, as `run`
// calls it so; a method would be no shorter.
#[tactic(auto, unfolding(crate::specs::Parts::walked_to, crate::specs::Parts::done_of))]
pub fn walked(w: Walk, answer: u8, looked: usize, next: usize, pos: usize) -> Walk
    requires { w.applied + w.refused + 1 < 100000 }
    ensures { result ≡ walked_to w answer looked next pos }
{
    let done = u64::from(answer == DONE);
    Walk {
        at: next,
        pos,
        applied: w.applied + done,
        refused: w.refused + (1 - done),
        answer,
        looked,
    }
}

// An event's place from 1, its kind and its answer, with which its line begins.
#[tactic(auto, using(record::proofs::Laws::kind_small))]
pub fn put_line_head(page: &mut Page, w: Walk, e: Event, answer: u8)
    requires { (w.applied + w.refused + 1 < 100000) × HasRoom page.old 13 }
    ensures wrote { Wrote page.old
        (event_head (w.applied + w.refused + 1) (kind_of e) answer) page.new }
    ensures short { page.new.at ≤ page.old.at + 13 }
{
    let place = w.applied + w.refused + 1;
    lines::put_event_head(page, place, record::kind_of(e), answer);
}

// The line of an event, with these names, and the walk past it. No crate calls it, and the edit
// `next_line_over_the_lines_end` rests on it.
pub fn put_line(
    page: &mut Page,
    w: Walk,
    e: Event,
    answer: u8,
    looked: usize,
    next: usize,
    names: &[u8],
) -> Walk
    requires { LineFits w page.old names.now }
    ensures { LinePut w page.old e answer looked next names.now result page.new }
{
    put_line_head(page, w, e, answer);
    lines::put_names(page, names);
    page.byte(b'\n');
    walked(w, answer, looked, next, page.at)
}

// The fault's line, if there is one, and the counts.
pub fn put_end(page: &mut Page, w: Walk, r: Record)
    requires { HasRoom page.old 128 }
    ensures { Wrote page.old (text_of (last_lines w.at w.applied w.refused (numbered_record r)))
        page.new }
{
    if let Record::Fault(number, offset) = r {
        lines::put_stop(page, w.at, number, offset);
    }
    lines::put_counts(page, w.applied, w.refused);
}
