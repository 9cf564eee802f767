// The lines of a listing, each put on a page from where it stands, and whom hosts name, as bytes of
// a line.
#![tactic(auto, using(crate::proofs::Laws::parts))]

ghost use Rattle.std.specs.Prelude.{◌≡◌, [], ◌∷◌, ◌+◌, ◌*◌, ◌≤◌, ◌<◌, length};
ghost use Rattle.text.specs.Parts.{Wrote, HasRoom};
ghost use Rattle.places.specs.Parts.{Mirrors};
ghost use Rattle.lines.specs.Lines.{settings, stop, counts};
ghost use Rattle.lines.specs.Lines.{last_of, name_text, event_head, line_text};
ghost use Rattle.lines.specs.Parts.{digit_of, name_byte, name_of, bytes_text};

use host::Host;
use message::Holder;
use state::Settings;
use text::Page;

// A space, a number and the line's end.
fn put_last(page: &mut Page, n: u64)
    requires { HasRoom page.old (length (last_of n)) }
    ensures { Wrote page.old (last_of n) page.new }
{
    page.spaced(n);
    page.byte(b'\n');
}

// `stop`, the byte offset of a record, its fault's number, and the fault's offset in the record.
// The fault is a plain number: a narrower type would ask more of whoever calls.
pub fn put_stop(page: &mut Page, place: usize, number: u8, offset: usize)
    requires { HasRoom page.old 64 }
    ensures wrote { Wrote page.old (line_text (stop place number offset)) page.new }
    ensures short { page.new.at ≤ page.old.at + 64 }
{
    page.word(b"stop");
    page.spaced(place as u64);
    page.spaced(u64::from(number));
    put_last(page, offset as u64);
}

// How many events were applied, and how many refused.
pub fn put_counts(page: &mut Page, applied: u64, refused: u64)
    requires { HasRoom page.old 64 }
    ensures { Wrote page.old (line_text (counts applied refused)) page.new }
{
    page.word(b"applied");
    page.spaced(applied);
    page.word(b" refused");
    put_last(page, refused);
}

// n, T, S and the opening clock.
pub fn put_settings(page: &mut Page, s: Settings, clock: u64)
    requires { HasRoom page.old 64 }
    ensures wrote { Wrote page.old (line_text (settings s clock)) page.new }
    ensures short { page.new.at ≤ page.old.at + 64 }
{
    page.decimal(u64::from(s.n));
    page.spaced(u64::from(s.longest));
    page.spaced(u64::from(s.spread));
    put_last(page, clock);
}

// The holder's number, or `-`.
#[tactic(auto, using(crate::proofs::Laws::parts), unfolding(crate::specs::Lines::name_text))]
fn put_holder(page: &mut Page, named: Option<Holder>)
    requires { HasRoom page.old 3 }
    ensures wrote { Wrote page.old (name_text named) page.new }
    ensures short { page.new.at ≤ page.old.at + 3 }
{
    match named {
        None => page.byte(b'-'),
        Some(k) => page.decimal(u64::from(k.owner)),
    }
}

// The same after a space.
pub fn put_name(page: &mut Page, named: Option<Holder>)
    requires { HasRoom page.old 4 }
    ensures wrote { Wrote page.old (32 ∷ name_text named) page.new }
    ensures short { page.new.at ≤ page.old.at + 4 }
{
    page.byte(b' ');
    put_holder(page, named);
}

// The digit of a number below 10, as every host's is; of any other a dash.
// No Option: the definition `digit_of` has the dash.
#[tactic(auto, unfolding(crate::specs::Parts::digit_of))]
fn digit_of(number: u8) -> u8
    ensures { result ≡ digit_of number }
{
    if number < 10 { b'0' + number } else { b'-' }
}

// Whom a host names, as a line shows it: the holder's number, or `-`. No other crate calls it,
// and the edit `ballots_host_named` rests on it.
pub fn name_of(h: Host) -> u8
    ensures { result ≡ name_byte h.state.named }
{
    h.state.named.map_or(b'-', |k| digit_of(k.owner))
}

// Whom the hosts name, as bytes that can be lent. No crate calls it, and no other contract states
// its promise.
pub fn names_of(hosts: [Host; 9]) -> [u8; 9]
    ensures { Mirrors name_of hosts result }
{
    hosts.map(name_of)
}

// Whom hosts name, each after a space. No crate but `listing` calls it, and the edit
// `names_from_host_one` rests on it.
pub fn put_names(page: &mut Page, names: &[u8])
    requires { HasRoom page.old (2 * length names.now) }
    ensures wrote { Wrote page.old (bytes_text names.now (length names.now) 0) page.new }
    ensures short { page.new.at ≤ page.old.at + 2 * length names.now }
{
    for name in names {
        page.byte(b' ');
        page.byte(*name);
    }
}

// An event's place from 1, its kind and its answer, with which its line begins. The answer is a
// plain number: a narrower type would ask more of whoever calls.
pub fn put_event_head(page: &mut Page, place: u64, kind: u16, answer: u8)
    requires { ((place < 100000) × (kind < 1000)) × HasRoom page.old 13 }
    ensures wrote { Wrote page.old (event_head place kind answer) page.new }
    ensures short { page.new.at ≤ page.old.at + 13 }
{
    page.decimal(place);
    page.spaced(u64::from(kind));
    page.spaced(u64::from(answer));
}
