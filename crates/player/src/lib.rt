// The listing of a run file: from lent bytes to lent bytes.
#![tactic(auto)]

ghost use Rattle.std.specs.Prelude.{◌≡◌, ◌≤◌, length, IfOk};
ghost use Rattle.text.specs.Parts.{Wrote, HasRoom};
ghost use Rattle.lines.specs.Lines.{text_of};
ghost use Rattle.listing.specs.Listing.{longest_run, opened_lines, listing_of, listing_room};
ghost use Rattle.listing.specs.Listing.{room_for, listed_of, listed_result, after_listing, Counts};

use base::Refusal;
use record::SETTINGS_LENGTH;
use state::Settings;
use text::Page;

// The listing of a run file whose settings were read.
fn put_opened(run: &[u8], page: &mut Page, s: Settings, clock: u64)
    requires { ((21 ≤ length run.now) × (length run.now ≤ longest_run))
        × HasRoom page.old listing_room }
    ensures { Wrote page.old (text_of (opened_lines run.now s clock)) page.new }
{
    let opened = cell::open(s, clock);
    if let Err(refusal) = opened.answer {
        let at = record::opening_offset(s, clock);
        return lines::put_stop(page, 0, refusal.number(), at);
    }
    lines::put_settings(page, s, clock);
    let first = reader::read_at(run, SETTINGS_LENGTH);
    let p = run::play(opened.cell, first, run, page);
    listing::put_end(page, p.walk, p.last);
}

// The listing of any bytes.
fn put_listing(run: &[u8], page: &mut Page)
    requires { HasRoom page.old (room_for run.now) }
    ensures { Wrote page.old (listing_of run.now) page.new }
{
    if listing::is_long(run.len()) {
        return listing::put_long(page);
    }
    match record::first_record(run) {
        Ok((s, clock)) => put_opened(run, page, s, clock),
        Err(fault) => lines::put_stop(page, 0, fault.refusal.number(), fault.at),
    }
}

// Writes the listing of a run file at the start of out, and says how many bytes. Refused by 8 where
// out is shorter than the room for it, and then out is left as it is.
pub fn list(run: &[u8], out: &mut [u8]) -> Result<usize, Refusal>
    ensures gives { listed_result result ≡ listed_of run.now (length out.old) }
    ensures leaves { out.new ≡ after_listing run.now out.old }
    ensures counts { IfOk result (λ n. Counts n out.new) }
{
    if out.len() < listing::room_for(run) {
        return Err(Refusal::Room);
    }
    let mut page = Page { out, at: 0 };
    put_listing(run, &mut page);
    Ok(page.at)
}
