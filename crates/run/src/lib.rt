// Events run one after the other, with a line for each, and an event by itself.
#![tactic(auto)]

ghost use Rattle.std.specs.Prelude.{◌≡◌};
ghost use Rattle.cell.specs.Answered.{told};
ghost use Rattle.cell.specs.Events.{event_of};
ghost use Rattle.record.specs.Read.{numbered_record};
ghost use Rattle.run.specs.Parts.{Begins, Plays};

use base::Refusal;
use cell::{Answered, Cell, Event};
use listing::Walk;
use record::Record;
use text::Page;

mod running;

use running::Running;

// What a run leaves: the cell, the record that ended it, and how far the walk came.
#[derive(Clone, Copy)]
pub struct Played {
    pub cell: Cell,
    pub last: Record,
    pub walk: Walk,
}

// The events of a run of a cell within its limits, from its first record on, with a line for each.
pub fn play(cell: Cell, first: Record, run: &[u8], page: &mut Page) -> Played
    requires { Begins cell (numbered_record first) run.now page.old.out.now page.old.at }
    ensures plays { Plays cell (numbered_record first) run.now page.old.out.now page.old.at result
        page.new.out.now }
    ensures stands { page.new.at ≡ result.walk.pos }
    ensures same { page.new.out.ghost_name ≡ page.old.out.ghost_name }
{
    let mut running = Running::new(cell);
    let mut r = first;
    let mut w = listing::walk_from(page.at);
    loop {
        // Document 01 has records taken apart so: the event goes on, the fault ends the run.
        let Record::Event(e, next) = r else {
            return Played {
                cell: running.cell,
                last: r,
                walk: w,
            };
        };
        let answer = base::answer_of(running.event(e));
        listing::put_line_head(page, w, e, answer);
        let n = running.cell.settings.n as usize;
        let hosts = &running.cell.hosts[..n];
        for host in hosts {
            lines::put_name(page, host.state.named);
        }
        page.byte(b'\n');
        w = listing::walked(w, answer, running.placed.looked, next, page.at);
        r = reader::read_at(run, next);
    }
}

// Any event. Refused by 1, then an advance of all by 15, of one host by 5, 15 and 14, a start by 5,
// 9, 11, 10 and 13, a release by 5, 9, 18, 10 and 13, a delivery and a repeat by 12 and 13, a loss
// by 12, a restart by 5, in these orders. A refused event hands back the same cell. With it comes
// how many slots were looked at to place what is sent: one past the last that was filled, 0 where
// nothing is placed, 96 where 13 refuses, and 0 where anything else does.
pub fn apply(cell: Cell, e: Event) -> Answered
    ensures { told result ≡ event_of cell e }
{
    if !cell.within_limits() {
        return Answered {
            answer: Err(Refusal::Cell),
            cell,
        };
    }
    let mut running = Running::new(cell);
    let answer = running.event(e).map(|()| running.placed.looked);
    Answered {
        answer,
        cell: running.cell,
    }
}
