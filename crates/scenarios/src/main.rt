// The situations that could only be met by luck before, as run files in data/: the listing of each,
// beneath a line that says what it shows. Held to the file stdout. (A frame whose length field lies
// is the program `frames`.)
#![tactic(auto)]

use std::io::Write;
use std::rt::Files;
use std::{fs, io};

// Writes the listing of a run file.
fn show_run(rt: &impl Print, run: &[u8]) -> io::Result<()> {
    let mut out = room::listing_bytes();
    match player::list(run, &mut out) {
        Ok(len) => io::writer(rt).write_all(&out[..len]),
        Err(_) => Ok(()),
    }
}

// What a run file shows, and its listing.
fn show(rt: &(impl Files + Print + Eprint), name: &str, what: &str) -> io::Result<()> {
    println!(rt; "{name}: {what}")?;
    let mut file = match fs::open(rt, name) {
        Ok(file) => file,
        Err(e) => return eprintln!(rt; "{name}: {e}"),
    };
    let mut run = room::run_bytes();
    let n = room::fill(&mut file, &mut run)?;
    drop(file);
    show_run(rt, &run[..n])?;
    println!(rt; "")
}

// One call each, beneath what happens in it: a table would be the same lines, and one loop more.
fn main(rt: HostRuntime) -> io::Result<()> {
    let rt = &rt;
    // Host 0 holds the lease by its own vote and host 2's, while all that was sent to host 1 is
    // held back; host 1 restarts at 105 and waits until 210. The proposal at 209, while it waits,
    // and proposal, learn and prepare at 210 change no name; then the lease passes to host 1.
    show(
        rt,
        "held_back.run",
        "messages held back until their receiver has restarted and rejoined",
    )?;
    // A learn and a proposal to host 1, each delivered three times: in time, again before the end
    // (154 and 159) and at the end (155 and 160). Then the lease passes to host 2.
    show(
        rt,
        "delivered_twice.run",
        "a learn and a proposal delivered again across a lease's end",
    )?;
    // Clocks at 110 and 105, and hosts 0 and 1 start at 110. Host 4 promises both, so that host 0
    // is one vote short. At 160 and 155 those behind name on, and host 0, ahead, cannot take the
    // lease over; at 170 and 165 it passes to host 0.
    show(
        rt,
        "nine_clocks.run",
        "nine clocks at the worst spread, two rounds started in one tick",
    )?;
    // Host 1 promises to host 0, restarts, and is then handed the proposal: it waits and does not
    // vote. Host 2, which had promised nothing, makes the majority. The lease passes to host 2,
    // while host 1 waits, and to host 1.
    show(
        rt,
        "restart_after_promise.run",
        "a restart between a promise and its acceptance",
    )?;
    // Host 2 is down, and host 0's lease has ended for host 1 alone, at 160 and S ahead. Host 0's
    // reply with it counts as empty, and host 1 names itself.
    show(
        rt,
        "fast_clock.run",
        "a fast clock asks just after a lease has ended for it alone",
    )?;
    // Host 1 is told of a lease and then of one that has ended by its clock, of a lower ballot, and
    // later of a higher one: what it kept stays, and is proposed.
    show(
        rt,
        "ended_replies.run",
        "replies whose lease has ended, beside one that is kept",
    )?;
    // Host 0 lets go while it proposes to renew. The late votes, a majority, find no round, and the
    // late proposal is below the promise of the release: nothing keeps host 1 from the lease.
    show(
        rt,
        "release_in_a_renewal.run",
        "a release while a renewal is under way",
    )?;
    // Host 2 asks before the release comes to host 1, and proposes host 0's lease once more. Host 0
    // is told of it and does not name itself; the others name it up to 155.
    show(
        rt,
        "release_overtaken.run",
        "a release that is overtaken by another host's round",
    )?;
    // Host 2 waits when host 0 lets go. When it is back, it promises an older prepare request, and
    // then an old copy of the release.
    show(rt, "release_to_waiting.run", "a release to a waiting host")?;
    // Host 2 promises the release, and then names host 0 by a late learn. Host 1 takes the next
    // lease; the release, delivered again, drops that name.
    show(
        rt,
        "release_twice.run",
        "a release delivered twice, and a learn of its lease in between",
    )?;
    // Host 0 has let go and holds the next lease when its release comes to host 2, which names it.
    show(
        rt,
        "release_after_next.run",
        "a release that comes after its sender's next lease",
    )?;
    // With every slot full, host 0 is handed the reply that makes its majority, and later the
    // deciding vote: both deliveries are refused, the message stays in its slot, and the same one
    // is delivered when there is room.
    show(
        rt,
        "no_room.run",
        "deliveries that end in 13, for want of room for what they send",
    )?;
    // Events of an opened cell: each number that one can be refused by.
    show(rt, "answers.run", "the answers 5 and 9 to 15")?;
    show(
        rt,
        "release_answers.run",
        "the answers of a release: 0, 5, 9, 10, 13 and 18",
    )?;
    show(
        rt,
        "last_tick.run",
        "15 at the last tick that a clock may have",
    )
}
