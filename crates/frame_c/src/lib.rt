// Frames for hosts written in C: numbers and byte slices. include/lease_frame.h declares these
// functions.
#![tactic(auto, unfolding(
// answers
base::specs::Answers::answer_of, base::specs::Answers::refusal_number,
// refusals
base::specs::Refusals::first_of, crate::specs::Parts::kind_answer,
// numbers
crate::specs::Interface::end_of, crate::specs::Interface::handed_numbers))]

ghost use Rattle.std.specs.Prelude.{◌≡◌, length};
ghost use Rattle.message.specs.Faults.{sizes};
ghost use Rattle.frame.specs.Reading.{read_of, number_of, length_of, refused_at};
ghost use Rattle.frame_c.specs.Interface.{end_of, numbers_after, handed_numbers, Wrote};
ghost use Rattle.frame_c.specs.Interface.{handed_written, after_handed};
ghost use Rattle.frame_c.specs.Interface.{handed_written_to, after_handed_to};
ghost use Rattle.frame_c.specs.Parts.{kind_answer};
ghost use Rattle.frame.specs.Writing.{written_by};
ghost use Rattle.base.specs.Answers.{answer_of};

use base::{DONE, Fault, Refusal};
use message::{Ballot, HoldersEnd, KeepersEnd, LEARN, Message, Numbers, Sizes};

fn end_of(f: Numbers) -> u64
    ensures { result ≡ end_of f }
{
    if f.kind == LEARN {
        f.holders.0
    } else {
        f.keepers.0
    }
}

// Reads the frame that bytes begins with into the nine numbers: kind, sender, target, ballot tick,
// ballot host, accepted tick, accepted host, owner and end, and its length. Those that the kind
// lacks are 0. A refusal leaves the numbers as they were, a length of 0, and its offset in the
// bytes, which is 0 where nothing is refused.
#[tactic(auto, using(frame::proofs::Answers::found_read, frame::proofs::Only::found_numbers))]
#[unsafe(no_mangle)]
pub extern "C" fn lease_frame_read(
    n: u8,
    bytes: &[u8],
    numbers: &mut [u64; 9],
    len: &mut usize,
    offset: &mut usize,
) -> u8
    ensures { let found = read_of (sizes n) bytes.now in
        ((result ≡ number_of found)
        × (numbers.new ≡ numbers_after found numbers.old))
        × ((len.new ≡ length_of found) × (offset.new ≡ refused_at found)) }
{
    *offset = 0;
    match frame::find(Sizes { n }, bytes) {
        Ok((f, l)) => {
            *numbers = [
                u64::from(f.kind),
                u64::from(f.sender),
                u64::from(f.target),
                f.ballot.tick,
                u64::from(f.ballot.host),
                f.accepted.tick,
                u64::from(f.accepted.host),
                u64::from(f.owner),
                end_of(f),
            ];
            *len = l;
            DONE
        }
        Err(Fault { refusal, at }) => {
            *len = 0;
            *offset = at;
            refusal.number()
        }
    }
}

fn handed_numbers(
    kind: u16,
    sender: u8,
    target: u8,
    tick: u64,
    host: u8,
    accepted_tick: u64,
    accepted_host: u8,
    owner: u8,
    end: u64,
) -> Numbers
    ensures { result ≡ handed_numbers kind sender target tick host
        accepted_tick accepted_host owner end }
{
    let (keepers, holders) = if kind == LEARN { (0, end) } else { (end, 0) };
    Numbers {
        kind,
        sender,
        target,
        ballot: Ballot { tick, host },
        accepted: Ballot {
            tick: accepted_tick,
            host: accepted_host,
        },
        owner,
        keepers: KeepersEnd(keepers),
        holders: HoldersEnd(holders),
    }
}

// Refuses a cell that does not fit, by 1, and then a kind that is none, by 3.
fn check_kind(z: Sizes, kind: u16) -> Result<(), Refusal>
    ensures { answer_of result ≡ kind_answer z kind }
{
    if !message::sizes_fit(z) {
        return Err(Refusal::Cell);
    }
    if !message::known_kind(kind) {
        return Err(Refusal::Kind);
    }
    Ok(())
}

// Writes the frame of numbers of a kind; those that the kind lacks are not looked at.
#[tactic(auto, using(crate::proofs::Laws::handed_rules), unfolding(
// answers
base::specs::Answers::answer_of,
// what is written
crate::specs::Interface::handed_written, frame::specs::Writing::written_of,
// and what it leaves
crate::specs::Interface::after_handed, frame::specs::Writing::after_write))]
fn write_handed(z: Sizes, f: Numbers, out: &mut [u8]) -> Result<usize, Refusal>
    ensures gives { written_by result ≡ handed_written z f (length out.old) }
    ensures leaves { out.new ≡ after_handed z f out.old }
{
    check_kind(z, f.kind)?;
    frame::write(z, Message::from(f), out)
}

// Writes the frames of numbers of a kind to a set of receivers; those that the kind lacks, and the
// target, are not looked at. What this shares with `write_handed` is `check_kind`; one function of
// both would be handed which of `frame::write` and `frame::write_to` to call, and is no shorter.
#[tactic(auto, using(crate::proofs::Laws::handed_rules), unfolding(
// answers
base::specs::Answers::answer_of,
// what is written
crate::specs::Interface::handed_written_to, frame::specs::Writing::written_to,
// and what it leaves
crate::specs::Interface::after_handed_to, frame::specs::Writing::after_write_to))]
fn write_handed_to(z: Sizes, f: Numbers, set: u16, out: &mut [u8]) -> Result<usize, Refusal>
    ensures gives { written_by result ≡ handed_written_to z f set (length out.old) }
    ensures leaves { out.new ≡ after_handed_to z f set out.old }
{
    check_kind(z, f.kind)?;
    frame::write_to(z, Message::from(f), set, out)
}

// Hands back what writing gives: its number, and its length to len. By one match: with
// `unwrap_or(0)` and `answer_of` writing kind 2 to a set took 1.22 of the hand-written time in
// perf/frames, above its mark of 1.2, and with this 1.18.
fn hand_back(written: Result<usize, Refusal>, len: &mut usize) -> u8
    ensures number { result ≡ (written_by written).answer }
    ensures long { len.new ≡ (written_by written).len }
{
    let (number, l) = match written {
        Ok(l) => (DONE, l),
        Err(refusal) => (refusal.number(), 0),
    };
    *len = l;
    number
}

// Writes the frame of a message at the start of out, and its length to len: 0 where it is refused.
#[unsafe(no_mangle)]
pub extern "C" fn lease_frame_write(
    n: u8,
    kind: u16,
    sender: u8,
    target: u8,
    ballot_tick: u64,
    ballot_host: u8,
    accepted_tick: u64,
    accepted_host: u8,
    owner: u8,
    end: u64,
    out: &mut [u8],
    len: &mut usize,
) -> u8
    ensures { let f = handed_numbers kind sender target ballot_tick ballot_host
        accepted_tick accepted_host owner end in
        Wrote (handed_written (sizes n) f (length out.old))
        (after_handed (sizes n) f out.old)
        result len.new out.new }
{
    let f = handed_numbers(
        kind,
        sender,
        target,
        ballot_tick,
        ballot_host,
        accepted_tick,
        accepted_host,
        owner,
        end,
    );
    hand_back(write_handed(Sizes { n }, f, out), len)
}

// Writes the frames of a message to the hosts of a set end to end at the start of out, and their
// length to len: 0 where they are refused.
// Apart from `lease_frame_write`: include/lease_frame.h declares both, with these parameters.
#[unsafe(no_mangle)]
pub extern "C" fn lease_frame_write_to(
    n: u8,
    kind: u16,
    sender: u8,
    ballot_tick: u64,
    ballot_host: u8,
    accepted_tick: u64,
    accepted_host: u8,
    owner: u8,
    end: u64,
    receivers: u16,
    out: &mut [u8],
    len: &mut usize,
) -> u8
    ensures { let f = handed_numbers kind sender 0 ballot_tick ballot_host
        accepted_tick accepted_host owner end in
        Wrote (handed_written_to (sizes n) f receivers (length out.old))
        (after_handed_to (sizes n) f receivers out.old)
        result len.new out.new }
{
    let f = handed_numbers(
        kind,
        sender,
        0,
        ballot_tick,
        ballot_host,
        accepted_tick,
        accepted_host,
        owner,
        end,
    );
    hand_back(write_handed_to(Sizes { n }, f, receivers, out), len)
}
