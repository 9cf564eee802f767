// The static library for hosts written in C: the functions of `frame_c`, by the names and with the
// clauses that they have there. include/lease_frame.h declares them. They are written out again: a
// static library exports the functions of its own crate alone, and is no library for other crates.
#![tactic(auto)]

ghost use Rattle.std.specs.Prelude.{◌≡◌, length};
ghost use Rattle.message.specs.Faults.{sizes};
ghost use Rattle.frame.specs.Reading.{read_of, number_of, length_of, refused_at};
ghost use Rattle.frame_c.specs.Interface.{numbers_after, handed_numbers, Wrote};
ghost use Rattle.frame_c.specs.Interface.{handed_written, after_handed};
ghost use Rattle.frame_c.specs.Interface.{handed_written_to, after_handed_to};

// Reads the frame that bytes begins with into the nine numbers: kind, sender, target, ballot tick,
// ballot host, accepted tick, accepted host, owner and end, and its length. Those that the kind
// lacks are 0. A refusal leaves the numbers as they were, a length of 0, and its offset in the
// bytes, which is 0 where nothing is refused.
#[unsafe(no_mangle)]
pub extern "C" fn lease_frame_read(
    n: u8,
    bytes: &[u8],
    numbers: &mut [u64; 9],
    len: &mut usize,
    offset: &mut usize,
) -> u8
    ensures { let found = read_of (sizes n) bytes.now in
        ((result ≡ number_of found)
        × (numbers.new ≡ numbers_after found numbers.old))
        × ((len.new ≡ length_of found) × (offset.new ≡ refused_at found)) }
{
    frame_c::lease_frame_read(n, bytes, numbers, len, offset)
}

// Writes the frame of a message at the start of out, and its length to len: 0 where it is refused.
#[unsafe(no_mangle)]
pub extern "C" fn lease_frame_write(
    n: u8,
    kind: u16,
    sender: u8,
    target: u8,
    ballot_tick: u64,
    ballot_host: u8,
    accepted_tick: u64,
    accepted_host: u8,
    owner: u8,
    end: u64,
    out: &mut [u8],
    len: &mut usize,
) -> u8
    ensures { let f = handed_numbers kind sender target ballot_tick ballot_host
        accepted_tick accepted_host owner end in
        Wrote (handed_written (sizes n) f (length out.old))
        (after_handed (sizes n) f out.old)
        result len.new out.new }
{
    frame_c::lease_frame_write(
        n,
        kind,
        sender,
        target,
        ballot_tick,
        ballot_host,
        accepted_tick,
        accepted_host,
        owner,
        end,
        out,
        len,
    )
}

// Writes the frames of a message to the hosts of a set end to end at the start of out, and their
// length to len: 0 where they are refused.
#[unsafe(no_mangle)]
pub extern "C" fn lease_frame_write_to(
    n: u8,
    kind: u16,
    sender: u8,
    ballot_tick: u64,
    ballot_host: u8,
    accepted_tick: u64,
    accepted_host: u8,
    owner: u8,
    end: u64,
    receivers: u16,
    out: &mut [u8],
    len: &mut usize,
) -> u8
    ensures { let f = handed_numbers kind sender 0 ballot_tick ballot_host
        accepted_tick accepted_host owner end in
        Wrote (handed_written_to (sizes n) f receivers (length out.old))
        (after_handed_to (sizes n) f receivers out.old)
        result len.new out.new }
{
    frame_c::lease_frame_write_to(
        n,
        kind,
        sender,
        ballot_tick,
        ballot_host,
        accepted_tick,
        accepted_host,
        owner,
        end,
        receivers,
        out,
        len,
    )
}
