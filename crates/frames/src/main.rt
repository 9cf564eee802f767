// Shows frames being read and written: document 01's P11 and P12, each kind once, each refusal
// once, where some are found, and for each kind all 65,536 values of the length field, counted by
// answer. Its output is held to the file stdout.
#![tactic(auto)]

use base::Refusal;
use message::{
    LEARN, PREPARE_REQUEST, PREPARE_RESPONSE_LEASE, PROPOSE_REQUEST, PROPOSE_RESPONSE,
    RELEASE_REQUEST, Sizes,
};
use std::io;

mod sample;
mod show;

// P11: a prepare request, host 0 to 2, ballot (105,0); then one byte more.
const P11: [u8; 16] = [15, 0, 1, 0, 0, 2, 105, 0, 0, 0, 0, 0, 0, 0, 0, 0];

// P12: the same with a length of 16.
const P12: [u8; 16] = [16, 0, 1, 0, 0, 2, 105, 0, 0, 0, 0, 0, 0, 0, 0, 0];

// Every number but length and kind is 0.
const ZERO: [u8; 24] = [
    24, 0, 4, 0, 0, 0, 0, 0, 0, 0, 0, 0, 0, 0, 0, 0, 0, 0, 0, 0, 0, 0, 0, 0,
];

fn worked(rt: &impl Print) -> io::Result<()> {
    show::reading(rt, "P11", frame::read(sample::sizes(), &P11))?;
    show::reading(rt, "P12", frame::read(sample::sizes(), &P12))?;
    show::reading(rt, "zero tick and end", frame::read(Sizes { n: 1 }, &ZERO))
}

// The frame of each kind's sample, and what is read from it.
fn kinds(rt: &impl Print) -> io::Result<()> {
    for kind in PREPARE_REQUEST..=RELEASE_REQUEST {
        let mut out = [0; 33];
        let written = frame::write(sample::sizes(), sample::message_of_kind(kind), &mut out);
        show::frame(rt, out.get(..written.unwrap_or(0)).unwrap_or(&out))?;
        show::reading(rt, "  reads", frame::read(sample::sizes(), &out))?;
    }
    Ok(())
}

// What is read once one byte of P11 is another.
fn damaged(rt: &impl Print, label: &str, at: usize, byte: u8) -> io::Result<()> {
    let mut bytes = P11;
    if let Some(b) = bytes.get_mut(at) {
        *b = byte;
    }
    show::reading(rt, label, frame::read(sample::sizes(), &bytes))
}

// What is read from the first bytes of P11.
fn cut(rt: &impl Print, label: &str, len: usize) -> io::Result<()> {
    let bytes = P11.get(..len).unwrap_or(&P11);
    show::reading(rt, label, frame::read(sample::sizes(), bytes))
}

// Each by itself: they differ in what is damaged or cut, and a table would tell those apart.
fn refused_readings(rt: &impl Print) -> io::Result<()> {
    show::reading(rt, "read 1 cell", frame::read(Sizes { n: 10 }, &P11))?;
    cut(rt, "read 2 cut, under 4 bytes", 3)?;
    damaged(rt, "read 3 kind", 2, 8)?;
    damaged(rt, "read 17 short length", 0, 14)?;
    damaged(rt, "read 4 length", 0, 16)?;
    cut(rt, "read 2 cut", 7)?;
    damaged(rt, "read 5 host", 5, 3)?;
    damaged(rt, "read 6 tick", 13, 1)?;
    damaged(rt, "read 7 party", 14, 1)
}

// Where a refusal is found, once two bytes of a kind's sample are others: the first of two fields,
// and the party of a response.
fn refused_offsets(rt: &impl Print) -> io::Result<()> {
    for (label, kind, places, byte) in [
        ("target and owner", PROPOSE_REQUEST, [5, 15], 9),
        (
            "ballot's and accepted host",
            PREPARE_RESPONSE_LEASE,
            [14, 23],
            9,
        ),
        (
            "accepted host and owner",
            PREPARE_RESPONSE_LEASE,
            [23, 24],
            9,
        ),
        ("accepted tick and end", PREPARE_RESPONSE_LEASE, [22, 32], 9),
        ("owner and end", LEARN, [15, 23], 9),
        ("holder's end", LEARN, [23, 23], 9),
        ("a response's party", PROPOSE_RESPONSE, [5, 5], 1),
    ] {
        let mut bytes = sample_frame(kind);
        for at in places {
            if let Some(b) = bytes.get_mut(at) {
                *b = byte;
            }
        }
        show::reading(rt, label, frame::read(sample::sizes(), &bytes))?;
    }
    Ok(())
}

// What writing P11's message, in a cell of n, with another sender and tick, into so many bytes
// answers.
fn refused_writings(rt: &impl Print) -> io::Result<()> {
    for (label, n, sender, tick, room) in [
        ("write 1 cell", 0, 0, 105, 15),
        ("write 5 host", 3, 3, 105, 15),
        ("write 6 tick", 3, 0, message::LAST_TICK + 1, 15),
        ("write 7 party", 3, 1, 105, 15),
        ("write 8 room", 3, 0, 105, 14),
        ("write 0 done", 3, 0, message::LAST_TICK, 15),
    ] {
        let mut out = [0; 15];
        let written = frame::write(Sizes { n }, sample::request(sender, tick), &mut out[..room]);
        show::written(rt, label, written)?;
    }
    Ok(())
}

// What writing a kind's sample to a set of receivers answers.
fn sets(rt: &impl Print) -> io::Result<()> {
    for (label, kind, set) in [
        ("set of all three", LEARN, 7),
        ("set of none", LEARN, 0),
        ("set 5 host", LEARN, 8),
        ("set 7 party", PREPARE_RESPONSE_LEASE, 2),
        ("set of the ballot's host", PREPARE_RESPONSE_LEASE, 1),
    ] {
        let mut out = [0; 99];
        let m = sample::message_of_kind(kind);
        show::written(
            rt,
            label,
            frame::write_to(sample::sizes(), m, set, &mut out),
        )?;
    }
    Ok(())
}

// What a frame is answered with another length field.
fn answer_with(bytes: [u8; 33], length: u16) -> u8 {
    let mut frame = bytes;
    let [low, high] = length.to_le_bytes();
    frame[0] = low;
    frame[1] = high;
    base::answer_of(frame::read(sample::sizes(), &frame).map_err(|fault| fault.refusal))
}

// How many of the 65,536 values of a frame's length field are answered so.
fn lengths(bytes: [u8; 33], answer: u8) -> usize {
    (0..=u16::MAX)
        .filter(|length| answer_with(bytes, *length) == answer)
        .count()
}

// The frame of a kind's sample, in 33 bytes.
fn sample_frame(kind: u16) -> [u8; 33] {
    let mut out = [0; 33];
    let _ = frame::write(sample::sizes(), sample::message_of_kind(kind), &mut out);
    out
}

// For each kind the answers over all values of the length field, and how often each came.
fn all_lengths(rt: &impl Print) -> io::Result<()> {
    for kind in PREPARE_REQUEST..=RELEASE_REQUEST {
        let bytes = sample_frame(kind);
        print!(rt; "length field of kind {kind}, answers:")?;
        for answer in 0..=Refusal::Short.number() {
            let count = lengths(bytes, answer);
            if 0 < count {
                print!(rt; " {answer} x {count}")?;
            }
        }
        println!(rt; "")?;
    }
    Ok(())
}

fn main(rt: HostRuntime) -> io::Result<()> {
    let rt = &rt;
    worked(rt)?;
    kinds(rt)?;
    refused_readings(rt)?;
    refused_offsets(rt)?;
    refused_writings(rt)?;
    sets(rt)?;
    all_lengths(rt)
}
