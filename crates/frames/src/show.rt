// Lines of the program's output.
use base::{Fault, Refusal};
use message::{Message, Numbers};
use std::{fmt, io};

// A message's numbers in a line.
#[derive(Clone, Copy)]
struct Line(Numbers);

impl fmt::Display for Line {
    fn fmt<W: fmt::Write>(&self, f: &mut fmt::Formatter<W>) -> fmt::Result {
        let Numbers {
            kind,
            sender,
            target,
            ballot,
            accepted,
            owner,
            keepers,
            holders,
        } = self.0;
        write!(f, "kind {kind} from {sender} to {target}")?;
        write!(f, " ballot {} {}", ballot.tick, ballot.host)?;
        write!(f, " accepted {} {}", accepted.tick, accepted.host)?;
        write!(f, " owner {owner} ends {} {}", keepers.0, holders.0)
    }
}

// A label, the answer's number and the frame's length; of a message that was read, its numbers, and
// of a refusal its offset.
pub fn reading(
    rt: &impl Print,
    label: &str,
    read: Result<(Message, usize), Fault>,
) -> io::Result<()> {
    match read {
        Ok((m, len)) => {
            let line = Line(Numbers::from(m));
            println!(rt; "{label}: answer 0 length {len} {line}")
        }
        Err(Fault { refusal, at }) => {
            let answer = refusal.number();
            println!(rt; "{label}: answer {answer} length 0 offset {at}")
        }
    }
}

// What a writing answered, and how many bytes it wrote.
pub fn written(rt: &impl Print, label: &str, written: Result<usize, Refusal>) -> io::Result<()> {
    let answer = base::answer_of(written);
    let len = written.unwrap_or(0);
    println!(rt; "{label}: answer {answer} length {len}")
}

// The bytes of a frame, in hexadecimal.
pub fn frame(rt: &impl Print, bytes: &[u8]) -> io::Result<()> {
    print!(rt; "frame")?;
    for byte in bytes {
        print!(rt; " {byte:02x}")?;
    }
    println!(rt; "")
}
