// The bytes that the programs lend, and reading into them. The contracts of what is lent give only
// lengths, so that no proof above computes them.
#![tactic(auto)]

ghost use Rattle.std.specs.Prelude.{◌≡◌, ◌≤◌, ◌<◌, length, take, IfOk};
ghost use Rattle.std.specs.Io.KnownBytes.{Consumes, IsAtEnd};

use std::io;
use std::io::Read;

// The longest run file and one byte more.
// Two names of `zeroed`: the programs ask by what the bytes are for, and give no length.
pub fn run_bytes() -> [u8; 65537]
    ensures { 65537 ≡ length result }
{
    zeroed()
}

// Room for any listing.
pub fn listing_bytes() -> [u8; 655488]
    ensures { 655488 ≡ length result }
{
    zeroed()
}

// N bytes of 0.
fn zeroed<const N: usize>() -> [u8; N]
    ensures { N ≡ length result }
{
    [0; N]
}

// Reads until the bytes are full or the input ends, and answers how many it read, to their start.
pub fn fill<R: Read>(input: &mut R, bytes: &mut [u8]) -> io::Result<usize>
    ensures count { IfOk result (λ n. n ≤ length bytes.new) }
    ensures read { IfOk result
        (λ n. Consumes (R.remaining input.old) (R.remaining input.new) (take n bytes.new)) }
    ensures end { IfOk result (λ n. n < length bytes.new → IsAtEnd (R.remaining input.new)) }
{
    // No method of the library does this without a heap: `read_to_end` fills a Vec, and
    // `read_exact` refuses an input that ends.
    let mut done = 0;
    while done < bytes.len() {
        let n = input.read(&mut bytes[done..])?;
        if n == 0 {
            return Ok(done);
        }
        done += n;
    }
    Ok(done)
}
