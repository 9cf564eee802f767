// Little-endian numbers of a number of bytes, read from lent bytes and written into them at an
// offset.
#![tactic(auto)]

ghost use Rattle.std.specs.Prelude.{◌≡◌, ◌+◌, ◌*◌, ◌≤◌, ◌<◌, ◌^◌, length};
ghost use Rattle.std.proofs.lemmas.List.Edits.{sets};
ghost use Rattle.wire.specs.Wire.{le, number_at};

// The number in the w bytes at `at`. With `u64::from_le_bytes` reading takes 1.23 to 1.32 of the
// hand-written time in perf/frames, above its mark of 1.2.
pub fn get(s: &[u8], at: usize, w: usize) -> u64
    requires { (at + w ≤ length s.now) × (w ≤ 8) }
    ensures { (result ≡ number_at s.now at w) × (result < 2 ^ (8 * w)) }
{
    s[at..at + w]
        .iter()
        .rev()
        .fold(0, |v, byte| v << 8 | u64::from(*byte))
}

// The byte at `at`.
#[tactic(auto, using(crate::proofs::Laws::number_one))]
pub fn byte(s: &[u8], at: usize) -> u8
    requires { at < length s.now }
    ensures { result ≡ number_at s.now at 1 }
{
    s[at]
}

// Writes v into the w bytes at `at`; what of v lies above them is not written. The contract allows
// every w, so `to_le_bytes`, which has 8, does not do.
pub fn put(out: &mut [u8], at: usize, w: usize, v: u64)
    requires { at + w ≤ length out.old }
    ensures { out.new ≡ sets out.old at (le w v) }
{
    let mut rest = v;
    for byte in &mut out[at..at + w] {
        *byte = (rest % 256) as u8;
        rest /= 256;
    }
}
