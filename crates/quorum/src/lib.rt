// How many hosts a cell may have, and sets of them: a u16 with one bit a host, as document 01 has
// it. A host is a plain number, and where it must have a bit the function asks for one below 16: a
// type of such numbers would ask it of every caller.
#![tactic(auto)]

ghost use Rattle.std.specs.Prelude.{◌≡◌, ◌<◌, ◌≤◌};
ghost use Rattle.quorum.specs.Sets.{cell_fits, is_in, single_of, with_host, everyone_of, others_of};
ghost use Rattle.quorum.specs.Sets.{is_below, is_only, size_of, is_majority};
ghost use Rattle.quorum.specs.Parts.{next_in};

// The most hosts that a cell may have.
pub const MOST_HOSTS: u8 = 9;

// Whether a cell may have n hosts.
pub fn cell_fits(n: u8) -> bool
    ensures { result ≡ cell_fits n }
{
    (1..=MOST_HOSTS).contains(&n)
}

// Whether a host is in a set.
pub fn is_in(set: u16, host: u8) -> bool
    requires { host < 16 }
    ensures { result ≡ is_in set host }
{
    (set >> host) & 1 == 1
}

// The set of one host.
pub fn single_of(host: u8) -> u16
    requires { host < 16 }
    ensures { result ≡ single_of host }
{
    1u16 << host
}

// The set with one host more.
pub fn with_host(set: u16, host: u8) -> u16
    requires { host < 16 }
    ensures { result ≡ with_host set host }
{
    set | single_of(host)
}

// The set of all n hosts.
pub fn everyone_of(n: u8) -> u16
    requires { n < 16 }
    ensures { result ≡ everyone_of n }
{
    single_of(n) - 1
}

// The set of all n hosts but one of them.
#[tactic(auto, using(std::proofs::lemmas::Nat::pow_below))]
pub fn others_of(n: u8, host: u8) -> u16
    requires { (n < 16) × (host < n) }
    ensures { result ≡ others_of n host }
{
    everyone_of(n) - single_of(host)
}

// Whether a set names no host of n or more.
#[tactic(auto, using(crate::proofs::Laws::below_beyond))]
pub fn is_below(set: u16, n: u8) -> bool
    ensures { result ≡ is_below set n }
{
    16 <= n || set < single_of(n)
}

// Whether a set names no host but one.
#[tactic(auto, using(crate::proofs::Laws::other_beyond))]
pub fn is_only(set: u16, host: u8) -> bool
    ensures { result ≡ is_only set host }
{
    set == 0 || (host < 16 && set == single_of(host))
}

// The first host from one on that is in a set; n where none below n is: the definition `next_in` is
// that number, so it is no Option.
pub fn next_in(set: u16, from: u8, n: u8) -> u8
    requires { (from ≤ n) × (n < 16) }
    ensures { result ≡ next_in set from n }
{
    (from..n).find(|&h| is_in(set, h)).unwrap_or(n)
}

// How many hosts are in a set.
pub fn size_of(set: u16) -> u32
    ensures { result ≡ size_of set }
{
    set.count_ones()
}

// Whether a set is a majority of n hosts.
#[tactic(auto, unfolding(crate::specs::Sets::is_majority))]
pub fn is_majority(n: u8, set: u16) -> bool
    ensures { result ≡ is_majority n set }
{
    u32::from(n) / 2 + 1 <= size_of(set)
}
