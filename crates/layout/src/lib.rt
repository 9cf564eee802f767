// Where each field of a frame stands: a message's numbers read from lent bytes and written into
// them, and the offset of what is refused in them. A frame's length stands beside its numbers: it
// is the kind's, found once and handed on; a pair of the two would be made only to be parted.
#![tactic(auto, using(wire::proofs::Laws::sets_two), unfolding(
// limits
message::specs::Message::last_tick, message::specs::Message::last_end,
// places of refusals
base::specs::Refusals::fails_at,
// bytes of numbers
wire::specs::Wire::le, wire::specs::Wire::total, wire::specs::Wire::packed,
// and numbers of bytes
wire::specs::Wire::numbers_at,
// fields
crate::specs::Layout::kind_length, crate::specs::Layout::more_of, crate::specs::Layout::offset_in,
// numbers of a frame
crate::specs::Layout::numbers_in, crate::specs::Layout::value_in,
// and its bytes
crate::specs::Layout::bytes_of, crate::specs::Parts::value_end))]

ghost use Rattle.std.specs.Prelude.{◌≡◌, [], ◌∷◌, ◌+◌, ◌≤◌, length, ltb};
ghost use Rattle.std.proofs.lemmas.List.Edits.{sets};
ghost use Rattle.wire.specs.Wire.{packed};
ghost use Rattle.base.specs.Refusals.{fails_at};
ghost use Rattle.message.specs.Message.{prepare_response_lease};
ghost use Rattle.message.specs.Faults.{host_tests, tick_tests, party_field};
ghost use Rattle.layout.specs.Layout.{more_of, kind_length, offset_of, bytes_in};
ghost use Rattle.layout.specs.Layout.{bytes_of, numbers_in};
ghost use Rattle.layout.specs.Parts.{ballot_offset, head_length, later, ballot_at, head_at};
ghost use Rattle.layout.specs.Parts.{lease_at, value_end, Room};

use message::{
    Ballot, Head, HoldersEnd, KeepersEnd, LAST_END, LAST_TICK, LEARN, Lease, Numbers,
    PREPARE_RESPONSE_LEASE, PROPOSE_REQUEST, Sizes,
};

// The table of offsets, which reading, refusing and writing share. Every frame begins with its
// head: length, kind, sender, target and ballot.
pub const LENGTH_AT: usize = 0;

pub const KIND_AT: usize = 2;

pub const FORE_LENGTH: usize = KIND_AT + 2;

const SENDER_AT: usize = FORE_LENGTH;

const TARGET_AT: usize = SENDER_AT + 1;

const BALLOT_AT: usize = 6;

const BALLOT_HOST_AT: usize = BALLOT_AT + 8;

const HEAD_LENGTH: usize = BALLOT_AT + 9;

// After its head a response with a lease has the accepted ballot, the owner and the end.
const ACCEPTED_AT: usize = HEAD_LENGTH;

const ACCEPTED_HOST_AT: usize = ACCEPTED_AT + 8;

const LEASE_OWNER_AT: usize = ACCEPTED_AT + 9;

const LEASE_END_AT: usize = LEASE_OWNER_AT + 1;

const LEASE_LENGTH: usize = LEASE_END_AT + 8;

// A proposal and a learn message have the owner and the end.
const OWNER_AT: usize = HEAD_LENGTH;

const END_AT: usize = OWNER_AT + 1;

const VALUE_LENGTH: usize = END_AT + 8;

// The length of a kind's frames.
pub fn kind_length(kind: u16) -> usize
    ensures { result ≡ kind_length kind }
{
    match kind {
        PREPARE_RESPONSE_LEASE => LEASE_LENGTH,
        PROPOSE_REQUEST | LEARN => VALUE_LENGTH,
        _ => HEAD_LENGTH,
    }
}

// A field after the head, which not every kind has.
#[derive(Clone, Copy)]
enum LaterField {
    AcceptedTick,
    AcceptedHost,
    Owner,
    KeepersEnd,
    HoldersEnd,
}

// Where it stands in a frame of a kind; past its end where the kind lacks it.
// No Option: the definition `offset_of` is a number for every kind.
fn offset_of(kind: u16, field: LaterField) -> usize
    ensures { result ≡ offset_of kind (later field) }
{
    match (field, kind) {
        (LaterField::AcceptedTick, PREPARE_RESPONSE_LEASE) => ACCEPTED_AT,
        (LaterField::AcceptedHost, PREPARE_RESPONSE_LEASE) => ACCEPTED_HOST_AT,
        (LaterField::Owner, PREPARE_RESPONSE_LEASE) => LEASE_OWNER_AT,
        (LaterField::KeepersEnd, PREPARE_RESPONSE_LEASE) => LEASE_END_AT,
        (LaterField::Owner, PROPOSE_REQUEST | LEARN) => OWNER_AT,
        (LaterField::KeepersEnd, PROPOSE_REQUEST) | (LaterField::HoldersEnd, LEARN) => END_AT,
        _ => kind_length(kind),
    }
}

// Where the first host number of n or more stands, or 0: the definition `fails_at` is that number,
// so it is no Option.
// The tests stand here in turn: a list of them would find every later offset first.
pub fn host_fault_at(z: Sizes, f: Numbers) -> usize
    ensures { result ≡ fails_at (offset_of f.kind) (host_tests z f (ltb f.target z.n)) }
{
    if z.n <= f.sender {
        return SENDER_AT;
    }
    if z.n <= f.target {
        return TARGET_AT;
    }
    if z.n <= f.ballot.host {
        return BALLOT_HOST_AT;
    }
    if z.n <= f.accepted.host {
        return offset_of(f.kind, LaterField::AcceptedHost);
    }
    if z.n <= f.owner {
        return offset_of(f.kind, LaterField::Owner);
    }
    0
}

// Where the first tick or end above its limit stands, or 0, as `fails_at` has it.
pub fn tick_fault_at(f: Numbers) -> usize
    ensures { result ≡ fails_at (offset_of f.kind) (tick_tests f) }
{
    if LAST_TICK < f.ballot.tick {
        return BALLOT_AT;
    }
    if LAST_TICK < f.accepted.tick {
        return offset_of(f.kind, LaterField::AcceptedTick);
    }
    if LAST_END < f.keepers.0 {
        return offset_of(f.kind, LaterField::KeepersEnd);
    }
    if LAST_END < f.holders.0 {
        return offset_of(f.kind, LaterField::HoldersEnd);
    }
    0
}

// Where the party stands that has to be the ballot's host.
pub fn party_at(f: Numbers) -> usize
    ensures { result ≡ offset_of f.kind (party_field f) }
{
    if message::is_response(f.kind) {
        TARGET_AT
    } else {
        SENDER_AT
    }
}

fn ballot_at(s: &[u8], at: usize) -> Ballot
    requires { at + 9 ≤ length s.now }
    ensures { result ≡ ballot_at s.now at }
{
    Ballot {
        tick: wire::get(s, at, 8),
        host: wire::byte(s, at + 8),
    }
}

fn head_at(s: &[u8]) -> Head
    requires { head_length ≤ length s.now }
    ensures { result ≡ head_at s.now }
{
    Head {
        sender: wire::byte(s, SENDER_AT),
        target: wire::byte(s, TARGET_AT),
        ballot: ballot_at(s, BALLOT_AT),
    }
}

fn lease_at(s: &[u8]) -> Lease
    requires { kind_length prepare_response_lease ≤ length s.now }
    ensures { result ≡ lease_at s.now }
{
    Lease {
        ballot: ballot_at(s, ACCEPTED_AT),
        owner: wire::byte(s, LEASE_OWNER_AT),
        end: KeepersEnd(wire::get(s, LEASE_END_AT, 8)),
    }
}

// The numbers in a frame of a kind at the start of s; those that the kind lacks are 0. The kind is
// told by tests in turn: with a match reading takes 1.30 of the hand-written time in perf/frames in
// kind 1, above its mark of 1.2, where this takes 1.17.
pub fn numbers_at(s: &[u8], kind: u16) -> Numbers
    requires { kind_length kind ≤ length s.now }
    ensures { result ≡ numbers_in s.now kind }
{
    let head = head_at(s).numbers(kind);
    if kind == PREPARE_RESPONSE_LEASE {
        let lease = lease_at(s);
        return Numbers {
            accepted: lease.ballot,
            owner: lease.owner,
            keepers: lease.end,
            ..head
        };
    }
    if kind == PROPOSE_REQUEST {
        return Numbers {
            owner: wire::byte(s, OWNER_AT),
            keepers: KeepersEnd(wire::get(s, END_AT, 8)),
            ..head
        };
    }
    if kind == LEARN {
        return Numbers {
            owner: wire::byte(s, OWNER_AT),
            holders: HoldersEnd(wire::get(s, END_AT, 8)),
            ..head
        };
    }
    head
}

// An offset stands beside the lent bytes here, as in the table above: with `&mut out[at..]` each
// would be cut at the call, and the stores in it put back in the proof, which is no plainer.
fn put_route(out: &mut [u8], f: Numbers, len: usize)
    requires { ballot_offset ≤ length out.old }
    ensures { out.new
        ≡ sets out.old 0
        (packed (2 ∷ 2 ∷ 1 ∷ 1 ∷ []) (len ∷ f.kind ∷ f.sender ∷ f.target ∷ [])) }
{
    wire::put(out, LENGTH_AT, 2, len as u64);
    wire::put(out, KIND_AT, 2, u64::from(f.kind));
    wire::put(out, SENDER_AT, 1, u64::from(f.sender));
    wire::put(out, TARGET_AT, 1, u64::from(f.target));
}

fn put_ballot(out: &mut [u8], at: usize, b: Ballot)
    requires { at + 9 ≤ length out.old }
    ensures { out.new
        ≡ sets out.old at (packed (8 ∷ 1 ∷ []) (b.tick ∷ b.host ∷ [])) }
{
    wire::put(out, at, 8, b.tick);
    wire::put(out, at + 8, 1, u64::from(b.host));
}

fn put_value(out: &mut [u8], at: usize, owner: u8, end: u64)
    requires { at + 9 ≤ length out.old }
    ensures { out.new
        ≡ sets out.old at (packed (1 ∷ 8 ∷ []) (owner ∷ end ∷ [])) }
{
    wire::put(out, at, 1, u64::from(owner));
    wire::put(out, at + 1, 8, end);
}

// The end in a proposal or a learn message. `end_of` of frame_c is of every kind: in a response
// with a lease it is the keepers' end, where the definition here has the holder's, which is 0.
fn value_end(f: Numbers) -> u64
    ensures { result ≡ value_end f }
{
    if f.kind == PROPOSE_REQUEST {
        f.keepers.0
    } else {
        f.holders.0
    }
}

// Writes the fields after those that every frame has; the frame's length tells which they are: told
// by the kind, writing kind 4 to a set took 1.31 of the hand-written time in perf/frames, above its
// mark of 1.2, and by the length 1.03.
fn put_more(out: &mut [u8], f: Numbers, len: usize)
    requires { Room f len len out.old }
    ensures { out.new
        ≡ sets out.old head_length (bytes_in f (more_of f.kind)) }
{
    if len == HEAD_LENGTH {
        return;
    }
    if len == LEASE_LENGTH {
        put_ballot(out, ACCEPTED_AT, f.accepted);
        put_value(out, LEASE_OWNER_AT, f.owner, f.keepers.0);
        return;
    }
    put_value(out, OWNER_AT, f.owner, value_end(f));
}

// Writes the frame of a message's numbers at the start of out; len is its kind's.
fn put_first(out: &mut [u8], f: Numbers, len: usize)
    requires { Room f len len out.old }
    ensures { out.new ≡ sets out.old 0 (bytes_of f) }
{
    put_route(out, f, len);
    put_ballot(out, BALLOT_AT, f.ballot);
    put_more(out, f, len);
}

// Writes the frame of a message's numbers at `at`; len is its kind's.
pub fn put_numbers(out: &mut [u8], at: usize, f: Numbers, len: usize)
    requires { Room f len (at + len) out.old }
    ensures { out.new ≡ sets out.old at (bytes_of f) }
{
    put_first(&mut out[at..], f, len);
}
