// One host of one sheet: proposer, acceptor and learner. This crate is the rule book: a method for
// each event or message that gives the host after it, with at most one message and the set of its
// receivers, or refuses it, and then nothing changes. Document 01 has 'methods with self on the
// host struct': so what the parts of a step ask of n, of a sender and of the host stands in
// `requires`, and follows from the limits that `check` and `message::fault` test.
#![tactic(auto, unfolding(
// limits of a host
base::specs::Lists::all_of, crate::specs::Steps::last_wait, crate::specs::Steps::host_ok,
// of its clock
message::specs::Message::last_tick,
// answers
base::specs::Answers::answer_of, base::specs::Answers::refusal_number,
// lists of refusals
base::specs::Refusals::first_of,
// what a step hands back
crate::specs::Told::told, crate::specs::Told::stepped_of, crate::specs::Told::done_with,
// advance: its refusals
crate::specs::Steps::advance_refusal,
// and what it does
crate::specs::Steps::advanced_host, crate::specs::Steps::advance_of,
// restart: its refusals
crate::specs::Steps::restart_refusal,
// and what it does
crate::specs::Steps::restarted_host, crate::specs::Steps::restart_of,
// start
crate::specs::Steps::start_refusal, crate::specs::Steps::start_of,
// release
crate::specs::Steps::release_refusal, crate::specs::Steps::release_of,
// a message: its refusals
message::specs::Message::numbers_of, crate::specs::Steps::receive_refusal,
// and what it does
crate::specs::Steps::on_message, crate::specs::Steps::on_delivery, crate::specs::Steps::receive_of),
// what the limits tell
using(crate::proofs::HostLimits::few_hosts, crate::proofs::HostLimits::clock_within,
// of a message too
crate::proofs::HostLimits::handed))]

ghost use Rattle.std.specs.Prelude.{◌≡◌, true, ◌+◌, ◌≤◌};
ghost use Rattle.message.specs.declared.Message.TheVariants.{PrepareRequest, PrepareResponseEmpty};
ghost use Rattle.message.specs.declared.Message.TheVariants.{PrepareResponseLease, ProposeRequest};
ghost use Rattle.message.specs.declared.Message.TheVariants.{ProposeResponse, Learn};
ghost use Rattle.message.specs.declared.Message.TheVariants.{ReleaseRequest};
ghost use Rattle.base.specs.Answers.{answer_of};
ghost use Rattle.base.specs.Refusals.{unless, refused_cell};
ghost use Rattle.message.specs.Message.{last_tick};
ghost use Rattle.rules.specs.Rules.{ballot_at, named_by};
ghost use Rattle.host.specs.Parts.{Handed};
ghost use Rattle.host.specs.Told.{stepped_of, told};
ghost use Rattle.host.specs.Steps.{host_ok, quiet_with, sending_with, with_round, with_named};
ghost use Rattle.host.specs.Steps.{head_from, advanced_host, advance_of, restarted_host};
ghost use Rattle.host.specs.Steps.{restart_of, start_of, release_of, on_message, on_delivery};
ghost use Rattle.host.specs.Steps.{receive_of};

use base::Refusal;
use message::{
    Ballot, Head, Holder, LAST_TICK, LearnedLease, LeaseResponse, Message, Numbers, Proposal,
};
use state::{Round, Settings, State};

mod acceptor;
mod learner;
mod proposer;
mod releaser;

// The last end of a wait, 2^48 + 2^32.
pub const LAST_WAIT: u64 = 281479271677952;

// The target of a message that is handed to a set of receivers: it is not looked at.
const ANY_TARGET: u8 = 0;

// A host's number in its cell, its clock, the tick at which its wait ends, and what it keeps of the
// sheet.
#[derive(Clone, Copy, Default)]
pub struct Host {
    pub number: u8,
    pub clock: u64,
    pub wait: u64,
    pub state: State,
}

// A message, and the set of its receivers.
#[derive(Clone, Copy)]
pub struct Sent {
    pub message: Message,
    pub receivers: u16,
}

// What a step that is done gives: the host, and what it sends, if anything.
#[derive(Clone, Copy)]
pub struct Step {
    pub host: Host,
    pub sent: Option<Sent>,
}

impl Step {
    // A step that sends nothing.
    pub fn quiet(host: Host) -> Step
        ensures { stepped_of result ≡ quiet_with host }
    {
        Step { host, sent: None }
    }

    // A step that sends this message to these hosts.
    pub fn sending(host: Host, message: Message, receivers: u16) -> Step
        ensures { stepped_of result ≡ sending_with host message receivers }
    {
        let sent = Some(Sent { message, receivers });
        Step { host, sent }
    }
}

// Whether settings and host are within their limits: 1 where not.
pub fn host_ok(s: Settings, h: Host) -> bool
    ensures { result ≡ host_ok s h }
{
    state::settings_ok(s)
        && h.number < s.n
        && h.clock <= LAST_TICK
        && h.wait <= LAST_WAIT
        && state::state_ok(s, h.number, h.state)
}

impl Host {
    // Refused by 1 where settings and host are not within their limits.
    fn check(self, s: Settings) -> Result<(), Refusal>
        ensures { answer_of result ≡ unless (host_ok s self) refused_cell }
    {
        if host_ok(s, self) {
            Ok(())
        } else {
            Err(Refusal::Cell)
        }
    }

    fn with_round(self, round: Round) -> Host
        ensures { result ≡ with_round self round }
    {
        let state = State {
            round,
            ..self.state
        };
        Host { state, ..self }
    }

    // A holder is named, unless one of a ballot as high is.
    fn naming(self, holder: Holder) -> Host
        ensures { result ≡ with_named self self.state.round (named_by self.state.named holder) }
    {
        let state = State {
            named: rules::named_by(self.state.named, holder),
            ..self.state
        };
        Host { state, ..self }
    }

    // The head of a message that is handed to a set of receivers; its target is not looked at.
    fn head_from(self, ballot: Ballot) -> Head
        ensures { result ≡ head_from self ballot }
    {
        Head {
            sender: self.number,
            target: ANY_TARGET,
            ballot,
        }
    }

    // The ballot of a start or a release. Its tick is the clock, which no restart takes back.
    fn next_ballot(self) -> Ballot
        ensures { result ≡ ballot_at self.clock self.number }
    {
        rules::ballot_at(self.clock, self.number)
    }

    // The clock rises, and the state ages with it.
    pub fn advanced_host(self, d: u64) -> Host
        requires { self.clock + d ≤ last_tick }
        ensures { result ≡ advanced_host self d }
    {
        let clock = self.clock + d;
        Host {
            clock,
            state: self.state.aged_at(clock),
            ..self
        }
    }

    // The clock rises by d; an accepted lease or a named holder whose end has come is dropped.
    // Refused by 1 and 15.
    pub fn advance(self, s: Settings, d: u64) -> Result<Step, Refusal>
        ensures { told self result ≡ advance_of s self d }
    {
        self.check(s)?;
        if d == 0 || LAST_TICK - self.clock < d {
            return Err(Refusal::Clock);
        }
        Ok(Step::quiet(self.advanced_host(d)))
    }

    // Everything but the clock is forgotten, and the host waits T + S ticks from now.
    pub fn restarted_host(self, s: Settings) -> Host
        requires { self.clock ≤ last_tick }
        ensures { result ≡ restarted_host s self }
    {
        Host {
            wait: rules::wait_end(self.clock, s.longest, s.spread),
            state: self.state.restarted(),
            ..self
        }
    }

    // The same, of any host. Refused by 1.
    pub fn restart(self, s: Settings) -> Result<Step, Refusal>
        ensures { told self result ≡ restart_of s self }
    {
        self.check(s)?;
        Ok(Step::quiet(self.restarted_host(s)))
    }

    // Begins a round for a lease of so many ticks: any old round is dropped, and a prepare request
    // goes to all hosts. Refused by 1, 9, 11 and 10, in this order.
    // It shares the tests of 9 and 10 with `release`, each with one of its own between them.
    pub fn start(self, s: Settings, duration: u32) -> Result<Step, Refusal>
        ensures { told self result ≡ start_of s self duration }
    {
        self.check(s)?;
        if rules::is_waiting(self.clock, self.wait) {
            return Err(Refusal::Waiting);
        }
        if duration == 0 || !state::duration_ok(s, duration) {
            return Err(Refusal::Duration);
        }
        if !rules::is_fresh(self.state.last, self.clock) {
            return Err(Refusal::SameTick);
        }
        Ok(self.on_start(s, duration))
    }

    // Gives the lease back early: the host stops naming itself, drops its round, and a release
    // request goes to all hosts. Refused by 1, 9, 18 and 10, in this order.
    pub fn release(self, s: Settings) -> Result<Step, Refusal>
        ensures { told self result ≡ release_of s self }
    {
        self.check(s)?;
        if rules::is_waiting(self.clock, self.wait) {
            return Err(Refusal::Waiting);
        }
        if !rules::names_itself(self.number, self.state.named) {
            return Err(Refusal::NotHolder);
        }
        if !rules::is_fresh(self.state.last, self.clock) {
            return Err(Refusal::SameTick);
        }
        Ok(self.on_release(s))
    }
}

impl Host {
    // A message in which nothing is refused, by its kind.
    fn on_message(self, s: Settings, m: Message) -> Step
        requires { Handed s self m }
        ensures { stepped_of result ≡ on_message s self m }
    {
        match m {
            Message::PrepareRequest(h) => self.on_prepare_request(h),
            Message::PrepareResponseEmpty(h) => self.on_prepare_response(s, h, None),
            Message::PrepareResponseLease(r) => {
                self.on_prepare_response(s, r.head, Some(r.accepted))
            }
            Message::ProposeRequest(p) => self.on_propose_request(p),
            Message::ProposeResponse(h) => self.on_propose_response(s, h),
            Message::Learn(l) => self.on_learn(l),
            Message::ReleaseRequest(h) => self.on_release_request(h),
        }
    }

    // A message that `receive` does not refuse. A waiting host does nothing.
    pub fn on_delivery(self, s: Settings, m: Message) -> Step
        requires { Handed s self m }
        ensures { stepped_of result ≡ on_delivery s self m }
    {
        if rules::is_waiting(self.clock, self.wait) {
            return Step::quiet(self);
        }
        self.on_message(s, m)
    }

    // Takes a message of any kind; the seven below take one each, as document 01 has methods 'one
    // per event or message'. Refused by 1, then by 5, 6 and 7 as writing to its target
    // refuses it, then by 7 where its target is another host. A waiting host does nothing.
    pub fn receive(self, s: Settings, m: Message) -> Result<Step, Refusal>
        ensures { told self result ≡ receive_of s self m }
    {
        self.check(s)?;
        let f = Numbers::from(m);
        message::fault(state::sizes_of(s), f)?;
        if f.target != self.number {
            return Err(Refusal::Party);
        }
        Ok(self.on_delivery(s, m))
    }

    // Promises a ballot above its promise, and replies with the accepted lease or empty. Refused as
    // `receive`.
    pub fn prepare_request(self, s: Settings, m: Head) -> Result<Step, Refusal>
        ensures { told self result ≡ receive_of s self (PrepareRequest m) }
    {
        self.receive(s, Message::PrepareRequest(m))
    }

    // Counts an empty reply to the ballot that it asks; with a majority it proposes. Refused as
    // `receive`.
    pub fn prepare_response_empty(self, s: Settings, m: Head) -> Result<Step, Refusal>
        ensures { told self result ≡ receive_of s self (PrepareResponseEmpty m) }
    {
        self.receive(s, Message::PrepareResponseEmpty(m))
    }

    // Counts a reply that tells of a lease, as empty where that has ended, and else keeps the one
    // with the highest ballot; with a majority it proposes. Refused as `receive`.
    pub fn prepare_response_lease(self, s: Settings, m: LeaseResponse) -> Result<Step, Refusal>
        ensures { told self result ≡ receive_of s self (PrepareResponseLease m) }
    {
        self.receive(s, Message::PrepareResponseLease(m))
    }

    // Accepts a lease whose end is to come and whose ballot is not below its promise, promises that
    // ballot, and replies. Refused as `receive`.
    pub fn propose_request(self, s: Settings, m: Proposal) -> Result<Step, Refusal>
        ensures { told self result ≡ receive_of s self (ProposeRequest m) }
    {
        self.receive(s, Message::ProposeRequest(m))
    }

    // Counts a vote for the ballot that it proposes; with a majority it names the owner and tells
    // the others. Refused as `receive`.
    pub fn propose_response(self, s: Settings, m: Head) -> Result<Step, Refusal>
        ensures { told self result ≡ receive_of s self (ProposeResponse m) }
    {
        self.receive(s, Message::ProposeResponse(m))
    }

    // Names another host whose lease's end is to come, unless it names one of a ballot as high.
    // Refused as `receive`.
    pub fn learn(self, s: Settings, m: LearnedLease) -> Result<Step, Refusal>
        ensures { told self result ≡ receive_of s self (Learn m) }
    {
        self.receive(s, Message::Learn(m))
    }

    // Promises a ballot that is not below its promise, and drops an accepted lease or named holder
    // that is the sender's and has a lower one. Refused as `receive`.
    pub fn release_request(self, s: Settings, m: Head) -> Result<Step, Refusal>
        ensures { told self result ≡ receive_of s self (ReleaseRequest m) }
    {
        self.receive(s, Message::ReleaseRequest(m))
    }
}
