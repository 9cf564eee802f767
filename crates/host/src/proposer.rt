// A host as proposer: a round begun, the replies to it counted, a lease proposed, and the votes for
// it counted. The two rounds have twins here: each counts into its own struct, and what a majority
// leads to differs, so that a trait for both would be longer than what it joins.
#![tactic(auto, unfolding(
// a round begun
crate::specs::Steps::on_start,
// replies to it
crate::specs::Steps::asking_after, crate::specs::Steps::on_reply,
// what they come to
crate::specs::Steps::on_prepare_response, crate::specs::Steps::on_counted_reply,
// a proposal
crate::specs::Steps::on_majority,
// votes for it
crate::specs::Steps::proposing_after, crate::specs::Steps::on_vote,
// what they come to
crate::specs::Steps::on_propose_response, crate::specs::Steps::on_counted_vote,
// a choice
crate::specs::Steps::on_chosen),
// what the limits tell of a round that asks
using(crate::proofs::HostLimits::asks))]

ghost use Rattle.std.specs.Prelude.{◌≡◌, true, ◌<◌};
ghost use Rattle.host.specs.Parts.{Placed, Asks};
ghost use Rattle.host.specs.Told.{stepped_of};
ghost use Rattle.host.specs.Steps.{host_ok, on_start, asking_after, on_majority, proposed_value};
ghost use Rattle.host.specs.Steps.{on_counted_reply, on_reply, on_prepare_response};
ghost use Rattle.host.specs.Steps.{proposing_after, on_chosen, on_counted_vote, on_vote};
ghost use Rattle.host.specs.Steps.{on_propose_response};

use super::{Host, Step};
use message::{Ballot, Head, Holder, Lease, Message, Proposal};
use rules::Value;
use state::{Asking, Proposing, Round, Settings, State};

// One more reply is counted, and the higher accepted lease kept; one that has ended is as none.
fn asking_after(clock: u64, a: Asking, sender: u8, reply: Option<Lease>) -> Asking
    requires { sender < 16 }
    ensures { result ≡ asking_after clock a sender reply }
{
    Asking {
        replied: quorum::with_host(a.replied, sender),
        kept: rules::kept_after(clock, a.kept, reply),
        ..a
    }
}

fn proposing_after(p: Proposing, sender: u8) -> Proposing
    requires { sender < 16 }
    ensures { result ≡ proposing_after p sender }
{
    Proposing {
        replied: quorum::with_host(p.replied, sender),
        ..p
    }
}

impl Host {
    // A round is begun by asking all hosts.
    pub(super) fn on_start(self, s: Settings, duration: u32) -> Step
        requires { s.n < 16 }
        ensures { stepped_of result ≡ on_start s self duration }
    {
        let ballot = self.next_ballot();
        let state = State {
            last: Some(ballot.tick),
            round: Round::Asking(Asking {
                ballot,
                duration,
                replied: 0,
                kept: None,
            }),
            ..self.state
        };
        Step::sending(
            Host { state, ..self },
            Message::PrepareRequest(self.head_from(ballot)),
            quorum::everyone_of(s.n),
        )
    }

    fn proposed_value(self, s: Settings, a: Asking) -> Value
        requires { Asks s self a }
        ensures { result ≡ proposed_value s self a }
    {
        let own = rules::own_end(a.ballot.tick, a.duration, s.spread);
        rules::value_to_propose(self.number, self.clock, own, a.kept)
    }

    // A value is proposed to all, unless its end has come.
    fn on_majority(self, s: Settings, ballot: Ballot, value: Value) -> Step
        requires { s.n < 16 }
        ensures { stepped_of result ≡ on_majority s self ballot value }
    {
        let Value { owner, end } = value;
        if end.0 <= self.clock {
            return Step::quiet(self.with_round(Round::Idle));
        }
        let round = Round::Proposing(Proposing {
            ballot,
            owner,
            end,
            replied: 0,
        });
        let head = self.head_from(ballot);
        Step::sending(
            self.with_round(round),
            Message::ProposeRequest(Proposal { head, owner, end }),
            quorum::everyone_of(s.n),
        )
    }

    // A reply was counted: before is who had replied before it.
    fn on_counted_reply(self, s: Settings, before: u16, a: Asking) -> Step
        requires { Asks s self a }
        ensures { stepped_of result ≡ on_counted_reply s self before a }
    {
        if !rules::acts_on(s.n, before, a.replied) {
            return Step::quiet(self.with_round(Round::Asking(a)));
        }
        self.on_majority(s, a.ballot, self.proposed_value(s, a))
    }

    fn on_reply(self, s: Settings, a: Asking, m: Head, reply: Option<Lease>) -> Step
        requires { (m.sender < 16) × Asks s self a }
        ensures { stepped_of result ≡ on_reply s self a m reply }
    {
        if !a.ballot.is_same(m.ballot) || !rules::counts_reply(a.replied, m.sender) {
            return Step::quiet(self);
        }
        self.on_counted_reply(s, a.replied, asking_after(self.clock, a, m.sender, reply))
    }

    // A reply is nothing to a host that asks nothing.
    pub(super) fn on_prepare_response(self, s: Settings, m: Head, reply: Option<Lease>) -> Step
        requires { (m.sender < 16) × (host_ok s self ≡ true) }
        ensures { stepped_of result ≡ on_prepare_response s self self.state.round m reply }
    {
        match self.state.round {
            Round::Asking(a) => self.on_reply(s, a, m, reply),
            _ => Step::quiet(self),
        }
    }

    // The proposal is chosen: its owner is named while the holder's end is above the clock.
    fn on_chosen(self, s: Settings, p: Proposing) -> Step
        requires { Placed s self }
        ensures { stepped_of result ≡ on_chosen s self p }
    {
        let idle = self.with_round(Round::Idle);
        if !rules::is_namable(self.clock, s.spread, p.end) {
            return Step::quiet(idle);
        }
        let holder = Holder {
            ballot: p.ballot,
            owner: p.owner,
            end: p.end.to_holders(s.spread),
        };
        self.on_naming(s, holder, idle.naming(holder))
    }

    // A vote was counted: before is who had replied before it.
    fn on_counted_vote(self, s: Settings, before: u16, p: Proposing) -> Step
        requires { Placed s self }
        ensures { stepped_of result ≡ on_counted_vote s self before p }
    {
        if !rules::acts_on(s.n, before, p.replied) {
            return Step::quiet(self.with_round(Round::Proposing(p)));
        }
        self.on_chosen(s, p)
    }

    fn on_vote(self, s: Settings, p: Proposing, m: Head) -> Step
        requires { (m.sender < 16) × Placed s self }
        ensures { stepped_of result ≡ on_vote s self p m }
    {
        if !p.ballot.is_same(m.ballot) || !rules::counts_reply(p.replied, m.sender) {
            return Step::quiet(self);
        }
        self.on_counted_vote(s, p.replied, proposing_after(p, m.sender))
    }

    // A vote is nothing to a host that proposes nothing.
    pub(super) fn on_propose_response(self, s: Settings, m: Head) -> Step
        requires { (m.sender < 16) × Placed s self }
        ensures { stepped_of result ≡ on_propose_response s self self.state.round m }
    {
        match self.state.round {
            Round::Proposing(p) => self.on_vote(s, p, m),
            _ => Step::quiet(self),
        }
    }
}
