// A host as acceptor: what it promises and accepts, and what it replies.
#![tactic(auto, unfolding(
// what is replied
crate::specs::Steps::response_with,
// to a ballot and to a proposal
crate::specs::Steps::on_prepare_request, crate::specs::Steps::on_propose_request))]

ghost use Rattle.std.specs.Prelude.{◌≡◌, ◌<◌};
ghost use Rattle.host.specs.Told.{stepped_of};
ghost use Rattle.host.specs.Steps.{response_with, on_prepare_request, on_propose_request};

use super::{Host, Step};
use message::{Head, Lease, LeaseResponse, Message, Proposal};
use rules::Vote;
use state::State;

fn response_with(head: Head, a: Option<Lease>) -> Message
    ensures { result ≡ response_with head a }
{
    match a {
        None => Message::PrepareResponseEmpty(head),
        Some(accepted) => Message::PrepareResponseLease(LeaseResponse { head, accepted }),
    }
}

impl Host {
    // A ballot above the promise is promised, and answered with the accepted lease or empty.
    pub(super) fn on_prepare_request(self, m: Head) -> Step
        requires { m.ballot.host < 16 }
        ensures { stepped_of result ≡ on_prepare_request self m }
    {
        let ballot = m.ballot;
        if !rules::may_promise(self.state.promised, ballot) {
            return Step::quiet(self);
        }
        let state = State {
            promised: Some(ballot),
            ..self.state
        };
        Step::sending(
            Host { state, ..self },
            response_with(self.head_from(ballot), state.accepted),
            quorum::single_of(ballot.host),
        )
    }

    // A lease whose end is to come and whose ballot is not below the promise is accepted, and its
    // ballot promised.
    pub(super) fn on_propose_request(self, m: Proposal) -> Step
        requires { m.head.ballot.host < 16 }
        ensures { stepped_of result ≡ on_propose_request self m }
    {
        let ballot = m.head.ballot;
        let lease = Lease {
            ballot,
            owner: m.owner,
            end: m.end,
        };
        if !rules::may_accept(self.state.promised, self.clock, lease) {
            return Step::quiet(self);
        }
        let Vote { promised, accepted } = rules::after_accept(lease);
        let state = State {
            promised,
            accepted,
            ..self.state
        };
        Step::sending(
            Host { state, ..self },
            Message::ProposeResponse(self.head_from(ballot)),
            quorum::single_of(ballot.host),
        )
    }
}
