// A lease given back early: the host that lets go of its own, and what its request frees elsewhere.
#![tactic(auto, unfolding(
// letting go, and its request
crate::specs::Steps::on_release, crate::specs::Steps::on_release_request))]

ghost use Rattle.std.specs.Prelude.{◌≡◌, ◌<◌};
ghost use Rattle.host.specs.Told.{stepped_of};
ghost use Rattle.host.specs.Steps.{on_release, on_release_request};

use super::{Host, Step};
use message::{Head, Message};
use state::Settings;

impl Host {
    // Letting go is told to all hosts.
    pub(super) fn on_release(self, s: Settings) -> Step
        requires { s.n < 16 }
        ensures { stepped_of result ≡ on_release s self }
    {
        let ballot = self.next_ballot();
        let state = self.state.released_at(ballot.tick);
        Step::sending(
            Host { state, ..self },
            Message::ReleaseRequest(self.head_from(ballot)),
            quorum::everyone_of(s.n),
        )
    }

    // A release that is not below the promise is promised, and drops what its sender owns.
    pub(super) fn on_release_request(self, m: Head) -> Step
        ensures { stepped_of result ≡ on_release_request self m }
    {
        if !rules::takes_release(self.state.promised, m.ballot) {
            return Step::quiet(self);
        }
        let state = self.state.freed_by(m);
        Step::quiet(Host { state, ..self })
    }
}
