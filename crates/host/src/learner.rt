// A host as learner: whom it names, and whom it tells.
#![tactic(auto, unfolding(crate::specs::Steps::on_naming, crate::specs::Steps::on_learn))]

ghost use Rattle.std.specs.Prelude.{◌≡◌};
ghost use Rattle.host.specs.Parts.{Placed};
ghost use Rattle.host.specs.Told.{stepped_of};
ghost use Rattle.host.specs.Steps.{on_naming, on_learn};

use super::{Host, Step};
use message::{Holder, LearnedLease, Message};
use state::Settings;

impl Host {
    // Learn is sent to the others, if there are any.
    pub(super) fn on_naming(self, s: Settings, k: Holder, after: Host) -> Step
        requires { Placed s self }
        ensures { stepped_of result ≡ on_naming s self k after }
    {
        if s.n == 1 {
            return Step::quiet(after);
        }
        let learned = LearnedLease {
            head: self.head_from(k.ballot),
            owner: k.owner,
            end: k.end,
        };
        let others = quorum::others_of(s.n, self.number);
        Step::sending(after, Message::Learn(learned), others)
    }

    // Another host whose lease's end is to come is named, unless one of a ballot as high is named
    // already.
    pub(super) fn on_learn(self, m: LearnedLease) -> Step
        ensures { stepped_of result ≡ on_learn self m }
    {
        if !rules::may_learn(self.number, self.clock, m) {
            return Step::quiet(self);
        }
        Step::quiet(self.naming(Holder {
            ballot: m.head.ballot,
            owner: m.owner,
            end: m.end,
        }))
    }
}
