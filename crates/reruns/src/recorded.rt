ghost use Rattle.std.specs.Prelude.{◌≡◌, Err};
ghost use Rattle.reruns.specs.Recorded.{Answering, Leaving, GivesBack};
ghost use Rattle.recordings.specs.declared.reason.Reason.TheVariants.{NoSet as NoSetReason};

use crate::answer::Answer;
use recordings::call::Call;
use recordings::reason::Reason;

// A set or a merge on which recorded calls are carried out. The post is that of a poll.
pub trait Recorded {
    // what a call answers
    ghost answers: { Answering Self };

    // whether the second is the set after the call
    ghost leaves: { Leaving Self };

    fn carry_out(&mut self, call: Call, post: &[u64]) -> Result<Answer, Reason>
        ensures answer { result ≡ answers self.old call post.now }
        ensures after { leaves self.old call post.now self.new }
        ensures own { GivesBack call result };
}

// There is no set: none was made yet, or it could not be made.
#[derive(Clone, Copy)]
pub struct NoSet;

impl Recorded for NoSet {
    ghost answers = { λ _ _ _. Err NoSetReason };

    ghost leaves = { λ _ _ _ _. Unit {0} };

    fn carry_out(&mut self, call: Call, post: &[u64]) -> Result<Answer, Reason> {
        Err(Reason::NoSet)
    }
}
