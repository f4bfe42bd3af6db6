ghost use Rattle.std.specs.Prelude.{◌≡◌, ℕ, List};
ghost use Rattle.tasks.specs.Acts.{Acts};
ghost use Rattle.tasks.specs.declared.poll.Poll.TheVariants.{Ready, Pending};

use crate::poll::Poll;
use crate::ticket::Ticketed;

// A task that gives one output. What a poll does is a fixed function of the future and the post.
pub trait Future: Ticketed {
    type Output: Ticketed;

    // what a poll does
    ghost acts: { Acts Self Self.Output };

    // The pair is the interface's: whether the poll woke the task itself, and the answer, which is there either way.
    fn poll(&mut self, post: &[u64]) -> (bool, Poll<Self::Output>)
        ensures pair { result ≡ (acts.wakes self.old post.now, acts.answers self.old post.now) }
        ensures left { self.new ≡ acts.after self.old post.now };

    ghost pending_keeps_the_ticket: { (f : Self) (post : List ℕ) → acts.answers f post ≡ Pending → Self.Ticketed.bearing (acts.after f post) ≡ Self.Ticketed.bearing f };

    ghost output_bears_the_ticket: { (f : Self) (post : List ℕ) (x : Self.Output) → acts.answers f post ≡ Ready x → Self.Output.Ticketed.bearing x ≡ Self.Ticketed.bearing f };
}
