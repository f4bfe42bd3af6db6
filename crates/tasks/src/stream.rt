ghost use Rattle.std.specs.Prelude.{◌≡◌, ℕ, ◌+◌, List, Some, None, Option};
ghost use Rattle.tasks.specs.Acts.{Acts};
ghost use Rattle.tasks.specs.declared.poll.Poll.TheVariants.{Ready, Pending};
ghost use Rattle.tasks.specs.Kinds.{raised};

use crate::poll::Poll;
use crate::ticket::Ticketed;

// A task that gives items, one after the other, and then ends. Its ticket is its owner and the number of
// its next item. What a poll does is a fixed function of the stream and the post.
pub trait Stream: Ticketed {
    type Item: Ticketed;

    // what a poll does: it answers an item, the end, or Pending
    ghost acts: { Acts Self (Option Self.Item) };

    // The pair is the interface's: whether the poll woke the task itself, and the answer, which is there either way.
    fn poll_next(&mut self, post: &[u64]) -> (bool, Poll<Option<Self::Item>>)
        ensures pair { result ≡ (acts.wakes self.old post.now, acts.answers self.old post.now) }
        ensures left { self.new ≡ acts.after self.old post.now };

    ghost item_bears_the_ticket: { (s : Self) (post : List ℕ) (x : Self.Item) → acts.answers s post ≡ Ready (Some x) → Self.Item.Ticketed.bearing x ≡ Self.Ticketed.bearing s };

    ghost item_keeps_the_owner_and_raises_next: { (s : Self) (post : List ℕ) (x : Self.Item) → acts.answers s post ≡ Ready (Some x) → Self.Ticketed.bearing (acts.after s post) ≡ raised (Self.Ticketed.bearing s) };

    ghost pending_keeps_the_ticket: { (s : Self) (post : List ℕ) → acts.answers s post ≡ Pending → Self.Ticketed.bearing (acts.after s post) ≡ Self.Ticketed.bearing s };

    ghost ends_at_the_last_number: { (s : Self) (post : List ℕ) → (Self.Ticketed.bearing s).1 ≡ 4294967295 → acts.answers s post ≡ Ready None };
}
