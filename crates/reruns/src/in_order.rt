// Recorded calls on a bounded ordered set.
ghost use Rattle.std.specs.Prelude.{◌≡◌};
ghost use Rattle.ordered.specs.FuturesOrdered.{ordered_of};
ghost use Rattle.reruns.specs.Answers.{token_of};
ghost use Rattle.reruns.specs.Ordered.{step, ordered_answer, ordered_after};
ghost use Rattle.reruns.specs.Steps.{answer_of, after};
ghost use Rattle.runs.specs.Calls.{clone as CloneCall, wake_by_ref as WakeByRefCall};

use crate::answer::Answer;
use crate::recorded::Recorded;
use ordered::futures_ordered_bounded::FuturesOrderedBounded;
use recordings::call::{Call, Task};
use recordings::reason::Reason;
use tasks::countdown::Countdown;
use tasks::either::Either;
use tasks::letter::Letter;
use wakes::waker::{RawWaker, Waker};

// A bounded ordered set that holds countdowns and letters side by side.
pub type OrderedSet<'a> = FuturesOrderedBounded<'a, Either<Countdown, Letter>>;

// This and the next lend a token, as those of the unordered set do. An interface for both kinds of set would be longer than
// what it saves: each kind would have to pass its token calls on.
fn clone(set: &mut OrderedSet<'_>, raw: RawWaker) -> Answer
    ensures answer { result ≡ answer_of step (ordered_of set.old) (CloneCall (token_of raw)) }
    ensures after { ordered_of set.new ≡ after step (ordered_of set.old) (CloneCall (token_of raw)) }
{
    let token = Waker::from_raw(raw);
    let answer = set.clone(&token);
    let _ = token.into_raw();
    answer.map_or_else(Answer::from, Answer::from)
}

fn wake_by_ref(set: &mut OrderedSet<'_>, raw: RawWaker) -> Answer
    ensures answer { result ≡ answer_of step (ordered_of set.old) (WakeByRefCall (token_of raw)) }
    ensures after { ordered_of set.new ≡ after step (ordered_of set.old) (WakeByRefCall (token_of raw)) }
{
    let token = Waker::from_raw(raw);
    let answer = set.wake_by_ref(&token);
    let _ = token.into_raw();
    answer.map_or_else(Answer::from, Answer::Notice)
}

impl Recorded for FuturesOrderedBounded<'_, Either<Countdown, Letter>> {
    ghost answers = { λ s c post. ordered_answer (ordered_of s) c post };

    ghost leaves = { λ s c post t. ordered_of t ≡ ordered_after (ordered_of s) c post };

    fn carry_out(&mut self, call: Call, post: &[u64]) -> Result<Answer, Reason> {
        let answer = match call {
            Call::PushBack(Task::Future(task)) => self
                .push_back(task)
                .map_or_else(Answer::from, Answer::At),
            Call::PushFront(Task::Future(task)) => self
                .push_front(task)
                .map_or_else(Answer::from, Answer::At),
            Call::Poll => Answer::from(self.poll(post)),
            Call::Hand(address) => self.hand(address).map_or_else(Answer::from, Answer::from),
            Call::Clone(raw) => clone(self, raw),
            Call::Wake(raw) => self
                .wake(Waker::from_raw(raw))
                .map_or_else(Answer::from, Answer::Notice),
            Call::WakeByRef(raw) => wake_by_ref(self, raw),
            Call::Drop(raw) => self
                .drop(Waker::from_raw(raw))
                .map_or_else(Answer::from, |()| Answer::Dropped),
            Call::MayEnd => self.may_end().map_or_else(Answer::from, |()| Answer::Yes),
            Call::Len => Answer::Number(self.len()),
            Call::Capacity => Answer::Number(self.capacity()),
            Call::Push(_) | Call::PushBack(Task::Stream(_)) | Call::PushFront(Task::Stream(_)) => {
                return Err(Reason::OtherKind);
            }
        };
        Ok(answer)
    }
}
