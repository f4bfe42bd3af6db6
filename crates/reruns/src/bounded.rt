// Recorded calls on a bounded unordered set.
ghost use Rattle.std.specs.Prelude.{◌≡◌};
ghost use Rattle.reruns.specs.Answers.{token_of};
ghost use Rattle.reruns.specs.Bounded.{step, bounded_answer, bounded_after};
ghost use Rattle.reruns.specs.Steps.{answer_of, after};
ghost use Rattle.runs.specs.Calls.{clone as CloneCall, wake_by_ref as WakeByRefCall};
ghost use Rattle.sets.specs.BoundedSet.{set_of};

use crate::answer::Answer;
use crate::recorded::Recorded;
use recordings::call::{Call, Task};
use recordings::reason::Reason;
use sets::futures_unordered_bounded::FuturesUnorderedBounded;
use tasks::countdown::Countdown;
use tasks::either::Either;
use tasks::letter::Letter;
use wakes::waker::{RawWaker, Waker};

// A bounded unordered set that holds countdowns and letters side by side.
pub type BoundedSet<'a> = FuturesUnorderedBounded<'a, Either<Countdown, Letter>>;

// This and the next lend a token. One function that takes the call as a closure leaves open what set the closure leaves.
fn clone(set: &mut BoundedSet<'_>, raw: RawWaker) -> Answer
    ensures answer { result ≡ answer_of step (set_of set.old) (CloneCall (token_of raw)) }
    ensures after { set_of set.new ≡ after step (set_of set.old) (CloneCall (token_of raw)) }
{
    let token = Waker::from_raw(raw);
    let answer = set.clone(&token);
    let _ = token.into_raw();
    answer.map_or_else(Answer::from, Answer::from)
}

fn wake_by_ref(set: &mut BoundedSet<'_>, raw: RawWaker) -> Answer
    ensures answer { result ≡ answer_of step (set_of set.old) (WakeByRefCall (token_of raw)) }
    ensures after { set_of set.new ≡ after step (set_of set.old) (WakeByRefCall (token_of raw)) }
{
    let token = Waker::from_raw(raw);
    let answer = set.wake_by_ref(&token);
    let _ = token.into_raw();
    answer.map_or_else(Answer::from, Answer::Notice)
}

impl Recorded for FuturesUnorderedBounded<'_, Either<Countdown, Letter>> {
    ghost answers = { λ s c post. bounded_answer (set_of s) c post };

    ghost leaves = { λ s c post t. set_of t ≡ bounded_after (set_of s) c post };

    fn carry_out(&mut self, call: Call, post: &[u64]) -> Result<Answer, Reason> {
        let answer = match call {
            Call::Push(Task::Future(task)) => self.push(task).map_or_else(Answer::from, Answer::At),
            Call::Poll => Answer::from(self.poll(post)),
            Call::Hand(address) => self.hand(address).map_or_else(Answer::from, Answer::from),
            Call::Clone(raw) => clone(self, raw),
            Call::Wake(raw) => self
                .wake(Waker::from_raw(raw))
                .map_or_else(Answer::from, Answer::Notice),
            Call::WakeByRef(raw) => wake_by_ref(self, raw),
            Call::Drop(raw) => self
                .drop(Waker::from_raw(raw))
                .map_or_else(Answer::from, |()| Answer::Dropped),
            Call::MayEnd => self.may_end().map_or_else(Answer::from, |()| Answer::Yes),
            Call::Len => Answer::Number(self.len()),
            Call::Capacity => Answer::Number(self.capacity()),
            Call::Push(Task::Stream(_)) | Call::PushBack(_) | Call::PushFront(_) => {
                return Err(Reason::OtherKind);
            }
        };
        Ok(answer)
    }
}
