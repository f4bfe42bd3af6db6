ghost use Rattle.std.specs.Prelude.{◌≡◌};
ghost use Rattle.tasks.specs.Acts.{Acts};

use crate::future::Future;
use crate::poll::Poll;
use crate::stream::Stream;

// How a task of type T is polled. A group of tasks is polled by one text, whatever the tasks are; this
// parameter says through which interface.
pub trait PollFn<T> {
    type Answer;

    // what a poll does
    ghost acts: { Acts T Self.Answer };

    // The pair is that of Future and Stream.
    fn poll(task: &mut T, post: &[u64]) -> (bool, Poll<Self::Answer>)
        ensures pair { result ≡ (acts.wakes task.old post.now, acts.answers task.old post.now) }
        ensures left { task.new ≡ acts.after task.old post.now };
}

// A future is polled through Future.
#[derive(Clone, Copy)]
pub struct ByFuture;

impl<F: Future> PollFn<F> for ByFuture {
    type Answer = F::Output;

    ghost acts = { F.Future.acts };

    fn poll(task: &mut F, post: &[u64]) -> (bool, Poll<F::Output>) {
        task.poll(post)
    }
}

// A stream is polled through Stream. Merges, which are to come, poll their groups so.
#[derive(Clone, Copy)]
pub struct ByStream;

impl<S: Stream> PollFn<S> for ByStream {
    type Answer = Option<S::Item>;

    ghost acts = { S.Stream.acts };

    fn poll(task: &mut S, post: &[u64]) -> (bool, Poll<Option<S::Item>>) {
        task.poll_next(post)
    }
}
