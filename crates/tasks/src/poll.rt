ghost use Rattle.tasks.specs.Mapped.{Callable, Mapped};

// The answer of a poll.
#[derive(Clone, Copy, PartialEq, Debug)]
pub enum Poll<T> {
    Ready(T),
    Pending,
}

impl<T> Poll<T> {
    // What the function makes of the answer, if it is ready.
    pub fn map<U, F: FnOnce(T) -> U>(self, f: F) -> Poll<U>
        requires { Callable (F.pre f) self }
        ensures { Mapped (F.post f) self result }
    {
        match self {
            Poll::Ready(x) => Poll::Ready(f(x)),
            Poll::Pending => Poll::Pending,
        }
    }
}

// The answer of a poll of a set or a merge: the Poll, how many notices the parent was given, and how
// many slots were taken from the queue.
#[derive(Clone, Copy, PartialEq, Debug)]
pub struct Polled<T> {
    pub poll: Poll<T>,
    pub notices: u32,
    pub turns: u32,
}
