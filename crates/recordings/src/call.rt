// A recorded call.
ghost use Rattle.std.specs.Prelude.{◌≡◌};
ghost use Rattle.recordings.specs.Inputs.{input_of};

use tasks::countdown::Countdown;
use tasks::either::Either;
use tasks::letter::Letter;
use tasks::mailbag::Mailbag;
use tasks::ticker::Ticker;
use wakes::waker::RawWaker;

// A set holds futures, and a merge holds streams.
#[derive(Clone, Copy, PartialEq)]
pub enum Task {
    Future(Either<Countdown, Letter>),
    Stream(Either<Ticker, Mailbag>),
}

// A call as a recording has it, for every kind of set and merge. The post of a poll stands beside it, in one buffer for all
// lines, so that no call holds on to it.
#[derive(Clone, Copy)]
pub enum Call {
    Push(Task),
    PushBack(Task),
    PushFront(Task),
    Poll,
    Hand(usize),
    Clone(RawWaker),
    Wake(RawWaker),
    WakeByRef(RawWaker),
    Drop(RawWaker),
    MayEnd,
    Len,
    Capacity,
}

// What a call gives away, and gets back where it is refused.
#[derive(Clone, Copy, PartialEq)]
pub enum Input {
    Task(Task),
    Address(usize),
    Token(RawWaker),
}

impl Call {
    // A token that is only lent stays with the caller.
    pub fn input(self) -> Option<Input>
        ensures { result ≡ input_of self }
    {
        match self {
            Call::Push(task) | Call::PushBack(task) | Call::PushFront(task) => {
                Some(Input::Task(task))
            }
            Call::Hand(address) => Some(Input::Address(address)),
            Call::Wake(token) | Call::Drop(token) => Some(Input::Token(token)),
            Call::Poll
            | Call::Clone(_)
            | Call::WakeByRef(_)
            | Call::MayEnd
            | Call::Len
            | Call::Capacity => None,
        }
    }
}
