// The answer of a recorded call.
ghost use Rattle.std.specs.Prelude.{◌≡◌, T, Some};
ghost use Rattle.recordings.specs.Inputs.{input_of};
ghost use Rattle.recordings.specs.declared.call.Task.TheVariants.{Future};
ghost use Rattle.reruns.specs.Answers.{yielded_of, polled_of, token_answer_of, lent_of, task_back_of, address_back_of, token_back_of};
ghost use Rattle.reruns.specs.Texts.{yielded_text, numbers_text, answer_text};

use recordings::call::{Call, Input, Task};
use std::fmt;
use tasks::countdown::Countdown;
use tasks::either::Either;
use tasks::fault::{Fault, Refused};
use tasks::letter::{Delivery, Letter};
use tasks::poll::{Poll, Polled};
use wakes::waker::{RawWaker, Waker};

// What a poll of any set or merge yields: a ticket, and the word of a delivery.
#[derive(Clone, Copy)]
pub struct Yielded {
    pub ticket: (u32, u32),
    pub word: Option<u64>,
}

#[derive(Clone, Copy)]
pub enum Answer {
    At(usize),
    Token(RawWaker),
    Notice(u32),
    Dropped,
    Polled(Polled<Option<Yielded>>),
    Number(usize),
    Yes,
    Refused(Refused<Option<Input>>),
}

impl From<Either<(u32, u32), Delivery>> for Yielded {
    ghost from_gives = { λ o y. y ≡ yielded_of o };

    fn from(output: Either<(u32, u32), Delivery>) -> Yielded {
        match output {
            Either::Left(ticket) => Yielded { ticket, word: None },
            Either::Right(Delivery { ticket, word }) => Yielded {
                ticket,
                word: Some(word),
            },
        }
    }
}

impl From<Polled<Option<Either<(u32, u32), Delivery>>>> for Answer {
    ghost from_gives = { λ p a. a ≡ polled_of p };

    fn from(polled: Polled<Option<Either<(u32, u32), Delivery>>>) -> Answer {
        let poll = polled.poll.map(|output| output.map(Yielded::from));
        Answer::Polled(Polled {
            poll,
            notices: polled.notices,
            turns: polled.turns,
        })
    }
}

impl From<Waker> for Answer {
    ghost from_gives = { λ t a. a ≡ token_answer_of t };

    fn from(token: Waker) -> Answer {
        Answer::Token(token.into_raw())
    }
}

// A call that lent its token hands nothing back.
impl From<Fault> for Answer {
    ghost from_gives = { λ f a. a ≡ lent_of f };

    fn from(fault: Fault) -> Answer {
        Answer::Refused(Refused { fault, input: None })
    }
}

// A refused call hands back what it was given.
impl From<Refused<Either<Countdown, Letter>>> for Answer {
    ghost from_gives = { λ r a. a ≡ task_back_of Future r };

    fn from(refused: Refused<Either<Countdown, Letter>>) -> Answer {
        Answer::Refused(refused.map(|task| Some(Input::Task(Task::Future(task)))))
    }
}

impl From<Refused<usize>> for Answer {
    ghost from_gives = { λ r a. a ≡ address_back_of r };

    fn from(refused: Refused<usize>) -> Answer {
        Answer::Refused(refused.map(|address| Some(Input::Address(address))))
    }
}

impl From<Refused<Waker>> for Answer {
    ghost from_gives = { λ r a. a ≡ token_back_of r };

    fn from(refused: Refused<Waker>) -> Answer {
        Answer::Refused(refused.map(|token| Some(Input::Token(token.into_raw()))))
    }
}

// The text of an answer is the format of recordings, so it is written out.
impl fmt::Display for Yielded {
    ghost output = { λ y. Some (yielded_text y) };

    fn fmt<W: fmt::Write>(&self, f: &mut fmt::Formatter<W>) -> fmt::Result {
        let (owner, number) = self.ticket;
        match self.word {
            Some(word) => write!(f, "{owner} {number} {word}"),
            None => write!(f, "{owner} {number} -"),
        }
    }
}

// A fault by its three numbers, as a recording has it. The fault's own Display is for people.
#[derive(Drop)]
struct Numbers(Fault);

impl fmt::Display for Numbers {
    ghost output = { λ n. Some (numbers_text n.0) };

    fn fmt<W: fmt::Write>(&self, f: &mut fmt::Formatter<W>) -> fmt::Result {
        let number = self.0.number();
        let layer = self.0.layer();
        let place = self.0.place();
        write!(f, "{number} {layer} {place}")
    }
}

impl fmt::Display for Answer {
    ghost output = { λ a. Some (answer_text a) };

    fn fmt<W: fmt::Write>(&self, f: &mut fmt::Formatter<W>) -> fmt::Result {
        match *self {
            Answer::At(address) => write!(f, "at {address}"),
            Answer::Token(RawWaker { name, address }) => write!(f, "token {name} {address}"),
            Answer::Notice(notice) => write!(f, "notice {notice}"),
            Answer::Dropped => f.write_str("dropped"),
            Answer::Polled(polled) => {
                let notices = polled.notices;
                let turns = polled.turns;
                match polled.poll {
                    Poll::Pending => write!(f, "pending {notices} {turns}"),
                    Poll::Ready(None) => write!(f, "none {notices} {turns}"),
                    Poll::Ready(Some(yielded)) => write!(f, "ready {yielded} {notices} {turns}"),
                }
            }
            Answer::Number(number) => write!(f, "{number}"),
            Answer::Yes => f.write_str("yes"),
            Answer::Refused(Refused { fault, input: _ }) => {
                let outer = Numbers(fault);
                match fault.inside().map(Numbers) {
                    None => write!(f, "fault {outer}"),
                    Some(inner) => write!(f, "fault {outer} inside {inner}"),
                }
            }
        }
    }
}

// Whether what a refused call handed back is what it was given.
pub fn is_own(call: Call, back: Option<Input>) -> bool
    ensures only { T result → back ≡ input_of call }
    ensures always { back ≡ input_of call → T result }
{
    back == call.input()
}
