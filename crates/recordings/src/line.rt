// One line of a recording.
ghost use Rattle.std.specs.Prelude.{◌≡◌, IfOk, codes};
ghost use Rattle.recordings.specs.Words.{task_name, call_name};

use crate::call::{Call, Task};
use crate::make::Make;
use crate::reason::Reason;
use crate::{make, words};
use std::alloc::{AllocError, Global};
use std::str::SplitWhitespace;
use tasks::countdown::Countdown;
use tasks::either::Either;
use tasks::letter::Letter;
use tasks::mailbag::Mailbag;
use tasks::ticker::Ticker;
use wakes::waker::RawWaker;

// What a line says, or why it cannot be read.
#[derive(Clone, Copy)]
pub enum Line {
    Make(Result<Make, Reason>),
    Call(Result<Call, Reason>),
}

// The task of that name.
fn named_task(name: &str, words: &mut SplitWhitespace<'_>) -> Result<Task, Reason>
    ensures { IfOk result (λ t. name.now ≡ task_name t) }
{
    match name {
        "countdown" => Ok(Task::Future(Either::Left(Countdown {
            ticket: words::ticket(words)?,
            count: words::next_number(words)?,
            wakes_itself: words::flag(words::word(words)?)?,
        }))),
        "letter" => Ok(Task::Future(Either::Right(Letter {
            ticket: words::ticket(words)?,
            place: words::next_number(words)?,
        }))),
        "ticker" => Ok(Task::Stream(Either::Left(Ticker {
            owner: words::next_number(words)?,
            next: 0,
            items: words::next_number(words)?,
        }))),
        "mailbag" => Ok(Task::Stream(Either::Right(Mailbag {
            owner: words::next_number(words)?,
            next: words::next_number(words)?,
            place: words::next_number(words)?,
        }))),
        _ => Err(Reason::UnknownTask),
    }
}

fn read_task(words: &mut SplitWhitespace<'_>) -> Result<Task, Reason> {
    named_task(words::word(words)?, words)
}

// The call behind its first word, but a poll.
fn other_call(first: &str, words: &mut SplitWhitespace<'_>) -> Result<Call, Reason>
    ensures { IfOk result (λ c. first.now ≡ call_name c) }
{
    match first {
        "push" => Ok(Call::Push(read_task(words)?)),
        "push-back" => Ok(Call::PushBack(read_task(words)?)),
        "push-front" => Ok(Call::PushFront(read_task(words)?)),
        "hand" => Ok(Call::Hand(words::next_number(words)?)),
        "clone" => Ok(Call::Clone(words::token(words)?)),
        "wake" => Ok(Call::Wake(words::token(words)?)),
        "wake-ref" => Ok(Call::WakeByRef(words::token(words)?)),
        "drop" => Ok(Call::Drop(words::token(words)?)),
        "may-end" => Ok(Call::MayEnd),
        "len" => Ok(Call::Len),
        "capacity" => Ok(Call::Capacity),
        _ => Err(Reason::UnknownCall),
    }
}

// The call behind its first word. The post of a poll goes into `post`.
fn read_call(
    first: &str,
    words: &mut SplitWhitespace<'_>,
    post: &mut Vec<u64>,
) -> Result<Call, Reason>
    ensures { IfOk result (λ c. first.now ≡ call_name c) }
{
    if first == "poll" {
        words::read_post(words, post)?;
        return Ok(Call::Poll);
    }
    let call = other_call(first, words)?;
    words::arrow(words)?;
    Ok(call)
}

// Reads the words of a line; a blank line and a comment say nothing. Where it is a call that can be read, the words
// that are left are the answer.
pub fn read(words: &mut SplitWhitespace<'_>, post: &mut Vec<u64>) -> Option<Line> {
    match words.next()? {
        "make" => Some(Line::Make(make::read_make(words))),
        first if first.starts_with('#') => None,
        first => Some(Line::Call(read_call(first, words, post))),
    }
}

// Adds a word, with a space between it and the one before.
fn add(text: &mut String, word: &str) -> Result<(), AllocError> {
    if !text.is_empty() {
        text.push(' ')?;
    }
    text.push_str(word)
}

// The call of a line and its answer, each with one space between its words.
pub fn parts(heap: Global, line: &str) -> Result<(String, String), AllocError> {
    let mut words = line.split_whitespace();
    let mut call = String::new(heap);
    for word in words.by_ref().take_while(|word| *word != "=>") {
        add(&mut call, word)?;
    }
    let mut answer = String::new(heap);
    for word in words {
        add(&mut answer, word)?;
    }
    Ok((call, answer))
}
