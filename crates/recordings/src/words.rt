// The words of a call, one after the other.
ghost use Rattle.std.proofs.Common.{rules};
ghost use Rattle.std.specs.Prelude.{◌≡◌, ℕ, List, IfOk, Result};
ghost use Rattle.recordings.specs.Words.{Decimal, Parses, Named, flag_word};

use crate::reason::Reason;
use std::num::ParseIntError;
use std::str::{FromStr, SplitWhitespace};
use wakes::waker::RawWaker;

// An unsigned number of so many bits.
pub trait Unsigned: FromStr<Err = ParseIntError> {
    ghost bits: { ℕ };

    ghost value: { Self → ℕ };

    // which texts `parse` reads, and as what
    ghost parses: { Parses Self.from_str_gives bits value };
}

impl Unsigned for u32 {
    ghost bits = { 32 };

    ghost value = { λ n. n };

    ghost parses = { Prim.search rules };
}

impl Unsigned for u64 {
    ghost bits = { 64 };

    ghost value = { λ n. n };

    ghost parses = { Prim.search rules };
}

impl Unsigned for usize {
    ghost bits = { 64 };

    ghost value = { λ n. n };

    ghost parses = { Prim.search rules };
}

// The next word of the call.
pub fn word<'a>(words: &mut SplitWhitespace<'a>) -> Result<&'a str, Reason> {
    match words.next() {
        None => Err(Reason::NoAnswer),
        Some("=>") => Err(Reason::MissingWord),
        Some(word) => Ok(word),
    }
}

// The end of the call: behind the word `=>` stands the answer.
pub fn arrow(words: &mut SplitWhitespace<'_>) -> Result<(), Reason> {
    match words.next() {
        None => Err(Reason::NoAnswer),
        Some("=>") => Ok(()),
        Some(_) => Err(Reason::ExtraWord),
    }
}

// A decimal number, without a sign.
pub fn number<N: Unsigned>(word: &str) -> Result<N, Reason>
    ensures { Decimal N.bits N.value word.now result }
{
    if word.starts_with('+') {
        return Err(Reason::BadNumber);
    }
    Ok(word.parse()?)
}

// A flag is 0 or 1; `parse` would read the words `true` and `false`.
pub fn flag(word: &str) -> Result<bool, Reason>
    ensures { Named flag_word word.now result }
{
    match word {
        "0" => Ok(false),
        "1" => Ok(true),
        _ => Err(Reason::BadNumber),
    }
}

pub fn next_number<N: Unsigned>(words: &mut SplitWhitespace<'_>) -> Result<N, Reason> {
    number(word(words)?)
}

pub fn ticket(words: &mut SplitWhitespace<'_>) -> Result<(u32, u32), Reason> {
    Ok((next_number(words)?, next_number(words)?))
}

// A token is told by its name and its address.
pub fn token(words: &mut SplitWhitespace<'_>) -> Result<RawWaker, Reason> {
    Ok(RawWaker {
        name: next_number(words)?,
        address: next_number(words)?,
    })
}

// The words of the post, up to the end of the call.
pub fn read_post(words: &mut SplitWhitespace<'_>, post: &mut Vec<u64>) -> Result<(), Reason> {
    post.clear();
    for word in words {
        if word == "=>" {
            return Ok(());
        }
        post.push(number(word)?)?;
    }
    Err(Reason::NoAnswer)
}
