// The desk: one set of waiting orders, the post where replies arrive, and the tokens that are out.
ghost use Rattle.std.specs.Prelude.{◌≡◌, ◌+◌, ◌<◌, set as set_at, true, vec_len, MatchOption, OnOk};
ghost use Rattle.std.specs.Fn.{FnReturnsAt};
ghost use Rattle.runs.specs.Calls.{drop as DropCall};
ghost use Rattle.sets.specs.Bounded.{step};
ghost use Rattle.sets.specs.BoundedSet.{set_of};
ghost use Rattle.tasks.specs.Kinds.{word_at, letter_acts};

use crate::script;
use crate::script::{Command, Opening};
use sets::futures_unordered_bounded::FuturesUnorderedBounded;
use slots::slot::Slot;
use std::alloc::Global;
use std::io;
use tasks::fault::Refused;
use tasks::future::Future;
use tasks::letter::{Delivery, Letter};
use tasks::poll::{Poll, Polled};
use tasks::post::word_at;
use wakes::wake_record::WakeRecord;
use wakes::waker::{RawWaker, Waker};

type Orders<'a> = FuturesUnorderedBounded<'a, Letter>;

// The shutdown polls at most that often. One poll for each of 65,535 orders, and one for every 61 turns besides, is less.
const MOST_POLLS: u32 = 200000;

// An order that no reply has woken yet, with the two numbers of its token.
#[derive(Clone, Copy)]
struct Waiting {
    letter: Letter,
    raw: RawWaker,
}

// What the desk writes down beside its set.
#[derive(Drop)]
struct Book {
    post: Vec<u64>,
    waiting: Vec<Waiting>,
    accepted: u64,
    answered: u64,
    unanswered: u64,
}

// The desk: its handle, the set of the orders, and its book. The set has to be taken apart at the end, and has a lifetime of its
// own: under one with the handle the checker does not cover it.
struct Desk<'r, 'a> {
    rt: &'r HostRuntime,
    set: Orders<'a>,
    book: Book,
}

// Takes out the first order of which that is true.
fn take_first<P: Fn(&Waiting) -> bool>(waiting: &mut Vec<Waiting>, wanted: P) -> Option<Waiting>
    requires { P.IsAlwaysCallable wanted }
    ensures { MatchOption result (vec_len waiting.new ≡ vec_len waiting.old) (λ w. FnReturnsAt P.Fn wanted w true × (vec_len waiting.new + 1 ≡ vec_len waiting.old)) }
{
    let at = waiting.iter().position(wanted)?;
    Some(waiting.remove(at))
}

// Takes out the first order that waits at that place.
fn take_at(waiting: &mut Vec<Waiting>, place: u64) -> Option<Waiting>
    ensures { MatchOption result (vec_len waiting.new ≡ vec_len waiting.old) (λ w. (w.letter.place ≡ place) × (vec_len waiting.new + 1 ≡ vec_len waiting.old)) }
{
    take_first(waiting, |order| order.letter.place == place)
}

// Takes out the order that a poll yielded, where it was not woken.
fn take_yielded(waiting: &mut Vec<Waiting>, post: &[u64], delivery: Delivery) -> Option<Waiting>
    ensures { MatchOption result (vec_len waiting.new ≡ vec_len waiting.old) (λ w. (w.letter.ticket ≡ delivery.ticket) × (word_at post.now w.letter.place ≡ delivery.word) × (vec_len waiting.new + 1 ≡ vec_len waiting.old)) }
{
    take_first(waiting, |order| {
        order.letter.ticket == delivery.ticket && word_at(post, order.letter.place) == delivery.word
    })
}

// Puts a word into the post.
fn put(post: &mut Vec<u64>, place: u64, word: u64)
    ensures { place < vec_len post.old → post.new.items ≡ set_at post.old.items place word }
{
    let at = place as usize;
    if at < post.len() {
        post[at] = word;
    }
}

// A token that the set refused: the desk says why, and lets its numbers go.
fn given_back(rt: &HostRuntime, refused: Refused<Waker>) -> io::Result<()> {
    let Refused { fault, input } = refused;
    let RawWaker { address, .. } = input.into_raw();
    println!(rt; "token of address {address} refused: {fault}")
}

// Prints what a poll answered.
fn show(rt: &HostRuntime, polled: Polled<Option<Delivery>>) -> io::Result<()> {
    let Polled {
        poll,
        notices,
        turns,
    } = polled;
    match poll {
        Poll::Pending => println!(rt; "poll: pending, notices {notices}, turns {turns}"),
        Poll::Ready(None) => println!(rt; "poll: none, notices {notices}, turns {turns}"),
        Poll::Ready(Some(Delivery { ticket, word })) => {
            let (client, number) = ticket;
            if word == script::NO_ANSWER {
                return println!(rt;
                    "poll: no answer for {client}/{number}, notices {notices}, turns {turns}"
                );
            }
            println!(rt;
                "poll: reply {word} for {client}/{number}, notices {notices}, turns {turns}"
            )
        }
    }
}

impl Book {
    // A book with nothing in it; every word of the post is 0. It is no Default, since a Vec is made with its allocator.
    fn new(heap: Global) -> io::Result<Book> {
        Ok(Book {
            post: vec![in heap; 0; script::PLACES]?,
            waiting: Vec::new(heap),
            accepted: 0,
            answered: 0,
            unanswered: 0,
        })
    }
}

impl Desk<'_, '_> {
    // Spends the token of an order, and wakes nothing.
    fn drop_token(&mut self, raw: RawWaker) -> io::Result<()>
        ensures set { set_of self.new.set ≡ (step letter_acts (set_of self.old.set) (DropCall (record { name = raw.name; address = raw.address }))).0 }
        ensures book { self.new.book ≡ self.old.book }
    {
        self.set
            .drop(Waker::from_raw(raw))
            .or_else(|refused| given_back(self.rt, refused))
    }

    // Hands out the token of a new order, and keeps its two numbers.
    fn keep_token(&mut self, letter: Letter, address: usize) -> io::Result<()>
        ensures { OnOk result ((set_of self.new.set).out + vec_len self.old.book.waiting ≡ (set_of self.old.set).out + vec_len self.new.book.waiting) }
    {
        match self.set.hand(address) {
            Ok(token) => {
                let raw = token.into_raw();
                self.book.waiting.push(Waiting { letter, raw })?;
                Ok(())
            }
            Err(Refused { fault, .. }) => {
                println!(self.rt; "no token for address {address}: {fault}")
            }
        }
    }

    // Puts an order into the set, or says why it was refused.
    fn order(&mut self, letter: Letter) -> io::Result<()> {
        let (client, number) = letter.ticket;
        match self.set.push(letter) {
            Ok(address) => {
                self.book.accepted = self.book.accepted.saturating_add(1);
                println!(self.rt; "order {client}/{number} accepted at {address}")?;
                self.keep_token(letter, address)
            }
            Err(Refused { fault, input }) => {
                let (owner, own_number) = input.ticket;
                println!(self.rt;
                    "order {client}/{number} refused: {fault}; ticket {owner}/{own_number} handed back"
                )
            }
        }
    }

    // The reply arrives in the post, and wakes the orders that wait for it.
    fn reply(&mut self, place: u64, word: u64) -> io::Result<()> {
        put(&mut self.book.post, place, word);
        let waited = self.book.waiting.len();
        while let Some(order) = take_at(&mut self.book.waiting, place) {
            let token = Waker::from_raw(order.raw);
            let address = token.address();
            match self.set.wake(token) {
                Ok(notice) => {
                    println!(self.rt;
                        "reply at {place}: word {word}; woke address {address}, notice {notice}"
                    )?;
                }
                Err(refused) => given_back(self.rt, refused)?,
            }
        }
        if self.book.waiting.len() == waited {
            println!(self.rt; "reply at {place}: word {word}; nobody waits")?;
        }
        Ok(())
    }

    // Counts an order that was yielded, and drops its token where no reply spent it.
    fn settle(&mut self, delivery: Delivery) -> io::Result<()> {
        if delivery.word == script::NO_ANSWER {
            self.book.unanswered = self.book.unanswered.saturating_add(1);
        } else {
            self.book.answered = self.book.answered.saturating_add(1);
        }
        let post = self.book.post.as_slice();
        if let Some(order) = take_yielded(&mut self.book.waiting, post, delivery) {
            self.drop_token(order.raw)?;
        }
        Ok(())
    }

    // One poll of the set with the post.
    fn poll(&mut self) -> io::Result<Polled<Option<Delivery>>> {
        let polled = self.set.poll(self.book.post.as_slice());
        show(self.rt, polled)?;
        if let Poll::Ready(Some(delivery)) = polled.poll {
            self.settle(delivery)?;
        }
        Ok(polled)
    }

    // Prints how many orders the set holds.
    fn held(&self) -> io::Result<()> {
        println!(self.rt; "held {} of {}", self.set.len(), self.set.capacity())
    }

    // Nobody would wake the orders that still wait, and their words are still 0: the desk answers for them, and wakes
    // them.
    fn give_up(&mut self) -> io::Result<()> {
        self.book.waiting.reverse();
        while let Some(order) = self.book.waiting.pop() {
            let Letter {
                ticket: (client, number),
                place,
            } = order.letter;
            put(&mut self.book.post, place, script::NO_ANSWER);
            println!(self.rt; "closing: order {client}/{number} unanswered at place {place}")?;
            if let Err(refused) = self.set.wake(Waker::from_raw(order.raw)) {
                given_back(self.rt, refused)?;
            }
        }
        Ok(())
    }

    // The end of the day: polls until no order is held.
    fn close(&mut self) -> io::Result<()> {
        for _ in 0..MOST_POLLS {
            let polled = self.poll()?;
            match polled.poll {
                Poll::Ready(None) => break,
                Poll::Pending if polled.notices == 0 => self.give_up()?,
                Poll::Ready(Some(_)) | Poll::Pending => {}
            }
        }
        println!(self.rt;
            "accepted {}, answered {}, unanswered {}, held {}",
            self.book.accepted,
            self.book.answered,
            self.book.unanswered,
            self.set.len()
        )
    }

    // Drops the tokens that are still kept, and asks whether the set may be taken apart.
    fn drop_tokens(&mut self) -> io::Result<()> {
        while let Some(order) = self.book.waiting.pop() {
            self.drop_token(order.raw)?;
        }
        if let Err(fault) = self.set.may_end() {
            println!(self.rt; "the set may not end: {fault}")?;
        }
        Ok(())
    }

    // The day's commands, and then the end of the day.
    fn day(&mut self, lines: &[String], done: usize) -> io::Result<()> {
        for (at, line) in lines.iter().enumerate().skip(done) {
            let text = line.as_str();
            if script::is_silent(text) {
                continue;
            }
            match script::parse(text) {
                Some(Command::Order(letter)) => self.order(letter)?,
                Some(Command::Reply { place, word }) => self.reply(place, word)?,
                Some(Command::Poll) => {
                    self.poll()?;
                }
                Some(Command::Held) => self.held()?,
                Some(Command::End) => break,
                Some(Command::Open { .. }) | None => {
                    println!(self.rt; "line {}: cannot be read: {text}", at.saturating_add(1))?;
                }
            }
        }
        self.close()?;
        self.drop_tokens()
    }
}

// The lines of the script. One that is not UTF-8 is kept as a line that cannot be read. (The player of recordings does so line
// by line; no crate below both has to do with input.)
fn read(rt: &HostRuntime) -> io::Result<Vec<String>> {
    let heap = rt.alloc();
    let mut lines = Vec::new(heap);
    for line in rt.lines(heap) {
        match line {
            Ok(text) => lines.push(text)?,
            Err(error) if error.kind() == io::ErrorKind::InvalidData => {
                lines.push(String::from_str(heap, "(not UTF-8)")?)?
            }
            Err(error) => return Err(error),
        }
    }
    Ok(lines)
}

// Says how the desk opens.
fn opened(rt: &HostRuntime, lines: &[String]) -> io::Result<Opening> {
    match script::first_opening(lines) {
        Some(opening) => {
            println!(rt; "desk {} open, slots {}", opening.name, opening.slots)?;
            Ok(opening)
        }
        None => {
            let opening = Opening::default();
            println!(rt;
                "no good open comes first: desk {} open, slots {}",
                opening.name, opening.slots
            )?;
            Ok(opening)
        }
    }
}

// Reads the script, and runs its day on one set. Where printing failed, tokens can be out at the end, and the desk tells so; a
// function that takes its set and gives nothing back is not covered.
pub fn run(rt: &HostRuntime) -> io::Result<()> {
    let heap = rt.alloc();
    let lines = read(rt)?;
    let opening = opened(rt, lines.as_slice())?;
    let mut slots: Vec<Slot<Letter>> = vec![in heap; Slot::NextFree(0); opening.slots]?;
    let mut records = vec![in heap; WakeRecord::default(); opening.slots]?;
    let book = Book::new(heap)?;
    let set = FuturesUnorderedBounded::new(
        opening.name,
        slots.as_mut_slice(),
        records.as_mut_slice(),
    );
    let mut desk = Desk { rt, set, book };
    let outcome = desk.day(lines.as_slice(), opening.lines);
    let Desk {
        rt: _,
        set,
        book: _,
    } = desk;
    match set.take_apart() {
        Ok(_) => println!(rt; "set taken apart")?,
        Err(Refused { fault, input }) => {
            let _ = input.abandon();
            println!(rt; "set abandoned: {fault}")?;
        }
    }
    outcome
}
