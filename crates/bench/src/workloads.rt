use sets::futures_unordered_bounded::FuturesUnorderedBounded;
use slots::slot::Slot;
use std::alloc::{AllocError, Global};
use tasks::countdown::Countdown;
use tasks::future::Future;
use tasks::letter::Letter;
use tasks::poll::Poll;
use wakes::wake_record::WakeRecord;
use wakes::waker::{RawWaker, Waker};

// Runs a workload on a set of that capacity, in memory that is made for it and freed again. (Replay, the desk and the tests make
// theirs alike: where there is no memory, each goes on in another way, and the desk alone tells the fault at the end.)
pub(crate) fn on_a_set<F: Future + Copy, R, W: FnOnce(&mut FuturesUnorderedBounded<'_, F>) -> R>(
    heap: Global,
    capacity: u32,
    workload: W,
) -> Result<R, AllocError>
    requires { W.IsAlwaysCallable workload }
{
    // The records come first: with the slots first, filling and draining took a tenth longer.
    let mut records = vec![in heap; WakeRecord::default(); capacity as usize]?;
    let mut slots: Vec<Slot<F>> = vec![in heap; Slot::NextFree(0); capacity as usize]?;
    let mut set = FuturesUnorderedBounded::new(1, slots.as_mut_slice(), records.as_mut_slice());
    let answer = workload(&mut set);
    let _ = set
        .take_apart()
        .unwrap_or_else(|refused| refused.input.abandon());
    Ok(answer)
}

// A future that is ready at its first poll.
fn ready(number: u32) -> Countdown {
    Countdown {
        ticket: (0, number),
        count: 0,
        wakes_itself: false,
    }
}

// The number of the ticket that a poll yields, or 0: it is added to a checksum.
fn yielded(set: &mut FuturesUnorderedBounded<Countdown>) -> u64 {
    match set.poll(&[]).poll {
        Poll::Ready(Some((_, number))) => number as u64,
        Poll::Ready(None) | Poll::Pending => 0,
    }
}

// So many futures, numbered from 0, go through the set, which is kept full.
pub(crate) fn keep_full(set: &mut FuturesUnorderedBounded<Countdown>, futures: u32) -> u64 {
    let mut sum: u64 = 0;
    for number in 0..futures {
        if let Err(refused) = set.push(ready(number)) {
            sum = sum.wrapping_add(yielded(set));
            let _ = set.push(refused.input);
        }
    }
    // Each future that is left is ready. A loop until the set says None would poll once more than the crate's side does.
    for _ in 0..set.len() {
        sum = sum.wrapping_add(yielded(set));
    }
    sum
}

// The set is filled and drained, so many times.
pub(crate) fn fill_and_drain(
    set: &mut FuturesUnorderedBounded<Countdown>,
    capacity: u32,
    rounds: u32,
) -> u64 {
    let mut sum: u64 = 0;
    for _ in 0..rounds {
        for number in 0..capacity {
            let _ = set.push(ready(number));
        }
        for _ in 0..capacity {
            sum = sum.wrapping_add(yielded(set));
        }
    }
    sum
}

// Letters fill the set. Each waits for the word at a place of its own, and no word comes.
fn fill_with_letters(set: &mut FuturesUnorderedBounded<Letter>, capacity: u32) {
    for number in 0..capacity {
        let _ = set.push(Letter {
            ticket: (0, number),
            place: number as u64,
        });
    }
}

// Hands out the token of every slot, and keeps its numbers.
fn hand_all(
    heap: Global,
    set: &mut FuturesUnorderedBounded<Letter>,
) -> Result<Vec<RawWaker>, AllocError> {
    let mut tokens = Vec::new(heap);
    for address in 0..set.capacity() {
        if let Ok(token) = set.hand(address) {
            tokens.push(token.into_raw())?;
        }
    }
    Ok(tokens)
}

// Wakes the slots one at a time, each by its token, and polls after each wake; adds up notices and turns.
fn wake_each(
    set: &mut FuturesUnorderedBounded<Letter>,
    tokens: &[RawWaker],
    post: &[u64],
    rounds: u32,
) -> u64 {
    let mut sum: u64 = 0;
    for _ in 0..rounds {
        for raw in tokens {
            let token = Waker::from_raw(*raw);
            if let Ok(notices) = set.wake_by_ref(&token) {
                sum = sum.wrapping_add(notices as u64);
            }
            let _ = token.into_raw();
            sum = sum.wrapping_add(set.poll(post).turns as u64);
        }
    }
    sum
}

// Letters fill the set and wait; one after the other is woken by its token, so many rounds, with a poll after each wake.
pub(crate) fn wake_waiting(
    heap: Global,
    set: &mut FuturesUnorderedBounded<Letter>,
    capacity: u32,
    rounds: u32,
) -> Result<u64, AllocError> {
    let post = vec![in heap; 0; capacity as usize]?;
    fill_with_letters(set, capacity);
    for _ in 0..capacity {
        set.poll(post.as_slice());
    }
    let tokens = hand_all(heap, set)?;
    Ok(wake_each(set, tokens.as_slice(), post.as_slice(), rounds))
}
