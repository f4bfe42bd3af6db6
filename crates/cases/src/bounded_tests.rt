// The worked runs once more, on the code.
use sets::futures_unordered_bounded::FuturesUnorderedBounded;
use slots::slot::Slot;
use std::process::Abort;
use tasks::countdown::Countdown;
use tasks::either::Either;
use tasks::fault::{Fault, Refused};
use tasks::future::Future;
use tasks::letter::{Delivery, Letter};
use tasks::poll::{Poll, Polled};
use wakes::wake_record::WakeRecord;
use wakes::waker::{RawWaker, Waker};

type Task = Either<Countdown, Letter>;

type Output = Either<(u32, u32), Delivery>;

// Memory that holds anything.
const SLOT: Slot<Task> = Slot::NextFree(9);

const RECORD: WakeRecord = WakeRecord {
    queued: true,
    next: 9,
};

fn countdown(owner: u32, count: u32, wakes_itself: bool) -> Task {
    Either::Left(Countdown {
        ticket: (owner, 0),
        count,
        wakes_itself,
    })
}

fn letter(owner: u32, place: u64) -> Task {
    Either::Right(Letter {
        ticket: (owner, 0),
        place,
    })
}

fn refused(fault: Fault, input: Task) -> Result<usize, Refused<Task>> {
    Err(Refused { fault, input })
}

fn pending(notices: u32, turns: u32) -> Polled<Option<Output>> {
    Polled {
        poll: Poll::Pending,
        notices,
        turns,
    }
}

fn none() -> Polled<Option<Output>> {
    Polled {
        poll: Poll::Ready(None),
        notices: 0,
        turns: 0,
    }
}

fn ready(output: Output, notices: u32, turns: u32) -> Polled<Option<Output>> {
    Polled {
        poll: Poll::Ready(Some(output)),
        notices,
        turns,
    }
}

fn raw(name: u32, address: usize) -> RawWaker {
    RawWaker { name, address }
}

// A refused token, told by its numbers.
fn told(refusal: Refused<Waker>) -> Refused<RawWaker> {
    refusal.map(Waker::into_raw)
}

// Lends a token to a call. It is let go by its numbers afterwards, and stays out.
fn lent<R, C: FnOnce(&Waker) -> R>(token: RawWaker, call: C) -> R
    requires { C.IsAlwaysCallable call }
{
    let token = Waker::from_raw(token);
    let answer = call(&token);
    let _ = token.into_raw();
    answer
}

// What a token call answers, as plain values: a token is told by its numbers. Where recordings are carried out the same
// calls answer in their words, so these stand here too.
fn hand(
    set: &mut FuturesUnorderedBounded<Task>,
    address: usize,
) -> Result<RawWaker, Refused<usize>> {
    set.hand(address).map(Waker::into_raw)
}

fn clone(set: &mut FuturesUnorderedBounded<Task>, token: RawWaker) -> Result<RawWaker, Fault> {
    lent(token, |token| set.clone(token)).map(Waker::into_raw)
}

fn wake(
    set: &mut FuturesUnorderedBounded<Task>,
    token: RawWaker,
) -> Result<u32, Refused<RawWaker>> {
    set.wake(Waker::from_raw(token)).map_err(told)
}

fn wake_by_ref(set: &mut FuturesUnorderedBounded<Task>, token: RawWaker) -> Result<u32, Fault> {
    lent(token, |token| set.wake_by_ref(token))
}

fn spend(
    set: &mut FuturesUnorderedBounded<Task>,
    token: RawWaker,
) -> Result<(), Refused<RawWaker>> {
    set.drop(Waker::from_raw(token)).map_err(told)
}

// Runs on a set of the name 1 in that memory, which the test lends and nobody allocates, and takes it apart.
fn on_a_set<R: FnOnce(&mut FuturesUnorderedBounded<'_, Task>)>(
    slots: &mut [Slot<Task>],
    records: &mut [WakeRecord],
    run: R,
)
    requires { R.IsAlwaysCallable run }
{
    let mut set = FuturesUnorderedBounded::new(1, slots, records);
    run(&mut set);
    let _ = set
        .take_apart()
        .unwrap_or_else(|refused| refused.input.abandon());
}

#[test]
fn no_slot(rt: HostRuntime) {
    on_a_set(&mut [SLOT; 0], &mut [RECORD; 0], |set| {
        assert_eq!(rt;
            set.push(letter(1, 0)),
            refused(Fault::NoVacantSlot { capacity: 0 }, letter(1, 0))
        );
        assert_eq!(rt; set.poll(&[]), none());
    })
}

#[test]
fn two_slots(rt: HostRuntime) {
    on_a_set(&mut [SLOT; 2], &mut [RECORD; 2], |set| {
        assert_eq!(rt; set.push(letter(1, 0)), Ok(0));
        assert_eq!(rt; set.push(letter(2, 0)), Ok(1));
        assert_eq!(rt;
            set.push(letter(3, 0)),
            refused(Fault::NoVacantSlot { capacity: 2 }, letter(3, 0))
        );
        assert_eq!(rt; set.len(), 2);
        assert_eq!(rt; set.capacity(), 2);
    })
}

#[test]
fn lesser_memory(rt: HostRuntime) {
    on_a_set(&mut [SLOT; 3], &mut [RECORD; 1], |set| {
        assert_eq!(rt; set.push(letter(1, 0)), Ok(0));
        assert_eq!(rt;
            set.push(letter(2, 0)),
            refused(Fault::NoVacantSlot { capacity: 1 }, letter(2, 0))
        );
        assert_eq!(rt; set.capacity(), 1);
    })
}

fn push_letters(rt: &impl Abort, set: &mut FuturesUnorderedBounded<Task>, n: usize) {
    for i in 0..n {
        assert_eq!(rt; set.push(letter(1, 0)), Ok(i));
    }
}

#[test]
fn sixty(rt: HostRuntime) {
    on_a_set(&mut [SLOT; 61], &mut [RECORD; 61], |set| {
        push_letters(&rt, set, 60);
        assert_eq!(rt; set.poll(&[]), pending(0, 60));
    })
}

#[test]
fn sixty_two(rt: HostRuntime) {
    on_a_set(&mut [SLOT; 62], &mut [RECORD; 62], |set| {
        push_letters(&rt, set, 62);
        assert_eq!(rt; set.poll(&[]), pending(1, 61));
        assert_eq!(rt; hand(set, 0), Ok(raw(1, 0)));
        assert_eq!(rt; wake(set, raw(1, 0)), Ok(1));
        assert_eq!(rt; set.poll(&[]), pending(0, 2));
    })
}

#[test]
fn sixty_one(rt: HostRuntime) {
    on_a_set(&mut [SLOT; 61], &mut [RECORD; 61], |set| {
        push_letters(&rt, set, 61);
        assert_eq!(rt; set.poll(&[]), pending(1, 61));
    })
}

#[test]
fn two_wakes(rt: HostRuntime) {
    on_a_set(&mut [SLOT; 1], &mut [RECORD; 1], |set| {
        assert_eq!(rt; set.push(letter(1, 0)), Ok(0));
        assert_eq!(rt; set.poll(&[0]), pending(0, 1));
        assert_eq!(rt; hand(set, 0), Ok(raw(1, 0)));
        assert_eq!(rt; wake_by_ref(set, raw(1, 0)), Ok(1));
        assert_eq!(rt; wake_by_ref(set, raw(1, 0)), Ok(0));
        assert_eq!(rt; set.poll(&[0]), pending(0, 1));
        assert_eq!(rt; set.poll(&[7]), pending(0, 0));
        assert_eq!(rt; wake(set, raw(1, 0)), Ok(1));
        assert_eq!(rt;
            set.poll(&[7]),
            ready(
                Either::Right(Delivery {
                    ticket: (1, 0),
                    word: 7,
                }),
                0,
                1,
            )
        );
        assert_eq!(rt; set.may_end(), Ok(()));
    })
}

#[test]
fn reused_slot(rt: HostRuntime) {
    on_a_set(&mut [SLOT; 1], &mut [RECORD; 1], |set| {
        assert_eq!(rt; set.push(countdown(1, 0, false)), Ok(0));
        assert_eq!(rt; hand(set, 0), Ok(raw(1, 0)));
        assert_eq!(rt; set.poll(&[]), ready(Either::Left((1, 0)), 0, 1));
        assert_eq!(rt; wake(set, raw(1, 0)), Ok(1));
        assert_eq!(rt; set.push(countdown(2, 0, false)), Ok(0));
        assert_eq!(rt; set.poll(&[]), ready(Either::Left((2, 0)), 0, 1));
        assert_eq!(rt; set.poll(&[]), none());
    })
}

#[test]
fn self_wake(rt: HostRuntime) {
    on_a_set(&mut [SLOT; 1], &mut [RECORD; 1], |set| {
        assert_eq!(rt; set.push(countdown(1, 2, true)), Ok(0));
        assert_eq!(rt; set.poll(&[]), ready(Either::Left((1, 0)), 1, 3));
    })
}

#[test]
fn last_vacated(rt: HostRuntime) {
    on_a_set(&mut [SLOT; 3], &mut [RECORD; 3], |set| {
        assert_eq!(rt; set.push(countdown(1, 0, false)), Ok(0));
        assert_eq!(rt; set.push(countdown(2, 0, false)), Ok(1));
        assert_eq!(rt; set.poll(&[]), ready(Either::Left((1, 0)), 0, 1));
        assert_eq!(rt; set.poll(&[]), ready(Either::Left((2, 0)), 0, 1));
        assert_eq!(rt; set.push(countdown(3, 0, false)), Ok(1));
        assert_eq!(rt; set.push(countdown(4, 0, false)), Ok(0));
        assert_eq!(rt; set.push(countdown(5, 0, false)), Ok(2));
    })
}

fn no_token_out(rt: &impl Abort, set: &mut FuturesUnorderedBounded<Task>) {
    assert_eq!(rt; set.push(letter(1, 0)), Ok(0));
    assert_eq!(rt;
        hand(set, 1),
        Err(Refused {
            fault: Fault::NoSuchSlot { address: 1 },
            input: 1,
        })
    );
    assert_eq!(rt;
        hand(set, 2),
        Err(Refused {
            fault: Fault::NoSuchSlot { address: 2 },
            input: 2,
        })
    );
    assert_eq!(rt;
        wake(set, raw(1, 0)),
        Err(Refused {
            fault: Fault::NoTokenOut,
            input: raw(1, 0),
        })
    );
    assert_eq!(rt; set.may_end(), Ok(()));
}

fn one_token_out(rt: &impl Abort, set: &mut FuturesUnorderedBounded<Task>) {
    assert_eq!(rt; hand(set, 0), Ok(raw(1, 0)));
    assert_eq!(rt; set.may_end(), Err(Fault::TokensOut { count: 1 }));
    assert_eq!(rt;
        wake(set, raw(7, 9)),
        Err(Refused {
            fault: Fault::OtherName { name: 7 },
            input: raw(7, 9),
        })
    );
    assert_eq!(rt;
        spend(set, raw(7, 0)),
        Err(Refused {
            fault: Fault::OtherName { name: 7 },
            input: raw(7, 0),
        })
    );
    assert_eq!(rt;
        clone(set, raw(1, 2)),
        Err(Fault::NoSuchSlot { address: 2 })
    );
    assert_eq!(rt;
        wake_by_ref(set, raw(1, 2)),
        Err(Fault::NoSuchSlot { address: 2 })
    );
    assert_eq!(rt; set.may_end(), Err(Fault::TokensOut { count: 1 }));
}

fn two_tokens_out(rt: &impl Abort, set: &mut FuturesUnorderedBounded<Task>) {
    assert_eq!(rt; clone(set, raw(1, 1)), Ok(raw(1, 1)));
    assert_eq!(rt; set.may_end(), Err(Fault::TokensOut { count: 2 }));
    assert_eq!(rt; spend(set, raw(1, 1)), Ok(()));
    assert_eq!(rt; wake(set, raw(1, 0)), Ok(0));
    assert_eq!(rt;
        spend(set, raw(1, 0)),
        Err(Refused {
            fault: Fault::NoTokenOut,
            input: raw(1, 0),
        })
    );
    assert_eq!(rt; set.may_end(), Ok(()));
    assert_eq!(rt; set.len(), 1);
}

#[test]
fn refusals(rt: HostRuntime) {
    on_a_set(&mut [SLOT; 2], &mut [RECORD; 2], |set| {
        no_token_out(&rt, set);
        one_token_out(&rt, set);
        two_tokens_out(&rt, set);
    })
}

fn hand_out_most(rt: &impl Abort, set: &mut FuturesUnorderedBounded<Task>) {
    assert_eq!(rt; set.push(letter(1, 0)), Ok(0));
    for _ in 0..65535 {
        assert_eq!(rt; hand(set, 0), Ok(raw(1, 0)));
    }
}

#[test]
fn most_tokens(rt: HostRuntime) {
    on_a_set(&mut [SLOT; 2], &mut [RECORD; 2], |set| {
        hand_out_most(&rt, set);
        assert_eq!(rt;
            hand(set, 0),
            Err(Refused {
                fault: Fault::TooManyTokens { out: 65535 },
                input: 0,
            })
        );
        assert_eq!(rt;
            hand(set, 1),
            Err(Refused {
                fault: Fault::NoSuchSlot { address: 1 },
                input: 1,
            })
        );
        assert_eq!(rt;
            clone(set, raw(1, 0)),
            Err(Fault::TooManyTokens { out: 65535 })
        );
        assert_eq!(rt;
            clone(set, raw(1, 5)),
            Err(Fault::NoSuchSlot { address: 5 })
        );
        assert_eq!(rt; clone(set, raw(2, 0)), Err(Fault::OtherName { name: 2 }));
        assert_eq!(rt; spend(set, raw(1, 0)), Ok(()));
        assert_eq!(rt; hand(set, 0), Ok(raw(1, 0)));
        assert_eq!(rt; set.may_end(), Err(Fault::TokensOut { count: 65535 }));
    })
}
