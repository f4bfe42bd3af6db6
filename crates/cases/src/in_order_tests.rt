// Worked runs of the ordered set, on the code.
use ordered::futures_ordered_bounded::FuturesOrderedBounded;
use slots::slot::Slot;
use tasks::countdown::Countdown;
use tasks::either::Either;
use tasks::fault::{Fault, Refused};
use tasks::future::Future;
use tasks::letter::{Delivery, Letter};
use tasks::order_wrapper::OrderWrapper;
use tasks::poll::{Poll, Polled};
use wakes::wake_record::WakeRecord;
use wakes::waker::{RawWaker, Waker};

type Task = Either<Countdown, Letter>;

type Output = Either<(u32, u32), Delivery>;

// Memory that holds anything.
const SLOT: Slot<OrderWrapper<Task>> = Slot::NextFree(9);

const RECORD: WakeRecord = WakeRecord {
    queued: true,
    next: 9,
};

const PLACE: Option<OrderWrapper<Output>> = Some(OrderWrapper {
    data: Either::Left((9, 9)),
    index: 9,
});

fn countdown(owner: u32, count: u32) -> Task {
    Either::Left(Countdown {
        ticket: (owner, 0),
        count,
        wakes_itself: false,
    })
}

fn letter(owner: u32, place: u64) -> Task {
    Either::Right(Letter {
        ticket: (owner, 0),
        place,
    })
}

fn refused(fault: Fault, input: Task) -> Result<usize, Refused<Task>> {
    Err(Refused { fault, input })
}

fn polled(poll: Poll<Option<Output>>, notices: u32, turns: u32) -> Polled<Option<Output>> {
    Polled {
        poll,
        notices,
        turns,
    }
}

fn word(owner: u32, word: u64) -> Poll<Option<Output>> {
    Poll::Ready(Some(Either::Right(Delivery {
        ticket: (owner, 0),
        word,
    })))
}

fn bare(owner: u32) -> Poll<Option<Output>> {
    Poll::Ready(Some(Either::Left((owner, 0))))
}

fn hand(
    set: &mut FuturesOrderedBounded<'_, Task>,
    address: usize,
) -> Result<RawWaker, Refused<usize>> {
    set.hand(address).map(Waker::into_raw)
}

fn wake(
    set: &mut FuturesOrderedBounded<'_, Task>,
    name: u32,
    address: usize,
) -> Result<u32, Refused<RawWaker>> {
    set.wake(Waker::from_raw(RawWaker { name, address }))
        .map_err(|refused| refused.map(Waker::into_raw))
}

// Runs on a set of the name 1 in that memory, which the test lends, and takes it apart.
fn on_a_set<R: FnOnce(&mut FuturesOrderedBounded<'_, Task>)>(
    slots: &mut [Slot<OrderWrapper<Task>>],
    records: &mut [WakeRecord],
    parking: &mut [Option<OrderWrapper<Output>>],
    run: R,
)
    requires { R.IsAlwaysCallable run }
{
    let mut set = FuturesOrderedBounded::new(1, slots, records, parking);
    run(&mut set);
    let _ = set
        .take_apart()
        .unwrap_or_else(|refused| refused.input.abandon());
}

#[test]
fn an_output_waits_its_turn(rt: HostRuntime) {
    on_a_set(&mut [SLOT; 3], &mut [RECORD; 3], &mut [PLACE; 3], |set| {
        assert_eq!(rt; set.push_back(letter(1, 0)), Ok(0));
        assert_eq!(rt; set.push_back(countdown(2, 0)), Ok(1));
        assert_eq!(rt; set.push_front(letter(3, 1)), Ok(2));
        assert_eq!(rt; set.poll(&[0, 0]), polled(Poll::Pending, 0, 3));
        assert_eq!(rt; set.len(), 3);
        assert_eq!(rt;
            hand(set, 0),
            Ok(RawWaker {
                name: 1,
                address: 0
            })
        );
        assert_eq!(rt;
            hand(set, 2),
            Ok(RawWaker {
                name: 1,
                address: 2
            })
        );
        assert_eq!(rt; wake(set, 1, 2), Ok(1));
        assert_eq!(rt; set.poll(&[7, 9]), polled(word(3, 9), 0, 1));
        assert_eq!(rt; wake(set, 1, 0), Ok(1));
        assert_eq!(rt; set.poll(&[7, 9]), polled(word(1, 7), 0, 1));
        assert_eq!(rt; set.len(), 1);
        assert_eq!(rt; set.poll(&[7, 9]), polled(bare(2), 0, 0));
        assert_eq!(rt; set.poll(&[7, 9]), polled(Poll::Ready(None), 0, 0));
        assert_eq!(rt; set.may_end(), Ok(()));
    })
}

#[test]
fn no_place_to_wait(rt: HostRuntime) {
    on_a_set(&mut [SLOT; 3], &mut [RECORD; 3], &mut [PLACE; 1], |set| {
        assert_eq!(rt; set.push_back(letter(1, 0)), Ok(0));
        assert_eq!(rt;
            set.push_back(letter(2, 0)),
            refused(Fault::ParkingFull { places: 1 }, letter(2, 0))
        );
        assert_eq!(rt;
            set.push_front(letter(3, 0)),
            refused(Fault::ParkingFull { places: 1 }, letter(3, 0))
        );
        assert_eq!(rt; set.len(), 1);
        assert_eq!(rt; set.capacity(), 3);
    })
}

#[test]
fn no_parking(rt: HostRuntime) {
    on_a_set(&mut [SLOT; 2], &mut [RECORD; 2], &mut [PLACE; 0], |set| {
        assert_eq!(rt;
            set.push_back(letter(1, 0)),
            refused(Fault::ParkingFull { places: 0 }, letter(1, 0))
        );
        assert_eq!(rt; set.poll(&[]), polled(Poll::Ready(None), 0, 0));
    })
}

#[test]
fn no_slot_in_order(rt: HostRuntime) {
    on_a_set(&mut [SLOT; 0], &mut [RECORD; 2], &mut [PLACE; 2], |set| {
        assert_eq!(rt;
            set.push_front(letter(1, 0)),
            refused(Fault::NoVacantSlot { capacity: 0 }, letter(1, 0))
        );
        assert_eq!(rt; set.capacity(), 0);
        assert_eq!(rt; set.poll(&[]), polled(Poll::Ready(None), 0, 0));
    })
}

#[test]
fn flipped_on_both_sides(rt: HostRuntime) {
    on_a_set(&mut [SLOT; 5], &mut [RECORD; 5], &mut [PLACE; 5], |set| {
        assert_eq!(rt; set.push_back(letter(1, 0)), Ok(0));
        assert_eq!(rt; set.push_back(countdown(2, 0)), Ok(1));
        assert_eq!(rt; set.poll(&[0]), polled(Poll::Pending, 0, 2));
        assert_eq!(rt; set.push_front(letter(3, 0)), Ok(1));
        assert_eq!(rt; set.push_front(countdown(4, 0)), Ok(2));
        assert_eq!(rt; set.len(), 4);
        assert_eq!(rt; set.poll(&[5]), polled(bare(4), 0, 2));
        assert_eq!(rt; set.len(), 3);
        assert_eq!(rt; set.poll(&[5]), polled(word(3, 5), 0, 0));
        assert_eq!(rt; set.poll(&[5]), polled(Poll::Pending, 0, 0));
        assert_eq!(rt;
            hand(set, 0),
            Ok(RawWaker {
                name: 1,
                address: 0
            })
        );
        assert_eq!(rt; wake(set, 1, 0), Ok(1));
        assert_eq!(rt; set.poll(&[5]), polled(word(1, 5), 0, 1));
        assert_eq!(rt; set.poll(&[5]), polled(bare(2), 0, 0));
        assert_eq!(rt; set.poll(&[5]), polled(Poll::Ready(None), 0, 0));
    })
}
