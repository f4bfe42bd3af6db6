// The workloads as C sees them. C has no Result: where there is no memory, the answer is 0.
ghost use Rattle.std.specs.Prelude.{◌≡◌};

use crate::workloads::{fill_and_drain, keep_full, on_a_set, wake_waiting};
use slots::slot::Slot;
use std::alloc::Global;
use tasks::countdown::Countdown;
use wakes::wake_record::WakeRecord;

#[unsafe(no_mangle)]
pub extern "C" fn bench_keep_full(heap: Global, capacity: u32, futures: u32) -> u64 {
    on_a_set(heap, capacity, |set| keep_full(set, futures)).unwrap_or(0)
}

#[unsafe(no_mangle)]
pub extern "C" fn bench_fill_and_drain(heap: Global, capacity: u32, rounds: u32) -> u64 {
    on_a_set(heap, capacity, |set| {
        fill_and_drain(set, capacity, rounds)
    })
    .unwrap_or(0)
}

#[unsafe(no_mangle)]
pub extern "C" fn bench_wake_waiting(heap: Global, capacity: u32, rounds: u32) -> u64 {
    on_a_set(heap, capacity, |set| {
        wake_waiting(heap, set, capacity, rounds)
    })
    .and_then(|sum| sum)
    .unwrap_or(0)
}

// The bytes of one slot, and of its wake record.
#[unsafe(no_mangle)]
pub extern "C" fn bench_slot_bytes() -> usize
    ensures { result ≡ 24 }
{
    size_of::<Slot<Countdown>>()
}

#[unsafe(no_mangle)]
pub extern "C" fn bench_record_bytes() -> usize
    ensures { result ≡ 16 }
{
    size_of::<WakeRecord>()
}
