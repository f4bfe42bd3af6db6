use slots::slot::Slot;
use wakes::wake_record::WakeRecord;

// The memory that a set was made in, as it is given back.
#[derive(Drop)]
pub struct Memory<'a, F> {
    pub slots: &'a mut [Slot<F>],
    pub records: &'a mut [WakeRecord],
}
