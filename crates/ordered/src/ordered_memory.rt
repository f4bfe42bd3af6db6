use sets::memory::Memory;
use tasks::order_wrapper::OrderWrapper;

// The memory that an ordered set was made in, as it is given back: that of its tasks, and its parking.
#[derive(Drop)]
pub struct OrderedMemory<'a, F, O> {
    pub tasks: Memory<'a, OrderWrapper<F>>,
    pub parking: &'a mut [Option<OrderWrapper<O>>],
}
