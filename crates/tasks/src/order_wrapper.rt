ghost use Rattle.std.specs.Prelude.{◌≡◌};
ghost use Rattle.tasks.specs.Kinds.{wrapped_acts};
ghost use Rattle.tasks.specs.Orders.{index_flipped};
ghost use Rattle.std.proofs.Common.{rules};

use crate::future::Future;
use crate::poll::Poll;
use crate::ticket::Ticketed;

// A future, or an output, with its place in the order.
#[derive(Clone, Copy, PartialEq, Debug)]
pub struct OrderWrapper<T> {
    pub data: T,
    pub index: u64,
}

// The top bit of an index.
pub const MSB: u64 = 1 << 63;

// An index with its top bit flipped.
pub fn flip(index: u64) -> u64
    ensures { result ≡ index_flipped index }
{
    index ^ MSB
}

impl<T: Ticketed> Ticketed for OrderWrapper<T> {
    ghost bearing = { λ w. T.Ticketed.bearing w.data };

    fn ticket(&self) -> (u32, u32) {
        self.data.ticket()
    }
}

impl<F: Future> Future for OrderWrapper<F> {
    type Output = OrderWrapper<F::Output>;

    ghost acts = { wrapped_acts F.Future.acts };

    ghost pending_keeps_the_ticket = { Prim.search rules };

    ghost output_bears_the_ticket = { Prim.search rules };

    fn poll(&mut self, post: &[u64]) -> (bool, Poll<OrderWrapper<F::Output>>) {
        let index = self.index;
        let (woken, poll) = self.data.poll(post);
        (woken, poll.map(|data| OrderWrapper { data, index }))
    }
}
