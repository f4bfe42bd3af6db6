ghost use Rattle.ordered.specs.BoundedBelow.{bounded_below, index_labels, FreeChain};
ghost use Rattle.sets.specs.Bounded.{Bounded, Question};
ghost use Rattle.sets.specs.BoundedSet.{set_of};
ghost use Rattle.tasks.specs.declared.order_wrapper.OrderWrapper.{OrderWrapper as Wrapper};

use crate::task_set::TaskSet;
use sets::futures_unordered_bounded::FuturesUnorderedBounded;
use tasks::fault::{Fault, Refused};
use tasks::future::Future;
use tasks::order_wrapper::OrderWrapper;
use tasks::poll::Polled;
use wakes::waker::Waker;

// The bounded set holds the tasks of an ordered one.
impl<'a, F: Future + Copy> TaskSet for FuturesUnorderedBounded<'a, OrderWrapper<F>>
where
    F::Output: Copy,
{
    type Task = F;

    type Output = F::Output;

    ghost Model = { Bounded (Wrapper F) };

    ghost Ask = { Question };

    ghost model = { set_of };

    ghost below = { bounded_below F.Future.acts };

    ghost Inv = { FreeChain };

    ghost labels = { index_labels };

    fn may_push(&self) -> Result<(), Fault> {
        let capacity = self.capacity();
        if self.len() == capacity {
            return Err(Fault::NoVacantSlot { capacity });
        }
        Ok(())
    }

    fn push(&mut self, task: F, index: u64) -> Result<usize, Refused<F>> {
        FuturesUnorderedBounded::push(self, OrderWrapper { data: task, index }).map_err(
            |refused| refused.map(|wrapper| wrapper.data),
        )
    }

    fn poll(&mut self, post: &[u64]) -> Polled<Option<OrderWrapper<F::Output>>> {
        FuturesUnorderedBounded::poll(self, post)
    }

    fn len(&self) -> usize {
        FuturesUnorderedBounded::len(self)
    }

    fn flip(&mut self) {
        FuturesUnorderedBounded::flip(self);
    }

    fn hand(&mut self, address: usize) -> Result<Waker, Refused<usize>> {
        FuturesUnorderedBounded::hand(self, address)
    }

    fn clone(&mut self, token: &Waker) -> Result<Waker, Fault> {
        FuturesUnorderedBounded::clone(self, token)
    }

    fn wake(&mut self, token: Waker) -> Result<u32, Refused<Waker>> {
        FuturesUnorderedBounded::wake(self, token)
    }

    fn wake_by_ref(&mut self, token: &Waker) -> Result<u32, Fault> {
        FuturesUnorderedBounded::wake_by_ref(self, token)
    }

    fn drop(&mut self, token: Waker) -> Result<(), Refused<Waker>> {
        FuturesUnorderedBounded::drop(self, token)
    }

    fn may_end(&self) -> Result<(), Fault> {
        FuturesUnorderedBounded::may_end(self)
    }
}
