ghost use Rattle.tasks.specs.Kinds.{countdown_acts};
ghost use Rattle.std.proofs.Common.{rules};

use crate::future::Future;
use crate::poll::Poll;
use crate::ticket::Ticketed;

// A future that is ready after a stated number of polls. It wakes itself if it was made to.
#[derive(Clone, Copy, PartialEq, Debug)]
pub struct Countdown {
    pub ticket: (u32, u32),
    pub count: u32,
    pub wakes_itself: bool,
}

impl Ticketed for Countdown {
    ghost bearing = { λ c. c.ticket };

    fn ticket(&self) -> (u32, u32) {
        self.ticket
    }
}

impl Future for Countdown {
    type Output = (u32, u32);

    ghost acts = { countdown_acts };

    ghost pending_keeps_the_ticket = { Prim.search rules };

    ghost output_bears_the_ticket = { Prim.search rules };

    fn poll(&mut self, post: &[u64]) -> (bool, Poll<(u32, u32)>) {
        if self.count == 0 {
            return (false, Poll::Ready(self.ticket));
        }
        self.count -= 1;
        (self.wakes_itself, Poll::Pending)
    }
}
