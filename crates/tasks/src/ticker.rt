ghost use Rattle.tasks.specs.Kinds.{ticker_acts};
ghost use Rattle.std.proofs.Common.{rules};

use crate::poll::Poll;
use crate::stream::Stream;
use crate::ticket::Ticketed;

// A stream of a stated number of bare tickets, numbered from 0. It never wakes itself.
#[derive(Clone, Copy, PartialEq, Debug)]
pub struct Ticker {
    pub owner: u32,
    pub next: u32,
    pub items: u32,
}

impl Ticketed for Ticker {
    ghost bearing = { λ t. (t.owner, t.next) };

    fn ticket(&self) -> (u32, u32) {
        (self.owner, self.next)
    }
}

impl Stream for Ticker {
    type Item = (u32, u32);

    ghost acts = { ticker_acts };

    ghost item_bears_the_ticket = { Prim.search rules };

    ghost item_keeps_the_owner_and_raises_next = { Prim.search rules };

    ghost pending_keeps_the_ticket = { Prim.search rules };

    ghost ends_at_the_last_number = { Prim.search rules };

    fn poll_next(&mut self, post: &[u64]) -> (bool, Poll<Option<(u32, u32)>>) {
        let number = self.next;
        if number >= self.items {
            return (false, Poll::Ready(None));
        }
        if number == u32::MAX {
            return (false, Poll::Ready(None));
        }
        self.next = number + 1;
        (false, Poll::Ready(Some((self.owner, number))))
    }
}
