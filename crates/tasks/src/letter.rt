ghost use Rattle.tasks.specs.Kinds.{letter_acts};
ghost use Rattle.std.proofs.Common.{rules};

use crate::future::Future;
use crate::poll::Poll;
use crate::post::word_at;
use crate::ticket::Ticketed;

// A word of the post, with the ticket of the task that waited for it.
#[derive(Clone, Copy, PartialEq, Debug)]
pub struct Delivery {
    pub ticket: (u32, u32),
    pub word: u64,
}

impl Ticketed for Delivery {
    ghost bearing = { λ d. d.ticket };

    fn ticket(&self) -> (u32, u32) {
        self.ticket
    }
}

// A future that waits for the word at its place of the post. It never wakes itself.
#[derive(Clone, Copy, PartialEq, Debug)]
pub struct Letter {
    pub ticket: (u32, u32),
    pub place: u64,
}

impl Ticketed for Letter {
    ghost bearing = { λ l. l.ticket };

    fn ticket(&self) -> (u32, u32) {
        self.ticket
    }
}

impl Future for Letter {
    type Output = Delivery;

    ghost acts = { letter_acts };

    ghost pending_keeps_the_ticket = { Prim.search rules };

    ghost output_bears_the_ticket = { Prim.search rules };

    fn poll(&mut self, post: &[u64]) -> (bool, Poll<Delivery>) {
        let word = word_at(post, self.place);
        if word == 0 {
            return (false, Poll::Pending);
        }
        let ticket = self.ticket;
        (false, Poll::Ready(Delivery { ticket, word }))
    }
}
