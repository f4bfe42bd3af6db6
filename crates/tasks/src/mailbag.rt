ghost use Rattle.tasks.specs.Kinds.{mailbag_acts};
ghost use Rattle.std.proofs.Common.{rules};

use crate::letter::Delivery;
use crate::poll::Poll;
use crate::post::word_at;
use crate::stream::Stream;
use crate::ticket::Ticketed;

// The word that ends a Mailbag, by its rule.
const END: u64 = u64::MAX;

// A stream of the words of the post from its place on. It never wakes itself.
#[derive(Clone, Copy, PartialEq, Debug)]
pub struct Mailbag {
    pub owner: u32,
    pub next: u32,
    pub place: u64,
}

impl Ticketed for Mailbag {
    ghost bearing = { λ m. (m.owner, m.next) };

    fn ticket(&self) -> (u32, u32) {
        (self.owner, self.next)
    }
}

impl Stream for Mailbag {
    type Item = Delivery;

    ghost acts = { mailbag_acts };

    ghost item_bears_the_ticket = { Prim.search rules };

    ghost item_keeps_the_owner_and_raises_next = { Prim.search rules };

    ghost pending_keeps_the_ticket = { Prim.search rules };

    ghost ends_at_the_last_number = { Prim.search rules };

    fn poll_next(&mut self, post: &[u64]) -> (bool, Poll<Option<Delivery>>) {
        let number = self.next;
        if number == u32::MAX {
            return (false, Poll::Ready(None));
        }
        let word = word_at(post, self.place);
        if word == 0 {
            return (false, Poll::Pending);
        }
        if word == END {
            return (false, Poll::Ready(None));
        }
        let ticket = (self.owner, number);
        self.next = number + 1;
        self.place += 1;
        (false, Poll::Ready(Some(Delivery { ticket, word })))
    }
}
