ghost use Rattle.std.specs.Prelude.{◌≤◌};
ghost use Rattle.sets.specs.Ground.{FromStart};

use crate::group::TaskGroup;
use crate::memory::Memory;
use lists::part::Part;
use slots::slot::Slot;
use tasks::fault::{Fault, Refused};
use tasks::flip::Flip;
use tasks::future::Future;
use tasks::poll::Polled;
use wakes::wake_record::WakeRecord;
use wakes::waker::{RawWaker, Waker};

// A set has at most that many tokens out.
const MOST_TOKENS: usize = 65535;

// A set has at most that many slots.
const MOST_SLOTS: usize = 65536;

// A set of futures that complete in any order, in memory of the caller's: one slot and one wake record for each.
pub struct FuturesUnorderedBounded<'a, F> {
    name: u32,
    tokens: usize,
    group: TaskGroup<'a, F>,
    ghost from_start: { FromStart group },
    ghost few_tokens: { tokens ≤ 65535 },
}

impl<'a, F: Future + Copy> FuturesUnorderedBounded<'a, F> {
    ghost use Rattle.std.specs.Prelude.{◌≡◌, ◌<◌, length, OnOk};
    ghost use Rattle.std.specs.Result.{result_err};
    ghost use Rattle.runs.specs.Calls.{push as Push, poll as PollCall, hand as Hand, clone as CloneCall, wake as Wake, wake_by_ref as WakeByRef, drop as DropCall, may_end as MayEnd, ask};
    ghost use Rattle.runs.specs.Promises.{Promises};
    ghost use Rattle.runs.specs.Tokens.{below_most, spend_fault, one_more, one_less, leaves, answers_lent, answers};
    ghost use Rattle.runs.specs.Wakers.{WakerLaws};
    ghost use Rattle.sets.specs.Bounded.{made, step, tokened, slots_of, elements, queued, how_many, how_many_can_be, NeverAgain};
    ghost use Rattle.sets.specs.BoundedSet.{set_of, TakenApart};

    // An empty set of that name. Its capacity is the lesser of the two memories, and at most 65,536.
    pub fn new(
        name: u32,
        slots: &'a mut [Slot<F>],
        records: &'a mut [WakeRecord],
    ) -> FuturesUnorderedBounded<'a, F>
        ensures fresh { set_of result ≡ made name slots.old records.old }
        ensures promises { Promises (step F.Future.acts) (set_of result) F.Ticketed.bearing F.Output.Ticketed.bearing elements how_many }
        ensures wakers { WakerLaws (step F.Future.acts) (set_of result) queued how_many }
        ensures never_again { NeverAgain F.Future.acts (set_of result) }
    {
        FuturesUnorderedBounded::empty(name, slots, records)
    }

    fn empty(
        name: u32,
        slots: &'a mut [Slot<F>],
        records: &'a mut [WakeRecord],
    ) -> FuturesUnorderedBounded<'a, F>
        ensures { set_of result ≡ made name slots.old records.old }
    {
        let capacity = slots.len().min(records.len()).min(MOST_SLOTS);
        let group = TaskGroup::new(slots, records, Part::first(capacity));
        FuturesUnorderedBounded {
            name,
            tokens: 0,
            group,
        }
    }

    // Puts a future into the set and answers its address, or hands it back where no slot is vacant.
    pub fn push(&mut self, fut: F) -> Result<usize, Refused<F>>
        ensures answer { result ≡ (step F.Future.acts (set_of self.old) (Push fut)).1 }
        ensures after { set_of self.new ≡ (step F.Future.acts (set_of self.old) (Push fut)).0 }
    {
        let capacity = self.group.capacity();
        let pushed = self.group.try_push(fut);
        pushed.map_err(|input| Refused {
            fault: Fault::NoVacantSlot { capacity },
            input,
        })
    }

    // Polls the futures that were woken, until one is ready, none waits any more, or 61 turns were taken.
    pub fn poll(&mut self, post: &[u64]) -> Polled<Option<F::Output>>
        ensures answer { result ≡ (step F.Future.acts (set_of self.old) (PollCall post.now)).1 }
        ensures after { set_of self.new ≡ (step F.Future.acts (set_of self.old) (PollCall post.now)).0 }
    {
        self.group.poll_inner(post)
    }

    // How many futures the set holds.
    pub fn len(&self) -> usize
        ensures { result ≡ (step F.Future.acts (set_of self.now) (ask how_many)).1 }
    {
        self.group.len()
    }

    // How many it can hold.
    pub fn capacity(&self) -> usize
        ensures { result ≡ (step F.Future.acts (set_of self.now) (ask how_many_can_be)).1 }
    {
        self.group.capacity()
    }

    // Hands out the token of an occupied slot.
    pub fn hand(&mut self, address: usize) -> Result<Waker, Refused<usize>>
        ensures answer { result ≡ (step F.Future.acts (set_of self.old) (Hand address)).1 }
        ensures after { set_of self.new ≡ (step F.Future.acts (set_of self.old) (Hand address)).0 }
    {
        if !self.group.is_occupied(address) {
            return Err(Refused {
                fault: Fault::NoSuchSlot { address },
                input: address,
            });
        }
        let handed = self.hand_out(address);
        handed.map_err(|fault| Refused {
            fault,
            input: address,
        })
    }

    // Hands out another token like the one that is lent.
    pub fn clone(&mut self, token: &Waker) -> Result<Waker, Fault>
        ensures answer { result ≡ (step F.Future.acts (set_of self.old) (CloneCall token.now)).1 }
        ensures after { set_of self.new ≡ (step F.Future.acts (set_of self.old) (CloneCall token.now)).0 }
    {
        self.check(token)?;
        self.hand_out(token.address())
    }

    // Wakes the token's slot and spends the token; answers the notices, 0 or 1.
    pub fn wake(&mut self, token: Waker) -> Result<u32, Refused<Waker>>
        ensures answer { result ≡ (step F.Future.acts (set_of self.old) (Wake token)).1 }
        ensures after { set_of self.new ≡ (step F.Future.acts (set_of self.old) (Wake token)).0 }
    {
        let address = self.spend(token)?;
        Ok(self.group.wake(address))
    }

    // Wakes the token's slot and spends nothing; answers the notices, 0 or 1.
    pub fn wake_by_ref(&mut self, token: &Waker) -> Result<u32, Fault>
        ensures answer { result ≡ (step F.Future.acts (set_of self.old) (WakeByRef token.now)).1 }
        ensures after { set_of self.new ≡ (step F.Future.acts (set_of self.old) (WakeByRef token.now)).0 }
    {
        self.check(token)?;
        Ok(self.group.wake(token.address()))
    }

    // Spends the token and wakes nothing.
    pub fn drop(&mut self, token: Waker) -> Result<(), Refused<Waker>>
        ensures answer { result ≡ (step F.Future.acts (set_of self.old) (DropCall token)).1 }
        ensures after { set_of self.new ≡ (step F.Future.acts (set_of self.old) (DropCall token)).0 }
    {
        let _ = self.spend(token)?;
        Ok(())
    }

    // Whether the set may be taken apart: no token is out.
    pub fn may_end(&self) -> Result<(), Fault>
        ensures { result ≡ (step F.Future.acts (set_of self.now) MayEnd).1 }
    {
        if self.tokens == 0 {
            return Ok(());
        }
        Err(Fault::TokensOut { count: self.tokens })
    }

    // Gives the memory back, or the set itself while tokens are out. Both arms move the set, so no `map_err` will do.
    pub fn take_apart(self) -> Result<Memory<'a, F>, Refused<FuturesUnorderedBounded<'a, F>>>
        ensures { TakenApart (set_of self.entry) result }
    {
        match self.may_end() {
            Ok(()) => Ok(self.abandon()),
            Err(fault) => Err(Refused { fault, input: self }),
        }
    }

    // Whether the set takes a token: it bears the set's name, some token is out, and a slot has its address.
    fn check(&self, token: &Waker) -> Result<(), Fault>
        ensures fault { result_err result ≡ spend_fault tokened (set_of self.now) token.now }
        ensures good { OnOk result ((token.now.name ≡ self.now.name) × (0 < self.now.tokens) × (token.now.address < length (slots_of (set_of self.now)))) }
    {
        let name = token.name();
        let address = token.address();
        if name != self.name {
            return Err(Fault::OtherName { name });
        }
        if self.tokens == 0 {
            return Err(Fault::NoTokenOut);
        }
        if address >= self.group.capacity() {
            return Err(Fault::NoSuchSlot { address });
        }
        Ok(())
    }

    // Hands out a token of that address, while fewer than the most are out.
    fn hand_out(&mut self, address: usize) -> Result<Waker, Fault>
        ensures answer { result ≡ answers_lent (below_most tokened (set_of self.old)) (record { name = self.old.name; address = address }) }
        ensures after { set_of self.new ≡ leaves (below_most tokened (set_of self.old)) (set_of self.old) (one_more tokened (set_of self.old)) }
    {
        if self.tokens == MOST_TOKENS {
            return Err(Fault::TooManyTokens { out: self.tokens });
        }
        self.tokens += 1;
        Ok(Waker::from_raw(RawWaker {
            name: self.name,
            address,
        }))
    }

    // Takes a token back and answers its address, or hands the token back where the set does not take it. Both arms move it.
    fn spend(&mut self, token: Waker) -> Result<usize, Refused<Waker>>
        ensures answer { result ≡ answers (spend_fault tokened (set_of self.old) token) token token.address }
        ensures after { set_of self.new ≡ leaves (spend_fault tokened (set_of self.old) token) (set_of self.old) (one_less tokened (set_of self.old)) }
        ensures good { OnOk result (token.address < length (slots_of (set_of self.old))) }
    {
        match self.check(&token) {
            Ok(()) => {
                self.tokens -= 1;
                Ok(token.into_raw().address)
            }
            Err(fault) => Err(Refused {
                fault,
                input: token,
            }),
        }
    }
}

impl<'a, F: Copy> FuturesUnorderedBounded<'a, F> {
    ghost use Rattle.std.specs.Prelude.{◌≡◌};
    ghost use Rattle.sets.specs.BoundedSet.{set_of, MemoryOf};

    // Gives the memory back with tokens out. What is left of them will be refused by any other set.
    pub fn abandon(self) -> Memory<'a, F>
        ensures slots { result.slots.now ≡ self.entry.group.tasks.slots.now }
        ensures records { result.records.now ≡ self.entry.group.shared.records.now }
        ensures memory { MemoryOf (set_of self.entry) result }
    {
        let FuturesUnorderedBounded {
            name: _,
            tokens: _,
            group,
        } = self;
        group.take_apart()
    }
}

impl<'a, F: Flip + Copy> FuturesUnorderedBounded<'a, F> {
    ghost use Rattle.std.specs.Prelude.{◌≡◌};
    ghost use Rattle.sets.specs.Bounded.{set_flipped};
    ghost use Rattle.sets.specs.BoundedSet.{set_of};

    // Flips the index of every future. An ordered set does so when its indices get too high.
    pub fn flip(&mut self)
        ensures { set_of self.new ≡ set_flipped F.Flip.flipped (set_of self.old) }
    {
        self.group.flip();
    }
}
