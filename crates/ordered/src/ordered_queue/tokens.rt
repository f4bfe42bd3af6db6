ghost use Rattle.std.specs.Prelude.{◌≡◌};
ghost use Rattle.ordered.specs.Ordered.{step};
ghost use Rattle.ordered.specs.Queue.{line_of, Sound};
ghost use Rattle.runs.specs.Calls.{hand as Hand, clone as CloneCall, wake as Wake, wake_by_ref as WakeByRef, drop as DropCall, may_end as MayEnd};

use crate::ordered_queue::OrderedQueue;
use crate::task_set::TaskSet;
use parking::parking::Parking;
use tasks::fault::{Fault, Refused};
use wakes::waker::Waker;

// The token calls go to the set below. A trait for both would name each of them once more.
impl<S: TaskSet, P: Parking<Output = S::Output>> OrderedQueue<S, P> {
    // Hands out the token of an occupied slot.
    pub fn hand(&mut self, address: usize) -> Result<Waker, Refused<usize>>
        requires { Sound S.TaskSet P.Parking self.old }
        ensures answer { result ≡ (step S.TaskSet.below P.Parking.full (line_of S.TaskSet P.Parking self.old) (Hand address)).1 }
        ensures after { line_of S.TaskSet P.Parking self.new ≡ (step S.TaskSet.below P.Parking.full (line_of S.TaskSet P.Parking self.old) (Hand address)).0 }
        ensures sound { Sound S.TaskSet P.Parking self.new }
    {
        self.in_progress_queue.hand(address)
    }

    // Hands out another token like the one that is lent.
    pub fn clone(&mut self, token: &Waker) -> Result<Waker, Fault>
        requires { Sound S.TaskSet P.Parking self.old }
        ensures answer { result ≡ (step S.TaskSet.below P.Parking.full (line_of S.TaskSet P.Parking self.old) (CloneCall token.now)).1 }
        ensures after { line_of S.TaskSet P.Parking self.new ≡ (step S.TaskSet.below P.Parking.full (line_of S.TaskSet P.Parking self.old) (CloneCall token.now)).0 }
        ensures sound { Sound S.TaskSet P.Parking self.new }
    {
        self.in_progress_queue.clone(token)
    }

    // Wakes the token's slot and spends the token.
    pub fn wake(&mut self, token: Waker) -> Result<u32, Refused<Waker>>
        requires { Sound S.TaskSet P.Parking self.old }
        ensures answer { result ≡ (step S.TaskSet.below P.Parking.full (line_of S.TaskSet P.Parking self.old) (Wake token)).1 }
        ensures after { line_of S.TaskSet P.Parking self.new ≡ (step S.TaskSet.below P.Parking.full (line_of S.TaskSet P.Parking self.old) (Wake token)).0 }
        ensures sound { Sound S.TaskSet P.Parking self.new }
    {
        self.in_progress_queue.wake(token)
    }

    // Wakes the token's slot and spends nothing.
    pub fn wake_by_ref(&mut self, token: &Waker) -> Result<u32, Fault>
        requires { Sound S.TaskSet P.Parking self.old }
        ensures answer { result ≡ (step S.TaskSet.below P.Parking.full (line_of S.TaskSet P.Parking self.old) (WakeByRef token.now)).1 }
        ensures after { line_of S.TaskSet P.Parking self.new ≡ (step S.TaskSet.below P.Parking.full (line_of S.TaskSet P.Parking self.old) (WakeByRef token.now)).0 }
        ensures sound { Sound S.TaskSet P.Parking self.new }
    {
        self.in_progress_queue.wake_by_ref(token)
    }

    // Spends the token and wakes nothing.
    pub fn drop(&mut self, token: Waker) -> Result<(), Refused<Waker>>
        requires { Sound S.TaskSet P.Parking self.old }
        ensures answer { result ≡ (step S.TaskSet.below P.Parking.full (line_of S.TaskSet P.Parking self.old) (DropCall token)).1 }
        ensures after { line_of S.TaskSet P.Parking self.new ≡ (step S.TaskSet.below P.Parking.full (line_of S.TaskSet P.Parking self.old) (DropCall token)).0 }
        ensures sound { Sound S.TaskSet P.Parking self.new }
    {
        self.in_progress_queue.drop(token)
    }

    // Whether the queue may be taken apart: no token is out.
    pub fn may_end(&self) -> Result<(), Fault>
        ensures { result ≡ (step S.TaskSet.below P.Parking.full (line_of S.TaskSet P.Parking self.now) MayEnd).1 }
    {
        self.in_progress_queue.may_end()
    }
}
