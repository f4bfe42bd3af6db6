ghost use Rattle.std.specs.Prelude.{◌≡◌, ℕ, ◌≤◌, List};
ghost use Rattle.ordered.specs.Below.{Below, Label, leave_of, unwrapped};
ghost use Rattle.runs.specs.Calls.{hand as Hand, clone as CloneCall, wake as Wake, wake_by_ref as WakeByRef, drop as DropCall, may_end as MayEnd};
ghost use Rattle.runs.specs.Kinds.{step};
ghost use Rattle.tasks.specs.declared.order_wrapper.OrderWrapper.{OrderWrapper as Wrapper};

use tasks::fault::{Fault, Refused};
use tasks::order_wrapper::OrderWrapper;
use tasks::poll::Polled;
use wakes::waker::Waker;

// A set of tasks that an ordered set can be built over. It holds each task with its index.
pub trait TaskSet {
    type Task: Copy;

    type Output: Copy;

    // what the set is by its rules, and the questions that are answered by a number
    ghost Model: { Type 0 };

    ghost Ask: { Type 0 };

    ghost model: { Self → Model };

    ghost below: { Below Model Ask Self.Task Self.Output };

    // what it keeps, and the indices in it
    ghost Inv: { Model → Type 0 };

    ghost labels: { Model → List Label };

    // Whether a push would be accepted now.
    fn may_push(&self) -> Result<(), Fault>
        ensures { (w : Wrapper Self.Task) → leave_of (below.kind.accepts (model self.now) w) ≡ result };

    // Puts a task into the set, with that index.
    fn push(&mut self, task: Self::Task, index: u64) -> Result<usize, Refused<Self::Task>>
        ensures answer { result ≡ unwrapped (below.kind.accepts (model self.old) (record { «data» = task; index = index })) }
        ensures after { model self.new ≡ below.kind.pushed (model self.old) (record { «data» = task; index = index }) };

    // Polls the tasks that were woken.
    fn poll(&mut self, post: &[u64]) -> Polled<Option<OrderWrapper<Self::Output>>>
        ensures answer { result ≡ below.kind.yields (model self.old) post.now }
        ensures after { model self.new ≡ below.kind.polled (model self.old) post.now }
        ensures few_notices { result.notices ≤ 1024 }
        ensures few_turns { result.turns ≤ 1024 };

    // How many tasks there are.
    fn len(&self) -> usize
        ensures { result ≡ below.kind.number (model self.now) below.len };

    // Flips the top bit of the index of every task.
    fn flip(&mut self)
        ensures { model self.new ≡ below.flipped (model self.old) };

    // The token calls.
    fn hand(&mut self, address: usize) -> Result<Waker, Refused<usize>>
        ensures answer { result ≡ (step below.kind (model self.old) (Hand address)).1 }
        ensures after { model self.new ≡ (step below.kind (model self.old) (Hand address)).0 };

    fn clone(&mut self, token: &Waker) -> Result<Waker, Fault>
        ensures answer { result ≡ (step below.kind (model self.old) (CloneCall token.now)).1 }
        ensures after { model self.new ≡ (step below.kind (model self.old) (CloneCall token.now)).0 };

    fn wake(&mut self, token: Waker) -> Result<u32, Refused<Waker>>
        ensures answer { result ≡ (step below.kind (model self.old) (Wake token)).1 }
        ensures after { model self.new ≡ (step below.kind (model self.old) (Wake token)).0 };

    fn wake_by_ref(&mut self, token: &Waker) -> Result<u32, Fault>
        ensures answer { result ≡ (step below.kind (model self.old) (WakeByRef token.now)).1 }
        ensures after { model self.new ≡ (step below.kind (model self.old) (WakeByRef token.now)).0 };

    fn drop(&mut self, token: Waker) -> Result<(), Refused<Waker>>
        ensures answer { result ≡ (step below.kind (model self.old) (DropCall token)).1 }
        ensures after { model self.new ≡ (step below.kind (model self.old) (DropCall token)).0 };

    fn may_end(&self) -> Result<(), Fault>
        ensures { result ≡ (step below.kind (model self.now) MayEnd).1 };
}
