ghost use Rattle.std.specs.Prelude.{◌≡◌, ℕ, ◌≤◌, false, [], ◌∷◌, None, ◌==◌};
ghost use Rattle.ordered.specs.Ordered.{back, front, held, housekept, from_parked, outcome, made, bearing_index};
ghost use Rattle.ordered.specs.Rounds.{yielded, settled, round_of, set_of_round};
ghost use Rattle.parking.specs.Bags.{Fits};
ghost use Rattle.ordered.specs.Queue.{line_of, Sound, Secures, Puts, Pushes};
ghost use Rattle.tasks.specs.Orders.{index_raised, index_lowered, top_bit};

use crate::round::Rounded;
use crate::task_set::TaskSet;
use parking::parking::Parking;
use tasks::fault::{Fault, Refused};
use tasks::order_wrapper::{MSB, OrderWrapper, flip};
use tasks::poll::{Poll, Polled};

pub mod tokens;

// A queue of futures that are yielded in its order: those in progress in a set of tasks, and outputs that wait for their
// turn in a parking. What it keeps, `Sound`, stays in clauses: `new` takes any set below, so it need not hold of each queue.
pub struct OrderedQueue<S, P> {
    in_progress_queue: S,
    queued_outputs: P,
    next_incoming_index: u64,
    next_outgoing_index: u64,
}

// What a queue stood over, given back.
pub struct Parts<S, P> {
    pub tasks: S,
    pub outputs: P,
}

impl<S: TaskSet, P: Parking<Output = S::Output>> OrderedQueue<S, P> {
    // An empty queue over an empty set; the parking is emptied.
    pub fn new(in_progress_queue: S, mut queued_outputs: P) -> OrderedQueue<S, P>
        ensures fresh { line_of S.TaskSet P.Parking result ≡ made (S.TaskSet.model in_progress_queue) (P.Parking.places queued_outputs) (P.Parking.rest queued_outputs) }
        ensures few { P.Parking.places queued_outputs ≤ 65536 }
    {
        queued_outputs.clear();
        OrderedQueue {
            in_progress_queue,
            queued_outputs,
            next_incoming_index: 0,
            next_outgoing_index: 0,
        }
    }

    // The set of the tasks in progress.
    pub fn tasks(&self) -> &S
        ensures { result.now ≡ self.now.in_progress_queue }
    {
        &self.in_progress_queue
    }

    // The set below, and the parking.
    pub fn take_apart(self) -> Parts<S, P>
        ensures { (result.tasks ≡ self.in_progress_queue) × (result.outputs ≡ self.queued_outputs) }
    {
        let OrderedQueue {
            in_progress_queue,
            queued_outputs,
            next_incoming_index: _,
            next_outgoing_index: _,
        } = self;
        Parts {
            tasks: in_progress_queue,
            outputs: queued_outputs,
        }
    }

    // How many elements there are: tasks, and outputs that wait for their turn.
    pub fn len(&self) -> usize
        requires { Sound S.TaskSet P.Parking self.now }
        ensures { result ≡ held S.TaskSet.below P.Parking.full (line_of S.TaskSet P.Parking self.now) }
    {
        self.in_progress_queue.len() + self.queued_outputs.count()
    }

    // Sees to it that one more element finds a place, or tells why it does not.
    fn secure_one(&mut self) -> Result<(), Fault>
        requires { Sound S.TaskSet P.Parking self.old }
        ensures { Secures S.TaskSet P.Parking self.old result self.new }
    {
        self.in_progress_queue.may_push()?;
        let len = self.len();
        self.queued_outputs.secure(len)
    }

    // Puts a task into the set below under an index, once there is a place for it, or hands it back.
    fn push(&mut self, task: S::Task, index: u64) -> Result<usize, Refused<S::Task>>
        requires { Sound S.TaskSet P.Parking self.old }
        ensures { Puts S.TaskSet P.Parking self.old (record { «data» = task; index = index }) result self.new }
    {
        self.secure_one()
            .map_err(|fault| Refused { fault, input: task })?;
        self.in_progress_queue.push(task, index)
    }

    // Puts a task at the back of the queue, or hands it back.
    pub fn push_back(&mut self, task: S::Task) -> Result<usize, Refused<S::Task>>
        requires { Sound S.TaskSet P.Parking self.old }
        ensures pushed { Pushes S.TaskSet P.Parking self.old back task result self.new }
        ensures sound { Sound S.TaskSet P.Parking self.new }
    {
        let index = self.next_incoming_index;
        let address = self.push(task, index)?;
        self.next_incoming_index = index.wrapping_add(1);
        Ok(address)
    }

    // Puts a task at the front of the queue, or hands it back.
    pub fn push_front(&mut self, task: S::Task) -> Result<usize, Refused<S::Task>>
        requires { Sound S.TaskSet P.Parking self.old }
        ensures pushed { Pushes S.TaskSet P.Parking self.old front task result self.new }
        ensures sound { Sound S.TaskSet P.Parking self.new }
    {
        let index = self.next_outgoing_index.wrapping_sub(1);
        let address = self.push(task, index)?;
        self.next_outgoing_index = index;
        Ok(address)
    }

    // Flips the top bit of every index, if the indices get too high.
    fn housekeep(&mut self)
        requires { Sound S.TaskSet P.Parking self.old }
        ensures after { line_of S.TaskSet P.Parking self.new ≡ housekept S.TaskSet.below P.Parking.full (line_of S.TaskSet P.Parking self.old) }
        ensures sound { Sound S.TaskSet P.Parking self.new }
        ensures low { top_bit self.new.next_outgoing_index ≡ false }
    {
        if self.next_outgoing_index >= MSB {
            self.queued_outputs.flip().unwrap();
            self.in_progress_queue.flip();
            self.next_outgoing_index = flip(self.next_outgoing_index);
            self.next_incoming_index = flip(self.next_incoming_index);
        }
    }

    // Yields an output that is next in turn, and parks any other.
    fn settle(&mut self, output: OrderWrapper<S::Output>) -> Option<S::Output>
        requires { (output.index == self.old.next_outgoing_index) ≡ false → Fits (P.Parking.places self.old.queued_outputs) (output ∷ P.Parking.bag self.old.queued_outputs) }
        ensures answer { result ≡ yielded (line_of S.TaskSet P.Parking self.old) output }
        ensures after { line_of S.TaskSet P.Parking self.new ≡ settled (line_of S.TaskSet P.Parking self.old) output }
    {
        if output.index == self.next_outgoing_index {
            self.next_outgoing_index = output.index.wrapping_add(1);
            return Some(output.data);
        }
        self.queued_outputs.put(output.index, output.data).unwrap();
        None
    }

    // Polls the set below once.
    fn round(&mut self, post: &[u64]) -> Rounded<S::Output>
        requires { (Sound S.TaskSet P.Parking self.old) × (top_bit self.old.next_outgoing_index ≡ false) }
        ensures answer { result.poll ≡ round_of S.TaskSet.below post.now (line_of S.TaskSet P.Parking self.old) }
        ensures notices { result.notices ≡ (S.TaskSet.below.kind.yields (line_of S.TaskSet P.Parking self.old).below post.now).notices }
        ensures turns { result.turns ≡ (S.TaskSet.below.kind.yields (line_of S.TaskSet P.Parking self.old).below post.now).turns }
        ensures after { line_of S.TaskSet P.Parking self.new ≡ set_of_round S.TaskSet.below post.now (line_of S.TaskSet P.Parking self.old) }
        ensures few_notices { result.notices ≤ 1024 }
        ensures few_turns { result.turns ≤ 1024 }
    {
        let Polled {
            poll,
            notices,
            turns,
        } = self.in_progress_queue.poll(post);
        let poll = match poll {
            Poll::Pending => Some(Poll::Pending),
            Poll::Ready(None) => Some(Poll::Ready(None)),
            Poll::Ready(Some(output)) => {
                self.settle(output).map(|output| Poll::Ready(Some(output)))
            }
        };
        Rounded {
            poll,
            notices,
            turns,
        }
    }

    // Polls the set below until it is pending or empty, or gives the output that is next in turn.
    fn poll_tasks(&mut self, post: &[u64]) -> Polled<Option<S::Output>>
        requires { (Sound S.TaskSet P.Parking self.old) × ((top_bit self.old.next_outgoing_index ≡ false) × (bearing_index self.old.next_outgoing_index (line_of S.TaskSet P.Parking self.old).parked ≡ None)) }
        ensures answer { result ≡ (from_parked S.TaskSet.below P.Parking.full post.now (line_of S.TaskSet P.Parking self.old) None).answer }
        ensures after { line_of S.TaskSet P.Parking self.new ≡ (from_parked S.TaskSet.below P.Parking.full post.now (line_of S.TaskSet P.Parking self.old) None).set }
        ensures sound { Sound S.TaskSet P.Parking self.new }
    {
        let mut notices: u32 = 0;
        let mut turns: u32 = 0;
        loop {
            let Rounded {
                poll,
                notices: more,
                turns: taken,
            } = self.round(post);
            notices += more;
            turns += taken;
            if let Some(poll) = poll {
                return Polled {
                    poll,
                    notices,
                    turns,
                };
            }
        }
    }

    // Yields the output that is next in turn, if it is there. It may have waited; otherwise the tasks are polled.
    pub fn poll(&mut self, post: &[u64]) -> Polled<Option<S::Output>>
        requires { Sound S.TaskSet P.Parking self.old }
        ensures answer { result ≡ (outcome S.TaskSet.below P.Parking.full post.now (line_of S.TaskSet P.Parking self.old)).answer }
        ensures after { line_of S.TaskSet P.Parking self.new ≡ (outcome S.TaskSet.below P.Parking.full post.now (line_of S.TaskSet P.Parking self.old)).set }
        ensures sound { Sound S.TaskSet P.Parking self.new }
    {
        self.housekeep();
        let index = self.next_outgoing_index;
        match self.queued_outputs.take(index) {
            Some(output) => {
                self.next_outgoing_index = index.wrapping_add(1);
                Polled {
                    poll: Poll::Ready(Some(output)),
                    notices: 0,
                    turns: 0,
                }
            }
            None => self.poll_tasks(post),
        }
    }
}
