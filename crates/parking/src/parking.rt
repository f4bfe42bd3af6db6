ghost use Rattle.std.specs.Prelude.{◌≡◌, ℕ, ◌≤◌, false, ltb, List, [], length, if◌then◌else◌, Ok, Err, nat_lt};
ghost use Rattle.parking.specs.Bags.{Put, Taken, Flipped};
ghost use Rattle.tasks.specs.declared.fault.Fault.{Fault as FaultCase};
ghost use Rattle.tasks.specs.declared.order_wrapper.OrderWrapper.{OrderWrapper as Pair};

use tasks::fault::Fault;

// Why indices are not flipped: with their top bits flipped the pairs would not fit.
#[derive(Clone, Copy, PartialEq, Debug)]
pub struct Unfit;

// Places for finished outputs that wait for their turn, each with its index: at most 65,536. A parking is told by the bag
// of its pairs and the number of its places.
pub trait Parking {
    type Output: Copy;

    // the pairs, in no particular order
    ghost bag: { Self → List (Pair Self.Output) };

    ghost places: { Self → ℕ };

    // what no call alters
    ghost Rest: { Type 0 };

    ghost rest: { Self → Rest };

    // how many places there can be once places beyond a count were asked for
    ghost secures: { Self → ℕ → ℕ → Type 0 };

    // why they are refused, from the number of places and the count
    ghost full: { ℕ → ℕ → FaultCase };

    // Takes everything out.
    fn clear(&mut self)
        ensures bag { bag self.new ≡ [] }
        ensures places { places self.new ≡ places self.old }
        ensures few { places self.new ≤ 65536 }
        ensures rest { rest self.new ≡ rest self.old };

    // Sees to it that there are more places than that count, or refuses.
    fn secure(&mut self, count: usize) -> Result<(), Fault>
        ensures answer { result ≡ (if ltb count (places self.new) then Ok tt else Err (full (places self.old) count)) }
        ensures few { places self.new ≤ 65536 }
        ensures possible { secures self.old count (places self.new) }
        ensures refused { nat_lt count (places self.new) ≡ false → places self.new ≡ places self.old }
        ensures bag { bag self.new ≡ bag self.old }
        ensures rest { rest self.new ≡ rest self.old };

    // Puts an output in under its index, or hands it back.
    fn put(&mut self, index: u64, output: Self::Output) -> Result<(), Self::Output>
        ensures bag { Put (places self.old) index output (bag self.old) result (bag self.new) }
        ensures places { places self.new ≡ places self.old }
        ensures rest { rest self.new ≡ rest self.old };

    // Takes out the output with that index, if it is there.
    fn take(&mut self, index: u64) -> Option<Self::Output>
        ensures bag { Taken index (bag self.old) result (bag self.new) }
        ensures places { places self.new ≡ places self.old }
        ensures rest { rest self.new ≡ rest self.old };

    // How many pairs there are.
    fn count(&self) -> usize
        ensures { result ≡ length (bag self.now) };

    // Flips the top bit of every index, or refuses and alters nothing.
    fn flip(&mut self) -> Result<(), Unfit>
        ensures bag { Flipped (places self.old) (bag self.old) result (bag self.new) }
        ensures places { places self.new ≡ places self.old }
        ensures rest { rest self.new ≡ rest self.old };
}
