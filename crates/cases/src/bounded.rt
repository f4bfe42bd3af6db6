ghost use Rattle.std.specs.Prelude.{◌≡◌, length};
ghost use Rattle.cases.specs.Bounded.{cases as all, AllHold};

// How many worked runs of the bounded unordered set there are. Each comes out as it is written down.
#[tactic(auto, unfolding(sets::specs::Group::polling))]
pub fn worked_runs() -> usize
    ensures count { result ≡ length all }
    ensures hold { AllHold all }
{
    12
}
