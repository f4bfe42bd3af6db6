ghost use Rattle.std.specs.Prelude.{◌≡◌, length};
ghost use Rattle.cases.specs.Ordered.{cases as all, AllHold};

// How many worked runs of the bounded ordered set there are. Each comes out as it is written down.
#[tactic(auto, unfolding(sets::specs::Group::polling, ordered::specs::Ordered::polling))]
pub fn worked_runs_in_order() -> usize
    ensures count { result ≡ length all }
    ensures hold { AllHold all }
{
    5
}
