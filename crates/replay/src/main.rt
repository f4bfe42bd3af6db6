// Carries out recordings of runs on the library, compares every answer, and prints what differs.
#![tactic(auto)]

ghost use Rattle.std.specs.Prelude.{◌≡◌, is_ok, ◌==◌};

use anyhow::anyhow;

mod input;
mod play;
mod tally;

// The program fails if anything differs.
fn verdict(differences: u64) -> anyhow::Result<()>
    ensures { is_ok result ≡ (differences == 0) }
{
    if differences > 0 {
        return Err(anyhow!("answers differ"));
    }
    Ok(())
}

fn main(rt: HostRuntime) -> anyhow::Result<()> {
    verdict(play::replay(&rt)?)
}
