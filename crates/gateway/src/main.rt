// A trading gateway's reply desk: it reads a day's script, holds the waiting orders in one bounded set, and prints
// what happens.
#![tactic(auto)]

use std::io;

mod desk;
mod script;

fn main(rt: HostRuntime) -> io::Result<()> {
    desk::run(&rt)
}
