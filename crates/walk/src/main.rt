// Holds the bound against a walk over every complete path, on tasks drawn from a seed, and prints the first difference if any.
#![tactic(auto)]

mod comparing;
mod drawing;
mod draws;
mod interfering;
mod walking;

use comparing::Comparison;
use std::io;

// How many tasks are drawn.
const TASKS: u32 = 4000;

// The seed that they are drawn from.
const SEED: u64 = 20;

// Draws, compares and prints.
fn main(rt: HostRuntime) -> io::Result<()> {
    let mut comparison = Comparison::new(SEED);
    let compared = comparison.compare_all(TASKS);
    let tally = comparison.tally();
    print!(rt; "{tally}: ")?;
    match compared {
        Ok(()) => println!(rt; "no difference"),
        Err(stop) => println!(rt; "task {} {stop}", tally.tasks),
    }
}
