// Files the worked example and prints what was filed, piece by piece.
#![tactic(auto)]

use example::worked::{PRIORITIES, worked_example};
use sets::pieces_of;
use std::{fmt, io};
use task::priorities::Plain;
use task::stages::Filed;

// A set of pieces as text: {0, 4}.
#[derive(Drop)]
struct Pieces(u64);

impl fmt::Display for Pieces {
    fn fmt<W: fmt::Write>(&self, f: &mut fmt::Formatter<W>) -> fmt::Result {
        f.debug_set().entries(pieces_of(self.0)).finish()
    }
}

// A line for each piece, and how many pieces and edges there are.
fn print_task(rt: &impl Print, task: &Filed) -> io::Result<()> {
    for (k, Plain(priority)) in PRIORITIES.into_iter().enumerate() {
        println!(rt;
            "piece {k}: worst time {}, priority {priority}, predecessors {}, ancestors {}",
            task.worst(k),
            Pieces(task.predecessors(k)),
            Pieces(task.ancestors(k))
        )?;
    }
    println!(rt; "{} pieces, {} edges", task.pieces(), task.edges())
}

fn main(rt: HostRuntime) -> io::Result<()> {
    match worked_example() {
        Ok(task) => print_task(&rt, &task),
        Err(refusal) => println!(rt; "refused with {}", refusal.number()),
    }
}
