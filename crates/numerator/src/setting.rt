// What a numerator is found from: a task, a number of cores, and who interferes with whom.
ghost use Rattle.std.specs.Prelude.{◌≤◌};
ghost use Rattle.task.specs.Filing.{filed_task};
ghost use Rattle.numerator.specs.Tables.{Tabled};

use task::stages::Filed;

mod eliminating;
mod filling;
mod greatest;
mod joining;
mod weights;

// A task on a number of cores, with the interference set of each piece.
#[derive(Clone, Copy)]
pub(crate) struct Setting {
    task: Filed,
    cores: u64,
    interference: [u64; 64],
    ghost some: { 1 ≤ cores },
    ghost most: { cores ≤ 16 },
    ghost tabled: { Tabled (filed_task task) interference },
}
