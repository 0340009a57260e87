// Interference sets: for each piece the pieces parallel to it whose priority is not after its own.
ghost use Rattle.std.specs.Prelude.{◌<◌};
ghost use Rattle.sets.specs.Sets.{SetOf};
ghost use Rattle.theory.specs.Paths.{parallel as parallel_at, interferes as interferes_at};
ghost use Rattle.task.specs.Filing.{filed_task};
ghost use Rattle.numerator.specs.Tables.{Tabled};

use sets::{first, with};
use task::stages::Filed;

// The pieces parallel to piece v: all but v itself, its ancestors and its descendants.
fn parallel(task: &Filed, v: usize) -> u64
    requires { v < (filed_task task.now).pieces }
    ensures { SetOf (filed_task task.now).pieces (λ x. parallel_at (filed_task task.now) x v) result }
{
    let related = with(task.ancestors(v) | task.descendants(v), v, true);
    first(task.pieces()) & !related
}

// The interference set of piece v.
fn interference(task: &Filed, v: usize) -> u64
    requires { v < (filed_task task.now).pieces }
    ensures { SetOf (filed_task task.now).pieces (interferes_at (filed_task task.now) v) result }
{
    parallel(task, v) & task.not_after(v)
}

// The interference sets of all pieces.
pub(crate) fn interference_table(task: &Filed) -> [u64; 64]
    ensures { Tabled (filed_task task.now) result }
{
    // Over the entries of the task's pieces alone: `table_of` goes over all 64, and a small task would pay for them.
    let mut table = [0; 64];
    for (v, set) in table[..task.pieces()].iter_mut().enumerate() {
        *set = interference(task, v);
    }
    table
}
