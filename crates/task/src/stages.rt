// The three stages of filing as three types, each with what holds of it at every point.
ghost use Rattle.std.specs.Prelude.{ℕ, ◌<◌, ◌≤◌, slice_index};
ghost use Rattle.theory.specs.Tasks.{Lawful};
ghost use Rattle.task.specs.Tables.{task_from};

mod edges;
mod pieces;
mod questions;

// A task whose pieces are being entered: the first `count` worst times are theirs. An array and a count, since a task is
// held without the heap.
#[derive(Drop)]
pub struct Entering {
    count: usize,
    worst: [u32; 64],
    ghost few: { count ≤ 64 },
    ghost least: { (k : ℕ) → k < count → 1 ≤ slice_index worst k },
    ghost most: { (k : ℕ) → k < count → slice_index worst k ≤ 65535 },
}

// A task as its tables: bit a of predecessors[b] says that an edge leads from a to b, bit a of ancestors[b] that
// one or more edges do, and bit a of not_after[b] that the priority of a is not after that of b. One array for each, side by
// side, is the form that the project gives a task: whoever turns a relation round reads one array from end to end.
#[derive(Clone, Copy)]
struct Tables {
    pieces: usize,
    worst: [u32; 64],
    predecessors: [u64; 64],
    ancestors: [u64; 64],
    not_after: [u64; 64],
    ghost few: { pieces ≤ 64 },
    ghost lawful: { ∥ Lawful (task_from pieces worst predecessors ancestors not_after) ∥₁ },
}

// A task whose edges and priorities are being entered.
#[derive(Drop)]
pub struct Linking {
    tables: Tables,
}

// A task as it is bounded and run: only read, so it may be copied.
#[derive(Clone, Copy)]
pub struct Filed {
    tables: Tables,
}
