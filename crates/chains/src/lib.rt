// Chains: the greatest lengths of paths, from each piece on and over the whole task.
#![tactic(auto)]

ghost use Rattle.std.specs.Prelude.{◌+◌, slice_index};
ghost use Rattle.sets.specs.Sets.{member, LargestWhere};
ghost use Rattle.sets.specs.Levels.{ByKey};
ghost use Rattle.theory.specs.Tasks.{above};
ghost use Rattle.theory.specs.Paths.{Chain};
ghost use Rattle.task.specs.Filing.{filed_task};
ghost use Rattle.chains.specs.Chains.{deep, Known, Remainders};

use sets::{Levelled, first, largest_over, pieces_of};
use task::stages::Filed;

// The largest of the lengths of the set's pieces, and 0 where it has none.
fn longest_of(lengths: &[u32; 64], set: u64) -> u32
    ensures { LargestWhere (member set) (λ k. slice_index lengths.now k) result }
{
    largest_over(set, |k| lengths[k] as u64) as u32
}

// The pieces by how many ancestors they have: along an edge there are more.
fn by_depth(task: &Filed) -> Levelled
    ensures { ByKey (above (filed_task task.now)) (filed_task task.now).pieces result }
{
    Levelled::by_size(first(task.pieces()), |v| task.ancestors(v))
}

// Writes the remaining chains of the pieces of a level, where those of all deeper pieces are written.
fn lengthen(task: &Filed, levels: &Levelled, level: usize, lengths: &mut [u32; 64])
    requires sorted { ByKey (above (filed_task task.now)) (filed_task task.now).pieces levels.now }
    requires deeper { Known (filed_task task.now) (deep (filed_task task.now) (level + 1)) lengths.old }
    ensures { Known (filed_task task.now) (deep (filed_task task.now) level) lengths.new }
{
    let set = levels.at(level);
    for v in pieces_of(set) {
        lengths[v] = task.worst(v) + longest_of(lengths, task.successors(v));
    }
}

// The remaining chain of each piece: the greatest length of a path that starts there.
pub fn remaining(task: &Filed) -> [u32; 64]
    ensures { Remainders (filed_task task.now) result }
{
    let levels = by_depth(task);
    let mut lengths = [0; 64];
    for level in (0..64).rev() {
        lengthen(task, &levels, level, &mut lengths);
    }
    lengths
}

// The greatest length of a complete path, and 0 without pieces.
pub fn chain(task: &Filed) -> u32
    ensures { Chain (filed_task task.now) result }
{
    let lengths = remaining(task);
    longest_of(&lengths, first(task.pieces()))
}
