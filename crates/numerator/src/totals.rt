// The worst times of a set of pieces, added up. Both promise that the sum is at most 64 × 65,535, since the one has it from the
// other and promises it to everyone.
ghost use Rattle.std.specs.Prelude.{◌≡◌, ◌≤◌};
ghost use Rattle.sets.specs.Sets.{member};
ghost use Rattle.theory.specs.Paths.{volume_of, volume as volume_in};
ghost use Rattle.task.specs.Filing.{filed_task};

use sets::{first, sum_over};
use task::stages::Filed;

// The worst times of the task's pieces in the set, added up.
pub(crate) fn work(task: &Filed, set: u64) -> u64
    ensures value { result ≡ volume_of (filed_task task.now) (member set) }
    ensures small { result ≤ 4194240 }
{
    sum_over(set, |k| task.worst(k))
}

// The worst times of all pieces, added up.
pub fn volume(task: &Filed) -> u64
    ensures value { result ≡ volume_in (filed_task task.now) }
    ensures small { result ≤ 4194240 }
{
    work(task, first(task.pieces()))
}
