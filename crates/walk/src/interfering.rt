// Who interferes with a piece, straight from what the task says of two pieces. `numerator` has the same two functions from sets; they
// are written again here so that the walk shares nothing with what it is held against but the questions of a filed task, and
// `has` and `with` of `sets`.
ghost use Rattle.std.specs.Prelude.{◌≡◌, ◌≤◌, ◌&&◌, if◌then◌else◌, nat_lt};
ghost use Rattle.sets.specs.Sets.{member, SetOf};
ghost use Rattle.theory.specs.Paths.{interferes as interferes_at, volume_of};
ghost use Rattle.task.specs.Filing.{filed_task};

use sets::{has, with};
use task::stages::Filed;

// Whether piece x interferes with piece v: another piece, neither an ancestor of the other, and its priority is not after v's.
fn interferes(task: &Filed, v: usize, x: usize) -> bool
    ensures { let t = filed_task task.now in result ≡ (nat_lt v t.pieces && interferes_at t v x) }
{
    if x == v || has(task.ancestors(v), x) || has(task.ancestors(x), v) {
        return false;
    }
    has(task.not_after(v), x)
}

// The pieces that interfere with piece v, and none where v is no piece of the task.
pub(crate) fn interfering(task: &Filed, v: usize) -> u64
    ensures { let t = filed_task task.now in SetOf t.pieces (λ x. nat_lt v t.pieces && interferes_at t v x) result }
{
    // a loop, since of a chain over the numbers it stays open which set it folds to
    let mut set = 0;
    for x in 0..task.pieces() {
        set = with(set, x, interferes(task, v, x));
    }
    set
}

// The worst time of piece k where it is in the set, and 0 where it is not.
fn counted(task: &Filed, set: u64, k: usize) -> u64
    ensures value { let t = filed_task task.now in result ≡ (if member set k && nat_lt k t.pieces then t.worst k else 0) }
    ensures small { result ≤ 65535 }
{
    if has(set, k) {
        u64::from(task.worst(k))
    } else {
        0
    }
}

// The worst times of the pieces in the set, added up.
pub(crate) fn work(task: &Filed, set: u64) -> u64
    ensures value { result ≡ volume_of (filed_task task.now) (member set) }
    ensures small { result ≤ 4194240 }
{
    // a loop, since of a chain over the numbers it stays open that its sum fits and what it is
    let mut total = 0;
    for k in 0..task.pieces() {
        total += counted(task, set, k);
    }
    total
}
