// Asking for a bound in scratch of our own.
use bound::{Bound, BoundRefusal};
use task::stages::Filed;

// The scratch of 64 pieces: (64 + 2) × (64 + 2) numbers.
pub(crate) const SCRATCH: usize = 4356;

// What the task is bounded by on so many cores. The scratch is full of ones at first: what it holds is nobody's business.
pub(crate) fn bound_on(task: &Filed, cores: u32) -> Result<Bound, BoundRefusal> {
    let mut scratch = [u64::MAX; SCRATCH];
    Bound::of(task, cores, &mut scratch)
}
