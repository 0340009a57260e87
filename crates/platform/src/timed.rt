// Platforms of true times: each piece ends once it has run its true time.
ghost use Rattle.std.specs.Prelude.{◌≡◌, ℕ, ◌≤◌, ◌&&◌, ◌==◌, nat_lt, slice_index};
ghost use Rattle.sets.specs.Sets.{member};

use crate::held::Holding;

mod filling;
mod working;

// A piece's worst time, and its true time, after which it ends.
#[derive(Clone, Copy)]
pub struct TimedRow {
    pub worst: u32,
    pub time: u32,
}

// Pieces with their true times, 0 for a piece that is not held: side by side with what is held, as worst times are. No true time
// is above the worst, none has run past it, and the pieces that have ended are those that have run it.
#[derive(Drop)]
pub struct TimedPlatform {
    held: Holding,
    times: [u32; 64],
    ghost fits: { (k : ℕ) → slice_index times k ≤ slice_index held.worst k },
    ghost within: { (k : ℕ) → slice_index held.ran k ≤ slice_index times k },
    ghost on_time: { (k : ℕ) → member held.ended k ≡ (nat_lt 0 (slice_index held.worst k) && slice_index held.ran k == slice_index times k) },
}
