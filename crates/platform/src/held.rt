// What a platform holds of its pieces, and how they work: the part that all platforms share that we ship.
ghost use Rattle.std.specs.Prelude.{◌≡◌, ℕ, ◌≤◌, nat_lt, slice_index};
ghost use Rattle.sets.specs.Sets.{member};
ghost use Rattle.theory.specs.Platforms.{Sound};
ghost use Rattle.platform.specs.Tables.{platform_from};

mod asking;
mod working;

// Each piece's worst time, 0 for a piece that is not held, and the ticks that it has run; the set of the pieces held, and of those that have ended.
// Worst times and ticks stand side by side, not piece by piece: the ticks are held against worst times and against true times alike.
#[derive(Clone, Copy)]
pub(crate) struct Holding {
    worst: [u32; 64],
    ran: [u32; 64],
    held: u64,
    ended: u64,
    ghost most: { (k : ℕ) → slice_index worst k ≤ 65535 },
    ghost holds: { (k : ℕ) → member held k ≡ nat_lt 0 (slice_index worst k) },
    ghost sound: { ∥ Sound (platform_from worst ran ended) ∥₁ },
}
