// The pieces as they are held at first, and the questions on them.
ghost use Rattle.std.specs.Prelude.{◌≡◌, ℕ, ◌<◌, ◌≤◌, slice_index};
ghost use Rattle.theory.specs.Tasks.{WorstFits};
ghost use Rattle.theory.specs.Platforms.{Fresh};
ghost use Rattle.platform.specs.Holding.{held_means};

use crate::held::Holding;
use sets::{first, has};

impl Holding {
    // So many pieces that have not run, by their worst times.
    pub(crate) fn fresh(worst: [u32; 64], pieces: usize) -> Holding
        requires few { pieces ≤ 64 }
        requires fit { (k : ℕ) → k < pieces → WorstFits (slice_index worst k) }
        requires no_other { (k : ℕ) → pieces ≤ k → slice_index worst k ≡ 0 }
        ensures worst { result.worst ≡ worst }
        ensures fresh { Fresh (held_means result) }
        ensures ended { result.ended ≡ 0 }
    {
        Holding {
            worst,
            ran: [0; 64],
            held: first(pieces),
            ended: 0,
        }
    }

    // The piece's worst time, and 0 where it is not held.
    pub(crate) fn worst(&self, piece: usize) -> u32
        ensures { result ≡ (held_means self.now).worst piece }
    {
        self.worst.get(piece).copied().unwrap_or(0)
    }

    // The ticks that the piece has run.
    pub(crate) fn ran(&self, piece: usize) -> u32
        ensures { result ≡ (held_means self.now).ran piece }
    {
        self.ran.get(piece).copied().unwrap_or(0)
    }

    // Whether the piece has ended.
    pub(crate) fn ended(&self, piece: usize) -> bool
        ensures { result ≡ (held_means self.now).ended piece }
    {
        has(self.ended, piece)
    }
}
