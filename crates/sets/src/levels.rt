// Sets of pieces by a level that each of them has, so that pieces can be gone through in the order of their levels.
ghost use Rattle.std.specs.Prelude.{◌≡◌, ℕ, ◌<◌, ◌≤◌, true, false, ◌&&◌, ◌||◌, ◌⊎◌, ◌==◌};
ghost use Rattle.sets.specs.Sets.{member};
ghost use Rattle.sets.specs.Levels.{level_of, BySize};

use crate::{pieces_of, size, with};

// The set of pieces of each level, 0 to 64.
#[derive(Clone, Copy)]
pub struct Levelled {
    sets: [u64; 65],
}

impl Levelled {
    // No piece at any level.
    pub fn none() -> Levelled
        ensures { (l j : ℕ) → member (level_of result l) j ≡ false }
    {
        Levelled { sets: [0; 65] }
    }

    // Each of these pieces at the level of the size of the set that the closure answers of it.
    pub fn by_size<F: Fn(usize) -> u64>(pieces: u64, sets: F) -> Levelled
        requires { (k : ℕ) → k < 64 → member pieces k ≡ true → F.pre sets k }
        ensures { BySize (member pieces) (F.post sets) result }
    {
        let mut levels = Levelled::none();
        for k in pieces_of(pieces) {
            levels.put(size(sets(k)) as usize, k);
        }
        levels
    }

    // Puts piece k at a level; nothing changes where there is no such piece or level.
    pub fn put(&mut self, level: usize, k: usize)
        ensures there { level ≤ 64 → k < 64 → (l j : ℕ) → member (level_of self.new l) j ≡ (member (level_of self.old l) j || (level == l && k == j)) }
        ensures beyond { (64 < level) ⊎ (64 ≤ k) → self.new ≡ self.old }
    {
        if level > 64 || k >= 64 {
            return;
        }
        self.sets[level] = with(self.sets[level], k, true);
    }

    // The pieces of a level, and none above 64.
    pub fn at(&self, level: usize) -> u64
        ensures { result ≡ level_of self.now level }
    {
        self.sets.get(level).copied().unwrap_or(0)
    }
}
