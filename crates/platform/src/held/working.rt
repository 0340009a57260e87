// The pieces held at work.
ghost use Rattle.std.specs.Prelude.{◌≡◌, ℕ, ◌+◌, ◌<◌, true, ◌&&◌, length, if◌then◌else◌, ◌==◌, slice_index};
ghost use Rattle.sets.specs.Sets.{member};
ghost use Rattle.theory.specs.Platforms.{runs, Works};
ghost use Rattle.platform.specs.Holding.{held_means, EndsAlso};

use crate::held::Holding;
use sets::{filtered, pieces_of};

// The pieces of the set that are one tick short of their limits.
fn one_short(ran: &[u32; 64], limits: &[u32; 64], set: u64) -> u64
    ensures { (k : ℕ) → member result k ≡ (member set k && slice_index ran.now k + 1 == slice_index limits.now k) }
{
    filtered(set, |k| limits[k].saturating_sub(ran[k]) == 1)
}

// The ticks run, with one more for each piece of the set.
fn one_more(ran: [u32; 64], set: u64) -> [u32; 64]
    requires { (k : ℕ) → member set k ≡ true → slice_index ran k < 65535 }
    ensures { (k : ℕ) → slice_index result k ≡ slice_index ran k + (if member set k then 1 else 0) }
{
    let mut more = ran;
    for k in pieces_of(set) {
        more[k] += 1;
    }
    more
}

impl Holding {
    // The pieces of the set that run where it is worked.
    pub(crate) fn running(&self, set: u64) -> u64
        ensures { (k : ℕ) → member result k ≡ runs (held_means self.now) set k }
    {
        set & (self.held & !self.ended)
    }

    // The pieces of the set that would run their limits' last tick.
    pub(crate) fn reaching(&self, limits: &[u32; 64], set: u64) -> u64
        ensures { (k : ℕ) → member result k ≡ (member set k && (held_means self.now).ran k + 1 == slice_index limits.now k) }
    {
        one_short(&self.ran, limits, set)
    }

    // Works the set: what runs ends where it is in `early` or runs its last tick.
    pub(crate) fn work(&mut self, set: u64, early: u64) -> u64
        ensures works { Works (held_means self.old) set result (held_means self.new) }
        ensures also { EndsAlso (held_means self.old) set early result }
    {
        let runs = self.running(set);
        let ended = (runs & early) | one_short(&self.ran, &self.worst, runs);
        *self = Holding {
            worst: self.worst,
            ran: one_more(self.ran, runs),
            held: self.held,
            ended: self.ended | ended,
        };
        ended
    }
}
