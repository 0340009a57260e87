// A platform of true times at work.
ghost use Rattle.std.specs.Prelude.{◌≡◌, ◌+◌, ◌&&◌, ◌==◌, nat_lt};
ghost use Rattle.theory.specs.Platforms.{Works};
ghost use Rattle.platform.specs.Timed.{timed_means, true_time, EndsOnTime};
ghost use Rattle.theory.proofs.Platforms.{sound_of};

use crate::platforms::{Ends, Platform};
use crate::timed::TimedPlatform;

impl Platform for TimedPlatform {
    ghost meaning = { timed_means };

    ghost sound = { λ p. sound_of p.held.sound };

    fn worst(&self, piece: usize) -> u32 {
        self.held.worst(piece)
    }

    fn ran(&self, piece: usize) -> u32 {
        self.held.ran(piece)
    }

    // Whether the piece has ended: whether it is held and has run its true time.
    fn ended(&self, piece: usize) -> bool
        ensures ended { result ≡ (timed_means self.now).ended piece }
        ensures on_time { result ≡ (nat_lt 0 ((timed_means self.now).worst piece) && (timed_means self.now).ran piece == true_time self.now piece) }
    {
        self.held.ended(piece)
    }

    fn work(&mut self, set: u64) -> Ends
        ensures works { Works (timed_means self.old) set result.ended (timed_means self.new) }
        ensures on_time { EndsOnTime self.old set result.ended self.new }
    {
        let due = self.held.reaching(&self.times, set);
        let ended = self.held.work(set, due);
        Ends { ended }
    }
}
