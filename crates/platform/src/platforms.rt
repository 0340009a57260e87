// The trait of platforms, by what they mean, and what a working call answers.
ghost use Rattle.std.specs.Prelude.{◌≡◌};
ghost use Rattle.theory.specs.Platforms.{Platform as Meaning, Sound, Works};

// What a working call answers.
#[derive(Clone, Copy)]
pub struct Ends {
    // the pieces that ended by the call
    pub ended: u64,
}

// What works the pieces of a task. No call is ever refused.
pub trait Platform {
    // what is told of each piece: its worst time, the ticks that it has run, and whether it has ended
    ghost meaning: { Self → Meaning };

    // The piece's worst time, and 0 where it is not held.
    fn worst(&self, piece: usize) -> u32
        ensures { result ≡ (meaning self.now).worst piece };

    // The ticks that the piece has run.
    fn ran(&self, piece: usize) -> u32
        ensures { result ≡ (meaning self.now).ran piece };

    // Whether the piece has ended.
    fn ended(&self, piece: usize) -> bool
        ensures { result ≡ (meaning self.now).ended piece };

    // Lets each piece of the set that is held and has not ended run one tick, and answers which ended by it.
    fn work(&mut self, set: u64) -> Ends
        ensures { Works (meaning self.old) set result.ended (meaning self.new) };

    ghost sound: { (p : Self) → Sound (meaning p) };
}
