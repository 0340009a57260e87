// Kinds of priority: how two priorities compare, and the two kinds that we ship.
ghost use Rattle.std.specs.Prelude.{◌≡◌, Bool, true, ◌||◌};
ghost use Rattle.task.specs.Priorities.{plain_not_after, banded_not_after, place};
ghost use Rattle.std.proofs.Common.{rules};
ghost use Rattle.task.specs.Bands.{in_order};

// A kind of priority: any two compare, and what is not after one that is not after a third is not after the third.
// Two are equal if each is not after the other; one is ahead of the other if it is not after it, and not equal.
pub trait Priority {
    ghost not_after: { Self → Self → Bool };

    // Whether this priority is not after the other.
    fn not_after(&self, other: &Self) -> bool
        ensures { result ≡ not_after self.now other.now };

    ghost total: { (a b : Self) → (not_after a b || not_after b a) ≡ true };

    ghost transitive: { (a b c : Self) → not_after a b ≡ true → not_after b c ≡ true → not_after a c ≡ true };
}

// A number: the smaller is ahead.
#[derive(Clone, Copy, PartialEq, Eq, PartialOrd, Ord)]
pub struct Plain(pub u8);

impl Priority for Plain {
    ghost not_after = { plain_not_after };

    ghost total = { Prim.search rules };

    ghost transitive = { Prim.search rules };

    // By its one number: the derived order says it in no fewer words.
    fn not_after(&self, other: &Plain) -> bool {
        self.0 <= other.0
    }
}

// The bands there are, from the one ahead to the one behind.
#[derive(Clone, Copy, PartialEq, Eq, PartialOrd, Ord)]
pub enum Band {
    Zero,
    One,
    Two,
    Three,
}

// A number within a band: the smaller band is ahead, and within a band the smaller number.
#[derive(Clone, Copy, PartialEq, Eq, PartialOrd, Ord)]
pub struct Banded {
    pub band: Band,
    pub number: u8,
}

impl Priority for Banded {
    ghost not_after = { banded_not_after };

    ghost total = { Prim.search rules };

    ghost transitive = { λ a b c x y. in_order (place a.band) (place b.band) (place c.band) a.number b.number c.number x y };

    // Without a branch: which of two priorities is ahead can't be guessed, and by the derived order of the pair, or by `||` and
    // `&&`, a ranking took three times as long.
    fn not_after(&self, other: &Banded) -> bool {
        (self.band < other.band) | ((self.band == other.band) & (self.number <= other.number))
    }
}
