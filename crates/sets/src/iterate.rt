// The pieces of a set one after the other, from the lowest up: `for k in pieces_of(set)`.
ghost use Rattle.std.specs.Prelude.{◌≡◌};
ghost use Rattle.sets.specs.Sets.{size_of, Takes};
ghost use Rattle.std.specs.Iterator.{at_most};

// The pieces that are still to come.
#[derive(Clone, Copy)]
pub struct Pieces {
    rest: u64,
}

// The pieces of the set, from the lowest up.
pub fn pieces_of(set: u64) -> Pieces
    ensures { result.rest ≡ set }
{
    Pieces { rest: set }
}

impl Iterator for Pieces {
    type Item = usize;

    ghost remaining = { λ p. at_most (size_of p.rest) };

    ghost next_gives = { λ p r q. Takes p.rest r q.rest };

    fn next(&mut self) -> Option<usize> {
        if self.rest == 0 {
            return None;
        }
        let lowest = self.rest.trailing_zeros() as usize;
        self.rest &= self.rest - 1;
        Some(lowest)
    }
}
