// Scripts: lists of sets that are taken one after the other.
ghost use Rattle.std.specs.Prelude.{◌≡◌, ℕ, List, drop, slice_index};

// A list of sets, of which the first is taken at each call.
pub trait Script {
    // the sets that are still to come
    ghost sets: { Self → List ℕ };

    // Takes the next set of the list; past its end there is none, and the set is empty.
    fn next_set(&mut self) -> u64
        ensures taken { result ≡ slice_index (sets self.old) 0 }
        ensures rest { sets self.new ≡ drop 1 (sets self.old) };
}

impl<'a> Script for &'a [u64] {
    ghost sets = { λ s. s.now };

    fn next_set(&mut self) -> u64 {
        match self.split_first() {
            Some((first, rest)) => {
                *self = rest;
                *first
            }
            None => 0,
        }
    }
}
