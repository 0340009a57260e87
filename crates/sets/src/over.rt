// Going over the pieces of a set with a closure: those that pass a test, the largest of their values, and the sum. Loops, since of
// the library's chains it stays open here that the closure may be called of each piece, that a sum fits, and what they answer.
ghost use Rattle.std.specs.Prelude.{◌≡◌, ℕ, ◌<◌, true};
ghost use Rattle.sets.specs.Sets.{member};
ghost use Rattle.sets.specs.Over.{FilterAnswer, LargestAnswer, SumAnswer};

use crate::{pieces_of, with};

// The pieces of the set that pass the test.
pub fn filtered<F: Fn(usize) -> bool>(set: u64, test: F) -> u64
    requires { (k : ℕ) → k < 64 → member set k ≡ true → F.pre test k }
    ensures { FilterAnswer (member set) (F.post test) result }
{
    let mut passing = 0;
    for k in pieces_of(set) {
        passing = with(passing, k, test(k));
    }
    passing
}

// The largest value of a piece of the set, and 0 where it has none.
pub fn largest_over<F: Fn(usize) -> u64>(set: u64, value: F) -> u64
    requires { (k : ℕ) → k < 64 → member set k ≡ true → F.pre value k }
    ensures { LargestAnswer (member set) (F.post value) result }
{
    let mut largest = 0;
    for k in pieces_of(set) {
        largest = value(k).max(largest);
    }
    largest
}

// The values of the pieces of the set, added up.
pub fn sum_over<F: Fn(usize) -> u32>(set: u64, value: F) -> u64
    requires { (k : ℕ) → k < 64 → member set k ≡ true → F.pre value k }
    ensures { SumAnswer set (F.post value) result }
{
    let mut sum = 0;
    for k in pieces_of(set) {
        sum += value(k) as u64;
    }
    sum
}
