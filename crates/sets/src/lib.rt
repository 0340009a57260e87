// Sets of pieces as masks: bit k of a set, worth 2 to the power k, stands for piece k, 0 to 63.
// A number above 63 is no piece: it is in no set, and adding or removing it changes nothing. A set is a plain `u64`, with no type
// of its own, as the project asks: whoever holds two joins them by `&` and `|`.
#![tactic(auto)]

ghost use Rattle.std.specs.Prelude.{◌≡◌, ℕ, ◌<◌, ◌≤◌, not, ◌&&◌, ◌||◌, ◌==◌, nat_lt};
ghost use Rattle.sets.specs.Sets.{member, size_of, SetOf};

mod iterate;
mod levels;
mod over;
mod table;
#[cfg(test)]
mod tests;

pub use iterate::{Pieces, pieces_of};
pub use levels::Levelled;
pub use over::{filtered, largest_over, sum_over};
pub use table::table_of;

// Whether piece k is in the set.
pub fn has(set: u64, k: usize) -> bool
    ensures { result ≡ member set k }
{
    if k >= 64 {
        return false;
    }
    (set >> k) & 1 == 1
}

// The set, and piece k too where it is to be added.
pub fn with(set: u64, k: usize, add: bool) -> u64
    ensures added { k < 64 → (j : ℕ) → member result j ≡ (member set j || (k == j && add)) }
    ensures beyond { 64 ≤ k → result ≡ set }
{
    if k >= 64 {
        return set;
    }
    if add { set | (1 << k) } else { set }
}

// The set without piece k.
pub fn without(set: u64, k: usize) -> u64
    ensures removed { k < 64 → (j : ℕ) → member result j ≡ (member set j && not (k == j)) }
    ensures beyond { 64 ≤ k → result ≡ set }
{
    if k >= 64 {
        return set;
    }
    set & !(1 << k)
}

// The pieces below n: all 64 where n is more.
pub fn first(n: usize) -> u64
    ensures { SetOf 64 (λ k. nat_lt k n) result }
{
    if n >= 64 {
        return u64::MAX;
    }
    (1 << n) - 1
}

// How many pieces the set has.
pub fn size(set: u64) -> u32
    ensures { result ≡ size_of set }
{
    set.count_ones()
}
