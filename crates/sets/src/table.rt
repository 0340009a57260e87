// Tables with a set for each piece, made by a closure.
ghost use Rattle.std.specs.Prelude.{◌≡◌, ℕ, ◌<◌, ◌≤◌, slice_index};

use std::array;

// For each of the pieces below n the set that the closure answers, and the empty set for all others.
pub fn table_of<F: Fn(usize) -> u64>(n: usize, set: F) -> [u64; 64]
    requires { (k : ℕ) → k < 64 → k < n → F.pre set k }
    ensures pieces { (k : ℕ) → k < 64 → k < n → F.post set k (slice_index result k) }
    ensures others { (k : ℕ) → n ≤ k → slice_index result k ≡ 0 }
{
    array::from_fn(
        |k|
            requires { k < n → F.pre set k }
            ensures piece { k < n → F.post set k result }
            ensures other { n ≤ k → result ≡ 0 }
        { if k < n { set(k) } else { 0 } },
    )
}
