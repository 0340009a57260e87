// Sets on a few masks, at both ends of the pieces there are.
use crate::{
    Levelled, filtered, first, has, largest_over, pieces_of, size, sum_over, table_of, with,
    without,
};

#[test]
fn sets_are_their_bits(rt: HostRuntime) {
    assert!(rt; has(5, 2) && !has(5, 1) && has(1 << 63, 63) && !has(u64::MAX, 64));
    assert_eq!(rt; with(5, 1, true), 7);
    assert_eq!(rt; with(5, 1, false), 5);
    assert_eq!(rt; with(5, 64, true), 5);
    assert_eq!(rt; without(5, 2), 1);
    assert_eq!(rt; without(5, 1), 5);
    assert_eq!(rt; without(5, 64), 5);
    assert!(rt; first(0) == 0 && first(3) == 7 && first(64) == u64::MAX && first(65) == u64::MAX);
    assert!(rt; size(0) == 0 && size(7) == 3 && size(u64::MAX) == 64);
}

#[test]
fn pieces_come_from_the_lowest_up(rt: HostRuntime) {
    assert!(rt; pieces_of(0).eq([]) && pieces_of(1).eq([0]) && pieces_of(0b1010).eq([1, 3]));
    assert!(rt; pieces_of(1 << 63 | 1 << 40 | 2).eq([1, 40, 63]));
}

#[test]
fn pieces_stand_at_their_levels(rt: HostRuntime) {
    let mut levels = Levelled::none();
    levels.put(0, 63);
    levels.put(64, 0);
    levels.put(64, 5);
    levels.put(65, 1);
    levels.put(3, 64);
    assert!(rt; levels.at(0) == 1 << 63 && levels.at(64) == 0b100001);
    assert!(rt; levels.at(3) == 0 && levels.at(65) == 0);
}

#[test]
fn closures_go_over_the_pieces(rt: HostRuntime) {
    assert_eq!(rt; filtered(0b1011, |k| k != 1), 0b1001);
    assert_eq!(rt; filtered(1 << 63, |k| k == 63), 1 << 63);
    assert!(rt; largest_over(0b1101, |k| 100 - k as u64) == 100 && largest_over(0, |_| 7) == 0);
    assert_eq!(rt; sum_over(1 << 63 | 0b101, |k| k as u32), 65);
    assert_eq!(rt; sum_over(u64::MAX, |_| u32::MAX), 64 * u32::MAX as u64);
    let table = table_of(3, |k| first(k));
    assert!(rt; table[0] == 0 && table[1] == 1 && table[2] == 3 && table[3] == 0 && table[63] == 0);
    let levels = Levelled::by_size(0b110, |k| first(k));
    assert!(rt; levels.at(0) == 0 && levels.at(1) == 2 && levels.at(2) == 4 && levels.at(3) == 0);
}
