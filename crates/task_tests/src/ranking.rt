// Rankings: one priority for each piece, of both kinds that we ship and of one that this crate declares.
use crate::deadlines::Deadline;
use example::alike::alike;
use std::test::Fail;
use task::priorities::{Band, Banded, Plain, Priority};
use task::stages::Filed;

fn banded(band: Band, number: u8) -> Banded {
    Banded { band, number }
}

// The not-after sets of a task's first three pieces.
fn not_after_sets(task: &Filed) -> [u64; 3] {
    [0, 1, 2].map(|k| task.not_after(k))
}

// The not-after sets of three pieces that are ranked so.
fn ranked<P: Priority>(priorities: &[P]) -> Result<[u64; 3], Fail> {
    let mut linking = alike(3, 1)?;
    linking.rank(priorities)?;
    Ok(not_after_sets(&linking.file()))
}

#[test]
fn each_piece_has_one_priority(rt: HostRuntime) -> Result<(), Fail> {
    let plain = [Plain(0), Plain(255), Plain(0), Plain(1)];
    let mut linking = alike(3, 1)?;
    for n in [0, 2, 4] {
        let ranking = linking.rank(&plain[..n]);
        assert_eq!(rt; ranking.err().map(|e| e.number()), Some(13));
    }
    let task = linking.file();
    assert!(rt;
        task.not_after(0) == 0b111 && task.not_after(2) == 0b111,
        "without a ranking all are equal"
    );
    Ok(())
}

#[test]
fn the_smaller_is_ahead(rt: HostRuntime) -> Result<(), Fail> {
    assert_eq!(rt;
        ranked(&[Plain(0), Plain(255), Plain(0)])?,
        [0b101, 0b111, 0b101]
    );
    let numbers = [
        banded(Band::One, 0),
        banded(Band::Zero, 255),
        banded(Band::Zero, 1),
    ];
    assert_eq!(rt; ranked(&numbers)?, [0b111, 0b110, 0b100]);
    let bands = [
        banded(Band::Three, 7),
        banded(Band::Two, 9),
        banded(Band::Three, 7),
    ];
    assert_eq!(rt; ranked(&bands)?, [0b111, 0b010, 0b111]);
    let deadlines = [
        Deadline { tick: 100000 },
        Deadline { tick: 9 },
        Deadline { tick: 70000 },
    ];
    assert_eq!(rt; ranked(&deadlines)?, [0b111, 0b010, 0b110]);
    Ok(())
}

#[test]
fn a_later_ranking_replaces_an_earlier_one(rt: HostRuntime) -> Result<(), Fail> {
    let mut linking = alike(3, 1)?;
    linking.rank(&[Plain(1), Plain(2), Plain(3)])?;
    linking.rank(&[Plain(3), Plain(2), Plain(1)])?;
    assert_eq!(rt; not_after_sets(&linking.file()), [0b111, 0b110, 0b100]);
    Ok(())
}
