// The worked example on every number of cores.
use crate::asking::bound_on;
use bound::Bound;
use example::worked::worked_example;
use std::test::Fail;

// Ticks, numerator and busy on 1 to 16 cores; the chain is 5 and the volume 15 on all of them.
const ROWS: [(u32, u32, u32); 16] = [
    (15, 15, 100),
    (9, 18, 83),
    (7, 23, 71),
    (7, 28, 54),
    (6, 33, 50),
    (6, 38, 42),
    (6, 43, 36),
    (6, 48, 31),
    (5, 53, 33),
    (5, 58, 30),
    (5, 63, 27),
    (5, 68, 25),
    (5, 73, 23),
    (5, 78, 21),
    (5, 83, 20),
    (5, 88, 19),
];

#[test]
fn the_worked_example_is_bounded(rt: HostRuntime) -> Result<(), Fail> {
    let task = worked_example()?;
    for (cores, (ticks, numerator, busy)) in (1..=16).zip(ROWS) {
        let expected = Bound {
            numerator,
            ticks,
            chain: 5,
            volume: 15,
            busy,
        };
        assert_eq!(rt; bound_on(&task, cores)?, expected, "on {cores} cores");
    }
    Ok(())
}
