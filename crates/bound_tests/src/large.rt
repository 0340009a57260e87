// Tasks as large as they come: 64 pieces, the largest worst times, and more paths than could be walked.
use crate::asking::bound_on;
use bound::Bound;
use example::alike::alike;
use std::test::Fail;
use task::stages::Filed;

// 16 layers of 4 pieces of one tick, each waiting for all of the layer before: 4 to the power 16 complete paths, which are
// 4,294,967,296. A path takes one piece of each layer, and its three layer mates interfere with it.
fn layered() -> Result<Filed, Fail> {
    let mut linking = alike(64, 1)?;
    for after in 4..64 {
        // the first piece of the layer before
        let first = (after / 4 - 1) * 4;
        for before in first..first + 4 {
            linking.link(before, after)?;
        }
    }
    Ok(linking.file())
}

// 64 pieces of 65,535 in one row.
fn in_a_row() -> Result<Filed, Fail> {
    let mut linking = alike(64, 65535)?;
    for k in 0..63 {
        linking.link(k, k + 1)?;
    }
    Ok(linking.file())
}

// Cores, numerator, ticks and busy of the layers; the chain is 16 and the volume 64 on any cores. On c cores the layers have
// c × 16 + 16 × 3.
const LAYERS: [(u32, u32, u32, u32); 4] = [
    (1, 64, 64, 100),
    (3, 96, 32, 67),
    (4, 112, 28, 57),
    (16, 304, 19, 21),
];

// A row of all the work there can be: 64 × 65,535 = 4,194,240 ticks, on 16 cores a numerator of 67,107,840, and one core of 16
// busy, which is 6.25 percent.
const LONGEST_ROW: Bound = Bound {
    numerator: 67107840,
    ticks: 4194240,
    chain: 4194240,
    volume: 4194240,
    busy: 6,
};

// The same pieces side by side: (16 + 63) × 65,535 = 5,177,265, which is 16 × 323,579 and 1 more. 4,194,240 of 16 × 323,579 are
// 81.01 percent.
const SIDE_BY_SIDE: Bound = Bound {
    numerator: 5177265,
    ticks: 323579,
    chain: 65535,
    volume: 4194240,
    busy: 81,
};

#[test]
fn the_largest_tasks_are_bounded(rt: HostRuntime) -> Result<(), Fail> {
    let layers = layered()?;
    assert_eq!(rt; layers.edges(), 240);
    for (cores, numerator, ticks, busy) in LAYERS {
        let expected = Bound {
            numerator,
            ticks,
            chain: 16,
            volume: 64,
            busy,
        };
        assert_eq!(rt; bound_on(&layers, cores)?, expected, "on {cores} cores");
    }
    assert_eq!(rt; bound_on(&in_a_row()?, 16)?, LONGEST_ROW);
    assert_eq!(rt; bound_on(&alike(64, 65535)?.file(), 16)?, SIDE_BY_SIDE);
    Ok(())
}
