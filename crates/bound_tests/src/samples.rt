// Small tasks whose bounds are worked out by hand: a path's numerator is the cores times its length, and the worst times of all
// that interferes with a piece of it.
use crate::asking::bound_on;
use bound::Bound;
use example::lists::{Edge, file};
use std::test::Fail;
use task::priorities::Plain;

// A task by its lists, and its bound on so many cores.
#[derive(Clone, Copy)]
struct Sample {
    worst: &'static [u32],
    edges: &'static [Edge],
    priorities: &'static [Plain],
    cores: u32,
    bound: Bound,
}

// No pieces: all is 0, on any number of cores.
fn nothing(cores: u32) -> Sample {
    Sample {
        worst: &[],
        edges: &[],
        priorities: &[],
        cores,
        bound: Bound {
            numerator: 0,
            ticks: 0,
            chain: 0,
            volume: 0,
            busy: 0,
        },
    }
}

// One piece of 7 on 3 cores: 3 × 7 = 21, and 7 of 21 are 33.3 percent.
const ONE_PIECE: Sample = Sample {
    worst: &[7],
    edges: &[],
    priorities: &[Plain(0)],
    cores: 3,
    bound: Bound {
        numerator: 21,
        ticks: 7,
        chain: 7,
        volume: 7,
        busy: 33,
    },
};

// One piece of 1 on 8 cores: 1 of 8 is 12.5 percent, and a half goes up.
const A_HALF_GOES_UP: Sample = Sample {
    worst: &[1],
    edges: &[],
    priorities: &[Plain(0)],
    cores: 8,
    bound: Bound {
        numerator: 8,
        ticks: 1,
        chain: 1,
        volume: 1,
        busy: 13,
    },
};

// Two equal pieces of 5 on 2 cores: 2 × 5 + 5 = 15, and 10 of 14 are 71.4 percent.
const TWO_EQUAL: Sample = Sample {
    worst: &[5, 5],
    edges: &[],
    priorities: &[Plain(3), Plain(3)],
    cores: 2,
    bound: Bound {
        numerator: 15,
        ticks: 7,
        chain: 5,
        volume: 10,
        busy: 71,
    },
};

// Pieces 0 and 1 in a row and piece 2 beside them, all equal: 2 × (4 + 4) + 6 = 22, and 2 × 6 + 8 = 20. 14 of 22 are 63.6 percent.
const A_ROW_AND_ONE_BESIDE: Sample = Sample {
    worst: &[4, 4, 6],
    edges: &[Edge(0, 1)],
    priorities: &[Plain(1), Plain(1), Plain(1)],
    cores: 2,
    bound: Bound {
        numerator: 22,
        ticks: 11,
        chain: 8,
        volume: 14,
        busy: 64,
    },
};

// The same with the row ahead: nothing interferes with it, so that it has 16, and the piece beside it 20.
const A_ROW_AHEAD_OF_ONE_BESIDE: Sample = Sample {
    worst: &[4, 4, 6],
    edges: &[Edge(0, 1)],
    priorities: &[Plain(1), Plain(2), Plain(3)],
    cores: 2,
    bound: Bound {
        numerator: 20,
        ticks: 10,
        chain: 8,
        volume: 14,
        busy: 70,
    },
};

// Piece 3 interferes with both ends of a row, and counts once: 2 × (2 + 2 + 2) + 6 = 18; alone it has 2 × 6 + 2 = 14.
const ONE_THAT_MEETS_A_ROW_TWICE: Sample = Sample {
    worst: &[2, 2, 2, 6],
    edges: &[Edge(0, 1), Edge(1, 2)],
    priorities: &[Plain(5), Plain(1), Plain(5), Plain(3)],
    cores: 2,
    bound: Bound {
        numerator: 18,
        ticks: 9,
        chain: 6,
        volume: 12,
        busy: 67,
    },
};

#[test]
fn samples_have_their_bounds(rt: HostRuntime) -> Result<(), Fail> {
    let samples = [
        nothing(1),
        nothing(7),
        nothing(16),
        ONE_PIECE,
        A_HALF_GOES_UP,
        TWO_EQUAL,
        A_ROW_AND_ONE_BESIDE,
        A_ROW_AHEAD_OF_ONE_BESIDE,
        ONE_THAT_MEETS_A_ROW_TWICE,
    ];
    for (k, sample) in samples.into_iter().enumerate() {
        let task = file(sample.worst, sample.edges, sample.priorities)?;
        assert_eq!(rt; bound_on(&task, sample.cores)?, sample.bound, "sample {k}");
    }
    Ok(())
}
