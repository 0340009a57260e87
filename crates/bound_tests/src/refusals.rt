// Refusals: cores and scratch at both ends of their limits, which comes first, and that a refused call leaves the scratch.
use crate::asking::SCRATCH;
use bound::Bound;
use example::alike::alike;
use example::worked::worked_example;
use std::test::Fail;
use task::stages::Filed;

// The number that a bound in so much scratch is refused with: numbers are what is promised. A refused call that writes to the scratch fails the test.
fn refused(task: &Filed, cores: u32, room: usize) -> Result<Option<u8>, Fail> {
    let mut scratch = [7; SCRATCH];
    let scratch = scratch.get_mut(..room).ok_or("there is less scratch")?;
    let Err(refusal) = Bound::of(task, cores, scratch) else {
        return Ok(None);
    };
    if scratch.iter().any(|x| *x != 7) {
        return Err(Fail::new("a refused call altered the scratch"));
    }
    Ok(Some(refusal.number()))
}

#[test]
fn there_are_1_to_16_cores(rt: HostRuntime) -> Result<(), Fail> {
    let task = worked_example()?;
    for cores in [1, 16] {
        assert_eq!(rt; refused(&task, cores, 64)?, None);
    }
    for cores in [0, 17, u32::MAX] {
        assert_eq!(rt; refused(&task, cores, 64)?, Some(31));
    }
    for (cores, room) in [(17, 63), (0, 0)] {
        assert_eq!(rt;
            refused(&task, cores, room)?,
            Some(31),
            "cores come before scratch"
        );
    }
    Ok(())
}

#[test]
fn the_scratch_takes_two_more_than_the_pieces_squared(rt: HostRuntime) -> Result<(), Fail> {
    // pieces, and (pieces + 2) × (pieces + 2)
    for (pieces, room) in [(0, 4), (1, 9), (6, 64), (64, 4356)] {
        let task = alike(pieces, 1)?.file();
        assert_eq!(rt; refused(&task, 16, room)?, None);
        assert_eq!(rt; refused(&task, 16, room - 1)?, Some(32));
    }
    assert_eq!(rt; refused(&alike(0, 1)?.file(), 1, 0)?, Some(32));
    Ok(())
}
