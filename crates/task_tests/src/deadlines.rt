// A kind of priority that the crate `task` does not know of.
ghost use Rattle.task_tests.specs.Deadlines.{sooner_or_same};
ghost use Rattle.std.proofs.Common.{rules};

use task::priorities::Priority;

// A tick by which a piece should have ended: the sooner is ahead.
#[derive(Clone, Copy, PartialEq, Eq, PartialOrd, Ord)]
pub struct Deadline {
    pub tick: u32,
}

impl Priority for Deadline {
    ghost not_after = { sooner_or_same };

    ghost total = { Prim.search rules };

    ghost transitive = { Prim.search rules };

    fn not_after(&self, other: &Deadline) -> bool {
        self <= other
    }
}
