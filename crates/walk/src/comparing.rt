// Comparing what the walk says of a task with what the call says, on every number of cores.
ghost use Rattle.std.specs.Prelude.{◌≡◌, ◌+◌, ◌↔◌, min, replicate, IsOk, IfErr};
ghost use Rattle.walk.specs.declared.comparing.Stop.TheVariants.{Differed, Unfiled, Unbounded};

use crate::drawing::drawn_task;
use crate::draws::Draws;
use crate::walking::{Walked, walk};
use bound::{Bound, BoundRefusal};
use example::lists::Refusal;
use std::fmt;
use task::stages::Filed;

// The scratch of 9 pieces: (9 + 2) × (9 + 2) numbers.
const SCRATCH: usize = 121;

// How much was compared.
#[derive(Clone, Copy, Default)]
pub(crate) struct Tally {
    pub tasks: u32,
    paths: u64,
    comparisons: u64,
}

impl fmt::Display for Tally {
    fn fmt<W: fmt::Write>(&self, f: &mut fmt::Formatter<W>) -> fmt::Result {
        write!(
            f,
            "{} tasks, {} complete paths, {} comparisons",
            self.tasks, self.paths, self.comparisons
        )
    }
}

// A number that both the walk and the call say of a task.
#[derive(Clone, Copy)]
enum Number {
    Numerator,
    Chain,
}

impl fmt::Display for Number {
    fn fmt<W: fmt::Write>(&self, f: &mut fmt::Formatter<W>) -> fmt::Result {
        f.write_str(match self {
            Number::Numerator => "numerator",
            Number::Chain => "chain",
        })
    }
}

// Where the walk and the call differ, on which number, and what each says.
#[derive(Clone, Copy)]
pub(crate) struct Difference {
    cores: u32,
    number: Number,
    walked: u64,
    called: u32,
}

impl fmt::Display for Difference {
    fn fmt<W: fmt::Write>(&self, f: &mut fmt::Formatter<W>) -> fmt::Result {
        write!(
            f,
            "on {} cores, {}: the walk says {}, the call {}",
            self.cores, self.number, self.walked, self.called
        )
    }
}

impl Tally {
    // Counts one comparison, and says where the two differ.
    fn same(
        &mut self,
        cores: u32,
        number: Number,
        walked: u64,
        called: u32,
    ) -> Result<(), Difference>
        ensures counted { self.new ≡ record self.old { comparisons = min (self.old.comparisons + 1) u64.MAX } }
        ensures agreed { IsOk result ↔ (walked ≡ called) }
        ensures differing { IfErr result (λ d. d ≡ record { cores = cores; number = number; walked = walked; called = called }) }
    {
        self.comparisons = self.comparisons.saturating_add(1);
        if walked == u64::from(called) {
            return Ok(());
        }
        Err(Difference {
            cores,
            number,
            walked,
            called,
        })
    }
}

// Why a comparison stops before its end. The last task that was counted is the one that it stops at.
#[derive(Clone, Copy)]
pub(crate) enum Stop {
    Differed(Difference),
    Unfiled(Refusal),
    Unbounded(BoundRefusal),
}

impl fmt::Display for Stop {
    fn fmt<W: fmt::Write>(&self, f: &mut fmt::Formatter<W>) -> fmt::Result {
        match self {
            Stop::Differed(difference) => write!(f, "{difference}"),
            Stop::Unfiled(e) => write!(f, "was not filed, refused with {}", e.number()),
            Stop::Unbounded(e) => write!(f, "was not bounded, refused with {}", e.number()),
        }
    }
}

impl From<Difference> for Stop {
    ghost from_gives = { λ e r. r ≡ Differed e };

    fn from(difference: Difference) -> Stop {
        Stop::Differed(difference)
    }
}

impl From<Refusal> for Stop {
    ghost from_gives = { λ e r. r ≡ Unfiled e };

    fn from(e: Refusal) -> Stop {
        Stop::Unfiled(e)
    }
}

impl From<BoundRefusal> for Stop {
    ghost from_gives = { λ e r. r ≡ Unbounded e };

    fn from(e: BoundRefusal) -> Stop {
        Stop::Unbounded(e)
    }
}

// A comparison on its way: the lot that draws its tasks, the scratch that the call works in, and how much was compared. The
// scratch is full of ones at first, and then as the last call left it, so that a call that leans on what was there shows.
#[derive(Drop)]
pub(crate) struct Comparison {
    draws: Draws,
    scratch: [u64; SCRATCH],
    tally: Tally,
}

impl Comparison {
    // Nothing compared yet, and the tasks of this seed to come.
    pub(crate) fn new(seed: u64) -> Comparison
        ensures draws { result.draws.state ≡ seed }
        ensures scratch { result.scratch ≡ replicate SCRATCH u64.MAX }
        ensures tally { result.tally ≡ record { tasks = 0; paths = 0; comparisons = 0 } }
    {
        Comparison {
            draws: Draws::new(seed),
            scratch: [u64::MAX; SCRATCH],
            tally: Tally::default(),
        }
    }

    // How much was compared.
    pub(crate) fn tally(&self) -> Tally
        ensures { result ≡ self.now.tally }
    {
        self.tally
    }

    // Compares the numerator and the chain of a task on 1 to 16 cores.
    fn compare(&mut self, task: &Filed, walked: &Walked) -> Result<(), Stop> {
        for cores in 1..=16 {
            let bound = Bound::of(task, cores, &mut self.scratch)?;
            self.tally.same(
                cores,
                Number::Numerator,
                walked.numerator(cores),
                bound.numerator,
            )?;
            self.tally
                .same(cores, Number::Chain, walked.chain, bound.chain)?;
        }
        Ok(())
    }

    // Draws the next task, walks it, and compares.
    fn compare_next(&mut self) -> Result<(), Stop> {
        self.tally.tasks = self.tally.tasks.saturating_add(1);
        let task = drawn_task(&mut self.draws)?;
        let walked = walk(&task);
        self.tally.paths = self.tally.paths.saturating_add(walked.paths);
        self.compare(&task, &walked)
    }

    // Draws so many tasks and compares each, up to the first that differs.
    pub(crate) fn compare_all(&mut self, tasks: u32) -> Result<(), Stop> {
        for _ in 0..tasks {
            self.compare_next()?;
        }
        Ok(())
    }
}
