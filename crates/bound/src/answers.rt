// The bound call and its answer.
ghost use Rattle.task.specs.Filing.{filed_task};
ghost use Rattle.bound.specs.Bounds.{BoundSays};
ghost use Rattle.bound.specs.Laws.{KeepsLaws};

use crate::percents::percent;
use chains::chain;
use numerator::{BoundRefusal, numerator, volume};
use task::stages::Filed;

// What a task is bounded by on a number of cores.
#[derive(Clone, Copy, Debug, PartialEq, Eq)]
pub struct Bound {
    // The largest numerator of a complete path.
    pub numerator: u32,
    // The bound itself: within so many ticks the task is done.
    pub ticks: u32,
    // The greatest length of a complete path.
    pub chain: u32,
    // The sum of all worst times.
    pub volume: u32,
    // How busy the cores are over these ticks at worst, in percent.
    pub busy: u32,
}

impl Bound {
    // Bounds a task on 1 to 16 cores. It works in the scratch, which takes at least (n + 2) × (n + 2) numbers for n pieces; its
    // contents are open after an accepted call, and a refused call alters nothing.
    pub fn of(task: &Filed, cores: u32, scratch: &mut [u64]) -> Result<Bound, BoundRefusal>
        ensures answer { BoundSays (filed_task task.now) cores scratch.old result scratch.new }
        ensures laws { KeepsLaws (filed_task task.now) cores result }
    {
        let numerator = numerator(task, cores, scratch)?;
        let ticks = numerator / cores;
        let volume = volume(task) as u32;
        Ok(Bound {
            numerator,
            ticks,
            chain: chain(task),
            volume,
            busy: percent(volume, cores * ticks) as u32,
        })
    }
}
