// Filling a platform of true times.
ghost use Rattle.std.specs.Prelude.{[]};
ghost use Rattle.platform.specs.Timed.{Filled, RowSays, FillSays};

use crate::held::Holding;
use crate::refusals::TimedRefusal;
use crate::timed::{TimedPlatform, TimedRow};

impl TimedRow {
    // Whether the row fits, or what is wrong with it.
    fn judge(&self) -> Result<(), TimedRefusal>
        ensures { RowSays self.now result }
    {
        if self.worst < 1 || self.worst > 65535 {
            return Err(TimedRefusal::Worst);
        }
        if self.time < 1 || self.time > self.worst {
            return Err(TimedRefusal::Time);
        }
        Ok(())
    }
}

impl TimedPlatform {
    // A platform that holds no piece.
    pub fn new() -> TimedPlatform
        ensures { Filled [] result }
    {
        TimedPlatform {
            held: Holding::fresh([0; 64], 0),
            times: [0; 64],
        }
    }

    // Row k becomes piece k, unless a row is refused.
    pub fn fill(&mut self, rows: &[TimedRow]) -> Result<(), TimedRefusal>
        ensures { FillSays self.old rows.now result self.new }
    {
        if rows.len() > 64 {
            return Err(TimedRefusal::TooMany);
        }
        let mut worst = [0; 64];
        let mut times = [0; 64];
        for (k, row) in rows.iter().enumerate() {
            row.judge()?;
            worst[k] = row.worst;
            times[k] = row.time;
        }
        *self = TimedPlatform {
            held: Holding::fresh(worst, rows.len()),
            times,
        };
        Ok(())
    }
}
