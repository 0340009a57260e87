// The task's numerator: the largest over all complete paths.
ghost use Rattle.task.specs.Filing.{filed_task};
ghost use Rattle.numerator.specs.Finding.{NumeratorSays};

use crate::refusals::BoundRefusal;
use crate::setting::Setting;
use crate::table::Table;
use task::stages::Filed;

// The largest numerator of a complete path on 1 to 16 cores, and 0 without pieces. It works in the scratch, which takes at least
// (n + 2) × (n + 2) numbers for n pieces.
pub fn numerator(task: &Filed, cores: u32, scratch: &mut [u64]) -> Result<u32, BoundRefusal>
    ensures { NumeratorSays (filed_task task.now) cores scratch.old result scratch.new }
{
    if cores < 1 || cores > 16 {
        return Err(BoundRefusal::Cores);
    }
    let n = task.pieces();
    if scratch.len() < (n + 2) * (n + 2) {
        return Err(BoundRefusal::Scratch);
    }
    let setting = Setting::new(task, cores as u64);
    let mut table = Table::new(scratch, n);
    setting.fill(&mut table);
    setting.eliminate_all(&mut table);
    Ok(setting.greatest(&table) as u32)
}
