// Numerators of single pieces and of single edges.
ghost use Rattle.std.specs.Prelude.{◌≡◌, ◌≤◌};
ghost use Rattle.theory.specs.Inner.{alone as alone_at, straight as straight_at};
ghost use Rattle.numerator.specs.Settings.{task_in, Piece};

use crate::interfering::interference_table;
use crate::setting::Setting;
use crate::totals::work;
use sets::has;
use task::stages::Filed;

impl Setting {
    // The setting of a task on 1 to 16 cores.
    pub(crate) fn new(task: &Filed, cores: u64) -> Setting
        requires some { 1 ≤ cores }
        requires most { cores ≤ 16 }
        ensures task { result.task ≡ task.now }
        ensures cores { result.cores ≡ cores }
    {
        let interference = interference_table(task);
        Setting {
            task: *task,
            cores,
            interference,
        }
    }

    // The numerator of piece v alone.
    pub(crate) fn alone(&self, v: usize) -> u64
        requires { Piece self.now v }
        ensures value { result ≡ alone_at (task_in self.now) self.now.cores v }
        ensures small { result ≤ 5242800 }
    {
        self.cores * (self.task.worst(v) as u64) + work(&self.task, self.interference[v])
    }

    // The numerator of the edge from u to w, and 0 where there is none.
    pub(crate) fn straight(&self, u: usize, w: usize) -> u64
        ensures { result ≡ straight_at (task_in self.now) self.now.cores u w }
    {
        if !has(self.task.predecessors(w), u) {
            return 0;
        }
        let meeting = self.interference[u] | self.interference[w];
        self.cores * (self.task.worst(u) as u64 + self.task.worst(w) as u64)
            + work(&self.task, meeting)
    }
}
