// The largest numerator of all walks and single pieces.
ghost use Rattle.sets.specs.Sets.{LargestWhere};
ghost use Rattle.theory.specs.Inner.{Greatest};
ghost use Rattle.numerator.specs.Cells.{entry};
ghost use Rattle.numerator.specs.Settings.{task_in};

use crate::setting::Setting;
use crate::table::Table;
use sets::{first, largest_over};

impl Setting {
    // The largest numerator of a walk that ends at w, and 0 where there is none.
    fn arriving(&self, table: &Table, w: usize) -> u64
        ensures { LargestWhere (λ u. (task_in self.now).ancestor u w) (λ u. entry (task_in self.now) table.now u w) result }
    {
        largest_over(self.task.ancestors(w), |u| table.get(u, w))
    }

    // The largest numerator of a walk and of a piece alone.
    pub(crate) fn greatest(&self, table: &Table) -> u64
        ensures { Greatest (task_in self.now) self.now.cores (entry (task_in self.now) table.now) result }
    {
        largest_over(first(self.task.pieces()), |w| {
            self.alone(w).max(self.arriving(table, w))
        })
    }
}
