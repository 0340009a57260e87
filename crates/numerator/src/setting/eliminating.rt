// Taking the pieces one after the other, those ahead in priority first: walks may then go through the pieces taken.
ghost use Rattle.std.specs.Prelude.{◌+◌};
ghost use Rattle.sets.specs.Levels.{ByKey};
ghost use Rattle.task.specs.Filing.{filed_task};
ghost use Rattle.numerator.specs.Settings.{task_in, Piece, HasBest, rank, Ahead};

use crate::setting::Setting;
use crate::setting::joining::Joint;
use crate::table::Table;
use sets::{Levelled, first, pieces_of};
use task::stages::Filed;

// The pieces by how many are not after them: those ahead come first.
fn by_rank(task: &Filed) -> Levelled
    ensures { ByKey (rank (filed_task task.now)) (filed_task task.now).pieces result }
{
    Levelled::by_size(first(task.pieces()), |v| task.not_after(v))
}

impl Setting {
    // Takes the pieces of one level, all that are ahead of them being taken.
    fn eliminate_level(&self, table: &mut Table, levels: &Levelled, level: usize)
        requires sorted { ByKey (rank (task_in self.now)) (task_in self.now).pieces levels.now }
        requires ahead { HasBest self.now (Ahead (task_in self.now) level) table.old }
        ensures { HasBest self.now (Ahead (task_in self.now) (level + 1)) table.new }
    {
        let set = levels.at(level);
        for v in pieces_of(set) {
            Joint::new(self, v).all(table);
        }
    }

    // Takes every piece: the table then has the largest numerator of all walks.
    pub(crate) fn eliminate_all(&self, table: &mut Table)
        requires { HasBest self.now (Ahead (task_in self.now) 0) table.old }
        ensures { HasBest self.now (Piece self.now) table.new }
    {
        let levels = by_rank(&self.task);
        for level in 0..65 {
            self.eliminate_level(table, &levels, level);
        }
    }
}
