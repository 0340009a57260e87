// The table at first: for each pair of pieces the numerator of the edge between them.
ghost use Rattle.numerator.specs.Settings.{EdgesTo, Edges};

use crate::setting::Setting;
use crate::table::Table;
use sets::pieces_of;

impl Setting {
    // Writes the cell of each ancestor of w with w.
    fn fill_column(&self, table: &mut Table, w: usize)
        ensures { EdgesTo self.now w table.old table.new }
    {
        let before = self.task.ancestors(w);
        for u in pieces_of(before) {
            table.set(u, w, self.straight(u, w));
        }
    }

    // Writes the cell of every pair of an ancestor and a piece.
    pub(crate) fn fill(&self, table: &mut Table)
        ensures { Edges self.now table.old table.new }
    {
        for w in 0..self.task.pieces() {
            self.fill_column(table, w);
        }
    }
}
