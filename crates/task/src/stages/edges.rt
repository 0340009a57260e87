// Entering edges, ranking the pieces, and filing.
ghost use Rattle.std.specs.Prelude.{◌≡◌, ℕ, ◌<◌, ◌≤◌, ◌&&◌, ◌||◌, length, slice_index_or};
ghost use Rattle.sets.specs.Sets.{member, SetOf};
ghost use Rattle.theory.specs.Tasks.{Lawful};
ghost use Rattle.task.specs.Tables.{Reached, Columns, EmptyFrom};
ghost use Rattle.task.specs.Filing.{OnTask, Circle, Linked, LinkSays, RankSays, task_of, linking_task, filed_task};

use crate::priorities::Priority;
use crate::refusals::{EdgeRefusal, RankingRefusal};
use crate::stages::{Filed, Linking, Tables};
use sets::{has, table_of, with};

// What leads to each piece once there is an edge from before to after: to `after`, and to whatever `after` leads to,
// `before` leads now, and whatever leads to `before`.
fn reached(ancestors: &[u64; 64], before: usize, after: usize) -> [u64; 64]
    requires before { before < 64 }
    requires after { after < 64 }
    ensures { Reached ancestors.now before after 64 result }
{
    let gained = with(ancestors[before], before, true);
    table_of(64, |k| {
        if k == after || has(ancestors[k], after) {
            ancestors[k] | gained
        } else {
            ancestors[k]
        }
    })
}

// The pieces whose priorities are not after that of piece k. An index goes over the lent slice, as the project asks of a
// ranking.
fn not_after_set<P: Priority>(priorities: &[P], k: usize) -> u64
    requires k { k < length priorities.now }
    requires few { length priorities.now ≤ 64 }
    ensures { (p : P) → SetOf (length priorities.now) (λ x. P.not_after (slice_index_or priorities.now x p) (slice_index_or priorities.now k p)) result }
{
    let mut set = 0;
    for x in 0..priorities.len() {
        set = with(set, x, priorities[x].not_after(&priorities[k]));
    }
    set
}

// For each piece the pieces whose priorities are not after its own, by an index likewise. That there are at most 64 is asked twice,
// since the slice is the caller's and no type of ours holds it.
fn ranking<P: Priority>(priorities: &[P]) -> [u64; 64]
    requires { length priorities.now ≤ 64 }
    ensures sets { (p : P) → Columns (length priorities.now) (λ x y. P.not_after (slice_index_or priorities.now x p) (slice_index_or priorities.now y p)) (length priorities.now) result }
    ensures rest { EmptyFrom (length priorities.now) result }
{
    let mut table = [0; 64];
    for k in 0..priorities.len() {
        table[k] = not_after_set(priorities, k);
    }
    table
}

impl Tables {
    // Adds an edge that closes no circle.
    fn add_edge(&mut self, before: usize, after: usize)
        requires ends { OnTask (task_of self.old) before after }
        requires free { Circle (task_of self.old) before after → ⊥ }
        ensures { Linked (task_of self.old) before after (task_of self.new) }
    {
        let ancestors = reached(&self.ancestors, before, after);
        self.predecessors[after] = with(self.predecessors[after], before, true);
        self.ancestors = ancestors;
    }
}

impl Linking {
    // Enters an edge: after starts only once before has ended.
    pub fn link(&mut self, before: usize, after: usize) -> Result<(), EdgeRefusal>
        ensures { LinkSays self.old before after result self.new }
    {
        if before >= self.tables.pieces || after >= self.tables.pieces {
            return Err(EdgeRefusal::OffTask);
        }
        if has(self.tables.predecessors[after], before) {
            return Err(EdgeRefusal::There);
        }
        if before == after || has(self.tables.ancestors[before], after) {
            return Err(EdgeRefusal::Circular);
        }
        self.tables.add_edge(before, after);
        Ok(())
    }

    // Ranks the pieces by a priority for each, in place of any earlier ranking.
    pub fn rank<P: Priority>(&mut self, priorities: &[P]) -> Result<(), RankingRefusal>
        ensures { RankSays P.not_after self.old priorities.now result self.new }
    {
        if priorities.len() != self.tables.pieces {
            return Err(RankingRefusal::Count);
        }
        let table = ranking(priorities);
        self.tables.not_after = table;
        Ok(())
    }

    // No more edges: the task is ready to be bounded and run.
    pub fn file(self) -> Filed
        ensures same { filed_task result ≡ linking_task self }
        ensures lawful { Lawful (filed_task result) }
    {
        let Linking { tables } = self;
        Filed { tables }
    }
}
