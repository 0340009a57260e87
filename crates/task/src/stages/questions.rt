// What a filed task tells of its pieces, for any number that is handed in.
ghost use Rattle.std.specs.Prelude.{◌≡◌, ℕ, ◌<◌, ◌≤◌, true, ◌↔◌, if◌then◌else◌, nat_lt, slice_index, slice_index_or};
ghost use Rattle.sets.specs.Sets.{member, SetOf};
ghost use Rattle.theory.specs.Tasks.{Leads};
ghost use Rattle.task.specs.Filing.{Related, edges_of, filed_task};

use crate::stages::{Filed, Tables};
use sets::{has, size, with};

impl Tables {
    // What a table has for piece k, and 0 past the task.
    fn of_piece<T: Copy + Default>(&self, table: &[T; 64], k: usize) -> T
        ensures on_task { (other : T) → k < self.now.pieces → result ≡ slice_index_or table.now k other }
        ensures past { self.now.pieces ≤ k → T.is_default result }
    {
        table[..self.pieces].get(k).copied().unwrap_or_default()
    }

    // The pieces of the task whose sets have piece k.
    fn reversed(&self, sets: &[u64; 64], k: usize) -> u64
        ensures { SetOf self.now.pieces (λ x. member (slice_index sets.now x) k) result }
    {
        // over the table's entries: over the pieces of a set a task's chain took a quarter more time
        let mut having = 0;
        for (x, &set) in sets[..self.pieces].iter().enumerate() {
            having = with(having, x, has(set, k));
        }
        having
    }
}

impl Filed {
    // How many pieces there are: they are numbered from 0.
    pub fn pieces(&self) -> usize
        ensures { result ≡ (filed_task self.now).pieces }
    {
        self.tables.pieces
    }

    // How many edges there are.
    pub fn edges(&self) -> u32
        ensures { result ≡ edges_of (filed_task self.now) }
    {
        let tables = &self.tables;
        // over the table's entries: over the pieces of a set it took twice the time
        let mut edges = 0;
        for &predecessors in &tables.predecessors[..tables.pieces] {
            edges += size(predecessors);
        }
        edges
    }

    // The worst time of piece k, and 0 past the task.
    pub fn worst(&self, k: usize) -> u32
        ensures told { result ≡ (if nat_lt k (filed_task self.now).pieces then (filed_task self.now).worst k else 0) }
        ensures small { result ≤ 65535 }
    {
        self.tables.of_piece(&self.tables.worst, k)
    }

    // The pieces from which an edge leads to piece k.
    pub fn predecessors(&self, k: usize) -> u64
        ensures { Related (filed_task self.now) (filed_task self.now).edge k result }
    {
        self.tables.of_piece(&self.tables.predecessors, k)
    }

    // The pieces from which one or more edges lead to piece k.
    pub fn ancestors(&self, k: usize) -> u64
        ensures set { Related (filed_task self.now) (filed_task self.now).ancestor k result }
        ensures leads { (x : ℕ) → (member result x ≡ true) ↔ ∥ Leads (filed_task self.now) x k ∥₁ }
    {
        self.tables.of_piece(&self.tables.ancestors, k)
    }

    // The pieces to which an edge leads from piece k.
    pub fn successors(&self, k: usize) -> u64
        ensures { Related (filed_task self.now) (λ x y. (filed_task self.now).edge y x) k result }
    {
        self.tables.reversed(&self.tables.predecessors, k)
    }

    // The pieces to which one or more edges lead from piece k.
    pub fn descendants(&self, k: usize) -> u64
        ensures { Related (filed_task self.now) (λ x y. (filed_task self.now).ancestor y x) k result }
    {
        self.tables.reversed(&self.tables.ancestors, k)
    }

    // The pieces whose priority is not after that of piece k.
    pub fn not_after(&self, k: usize) -> u64
        ensures { Related (filed_task self.now) (filed_task self.now).not_after k result }
    {
        self.tables.of_piece(&self.tables.not_after, k)
    }
}
