// A walk over every complete path, one after the other.
ghost use Rattle.std.specs.Prelude.{◌≡◌, ℕ, ◌+◌, ◌-◌, ◌*◌, ◌<◌, ◌≤◌, ◌⊎◌, true, false, ◌↔◌, min, max, replicate, slice_index};
ghost use Rattle.theory.specs.Tasks.{below};
ghost use Rattle.task.specs.Filing.{filed_task};

use crate::interfering::{interfering, work};
use sets::has;
use task::stages::Filed;

// A path on its way: the piece that it has come to, its length, and all that interferes with a piece of it. The pieces that may still
// come are behind the last, and leave it within what 64 pieces take.
#[derive(Clone, Copy)]
struct Path<'t> {
    task: &'t Filed,
    last: usize,
    length: u64,
    interfering: u64,
    ghost room: { length + 65535 * below (filed_task task.now) last ≤ 4194240 },
}

impl<'t> Path<'t> {
    // The path of piece v alone.
    fn starting(task: &'t Filed, v: usize) -> Path<'t>
        requires { v < (filed_task task.now).pieces }
        ensures task { result.task.now ≡ task.now }
        ensures last { result.last ≡ v }
        ensures length { result.length ≤ 65535 }
    {
        Path {
            task,
            last: v,
            length: u64::from(task.worst(v)),
            interfering: interfering(task, v),
        }
    }

    // The path that goes on along an edge to piece v.
    fn onward(self, v: usize) -> Path<'t>
        requires { (filed_task self.task.now).edge self.last v ≡ true }
        ensures task { result.task.now ≡ self.entry.task.now }
        ensures last { result.last ≡ v }
        ensures length { result.length ≤ self.entry.length + 65535 }
        ensures fewer { below (filed_task result.task.now) result.last < below (filed_task self.entry.task.now) self.entry.last }
    {
        Path {
            task: self.task,
            last: v,
            length: self.length + u64::from(self.task.worst(v)),
            interfering: self.interfering | interfering(self.task, v),
        }
    }

    // Whether its last piece is nobody's predecessor. The walk goes by predecessors alone: the chains that it is held against go by
    // successors.
    fn is_complete(&self) -> bool
        ensures { let t = filed_task self.now.task.now in (result ≡ true) ↔ ((v : ℕ) → v < t.pieces → t.edge self.now.last v ≡ false) }
    {
        // a loop, since of a chain over the numbers it stays open what its answer says
        for v in 0..self.task.pieces() {
            if has(self.task.predecessors(v), self.last) {
                return false;
            }
        }
        true
    }
}

// What the walk finds: how many complete paths there are, the greatest length, and the largest numerator on 1 to 16 cores.
#[derive(Clone, Copy)]
pub(crate) struct Walked {
    pub paths: u64,
    pub chain: u64,
    numerators: [u64; 16],
    ghost short: { chain ≤ 4194240 },
}

// Written out, since none is derived on a struct with a ghost field.
impl Default for Walked {
    ghost is_default = { λ w. (w.paths ≡ 0) × (w.chain ≡ 0) × (w.numerators ≡ replicate 16 0) };

    // No path yet.
    fn default() -> Walked {
        Walked {
            paths: 0,
            chain: 0,
            numerators: [0; 16],
        }
    }
}

impl Walked {
    // The largest numerator on a number of cores, and 0 on other than 1 to 16.
    pub(crate) fn numerator(&self, cores: u32) -> u64
        ensures on { 1 ≤ cores → cores ≤ 16 → result ≡ slice_index self.now.numerators (cores - 1) }
        ensures off { (cores < 1) ⊎ (16 < cores) → result ≡ 0 }
    {
        cores
            .checked_sub(1)
            .and_then(|k| self.numerators.get(k as usize).copied())
            .unwrap_or(0)
    }

    // Counts a complete path, and keeps its length and its numerators where they are larger.
    fn take_in(&mut self, path: Path)
        ensures paths { self.new.paths ≡ min (self.old.paths + 1) u64.MAX }
        ensures chain { self.new.chain ≡ max self.old.chain path.entry.length }
    {
        let parallel = work(path.task, path.interfering);
        self.paths = self.paths.saturating_add(1);
        self.chain = self.chain.max(path.length);
        for (k, most) in self.numerators.iter_mut().enumerate() {
            let cores = k as u64 + 1;
            *most = (*most).max(cores * path.length + parallel);
        }
    }

    // Walks on from where the path has come to, along every edge. It ends since along an edge fewer pieces lie behind.
    fn walk_on(&mut self, path: Path) {
        if path.is_complete() {
            self.take_in(path);
            return;
        }
        // number by number: the iterator over a set is used by what the walk is held against
        for v in 0..path.task.pieces() {
            if has(path.task.predecessors(v), path.last) {
                self.walk_on(path.onward(v));
            }
        }
    }
}

// Walks every complete path: from each piece without predecessors along the edges to pieces that are nobody's predecessor.
pub(crate) fn walk(task: &Filed) -> Walked {
    let mut walked = Walked::default();
    for v in 0..task.pieces() {
        if task.predecessors(v) == 0 {
            walked.walk_on(Path::starting(task, v));
        }
    }
    walked
}
