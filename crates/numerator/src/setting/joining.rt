// A piece that walks are joined at: allowing them to go through it changes the cells of what leads to it with what it leads to.
ghost use Rattle.std.specs.Prelude.{◌≡◌, ℕ, ◌≤◌};
ghost use Rattle.sets.specs.Sets.{member};
ghost use Rattle.theory.specs.Inner.{alone as alone_at};
ghost use Rattle.numerator.specs.Settings.{task_in, Piece};

use crate::setting::Setting;
use crate::table::Table;
use crate::totals::work;
use sets::pieces_of;

// Piece v of a setting with its numerator alone, its ancestors and its descendants.
#[derive(Drop)]
pub(super) struct Joint<'s> {
    setting: &'s Setting,
    v: usize,
    own: u64,
    before: u64,
    behind: u64,
    ghost piece: { Piece setting.now v },
    ghost alone: { own ≡ alone_at (task_in setting.now) setting.now.cores v },
    ghost small: { own ≤ 5242800 },
    ghost leading: { (x : ℕ) → member before x ≡ (task_in setting.now).ancestor x v },
    ghost led: { (x : ℕ) → member behind x ≡ (task_in setting.now).ancestor v x },
}

impl<'s> Joint<'s> {
    ghost use Rattle.std.specs.Prelude.{true};
    ghost use Rattle.theory.specs.Inner.{twice as twice_at};
    ghost use Rattle.numerator.specs.Cells.{Ready};
    ghost use Rattle.numerator.specs.Joints.{task_at, RowThrough, AllThrough};

    // The joint at piece v.
    pub(super) fn new(setting: &'s Setting, v: usize) -> Joint<'s>
        requires { Piece setting.now v }
        ensures setting { result.setting.now ≡ setting.now }
        ensures v { result.v ≡ v }
    {
        Joint {
            setting,
            v,
            own: setting.alone(v),
            before: setting.task.ancestors(v),
            behind: setting.task.descendants(v),
        }
    }

    // What a walk from u to v and a walk from v to w both count: v itself with its interference set, and what meets both u and w
    // but not v.
    fn twice(&self, u: usize, w: usize) -> u64
        requires to { (task_at self.now).ancestor u self.now.v ≡ true }
        requires on { (task_at self.now).ancestor self.now.v w ≡ true }
        ensures { result ≡ twice_at (task_at self.now) self.now.setting.now.cores u self.now.v w }
    {
        let meets = &self.setting.interference;
        let outer = meets[u] & meets[w] & !meets[self.v];
        self.own + work(&self.setting.task, outer)
    }

    // Writes the cells of u with all that v leads to, once walks may go through v.
    fn row(&self, table: &mut Table, u: usize)
        requires to { (task_at self.now).ancestor u self.now.v ≡ true }
        requires ready { Ready (task_at self.now) table.old self.now.v }
        ensures { RowThrough self.now u table.old table.new }
    {
        // 0 says that there is no walk: a walk's numerator is never 0
        let to = table.get(u, self.v);
        if to == 0 {
            return;
        }
        for w in pieces_of(self.behind) {
            let on = table.get(self.v, w);
            if on == 0 {
                continue;
            }
            let joined = (to + on).saturating_sub(self.twice(u, w));
            table.set(u, w, table.get(u, w).max(joined));
        }
    }

    // Writes the cells of all that leads to v with all that v leads to, once walks may go through v.
    pub(super) fn all(&self, table: &mut Table)
        requires { Ready (task_at self.now) table.old self.now.v }
        ensures { AllThrough self.now table.old table.new }
    {
        for u in pieces_of(self.before) {
            self.row(table, u);
        }
    }
}
