// Small tasks by lot: 0 to 9 pieces, few or many edges, and no, plain or banded priorities.
ghost use Rattle.std.specs.Prelude.{◌≡◌, ◌<◌, ◌≤◌, length, IfOk, IsPermutation};
ghost use Rattle.task.specs.Filing.{entered, linking_task, filed_task};

use crate::draws::Draws;
use example::lists::Refusal;
use task::priorities::{Band, Banded, Plain, Priority};
use task::refusals::{EdgeRefusal, PieceRefusal, RankingRefusal};
use task::stages::{Entering, Filed, Linking};

// The kinds of ranking.
#[derive(Clone, Copy)]
enum Ranking {
    None,
    Plain,
    Banded,
}

// One task in five is not ranked, two by plain priorities and two by banded ones.
const RANKINGS: [Ranking; 5] = [
    Ranking::None,
    Ranking::Plain,
    Ranking::Plain,
    Ranking::Banded,
    Ranking::Banded,
];

// The bands, of which each is as likely.
const BANDS: [Band; 4] = [Band::Zero, Band::One, Band::Two, Band::Three];

// A worst time: mostly small, so that sums often tie, and now and then the largest there is.
fn drawn_worst(draws: &mut Draws) -> u32
    ensures least { 1 ≤ result }
    ensures most { result ≤ 65535 }
{
    if draws.chance(4) {
        return 65535;
    }
    1 + draws.below(9) as u32
}

// So many pieces. A loop of its own beside that of `example`'s lists, since no list holds what is drawn.
fn drawn_pieces(draws: &mut Draws, n: usize) -> Result<Entering, PieceRefusal>
    ensures { IfOk result (λ e. length (entered e) ≡ n) }
{
    let mut entering = Entering::open();
    for _ in 0..n {
        let _ = entering.enter(drawn_worst(draws))?;
    }
    Ok(entering)
}

// A plain priority by lot, of which several are equal.
fn drawn_plain(draws: &mut Draws) -> Plain
    ensures { result.0 < 5 }
{
    Plain(draws.below(5) as u8)
}

// A banded priority by lot.
fn drawn_banded(draws: &mut Draws) -> Banded
    ensures { result.number < 3 }
{
    let band = BANDS[draws.below(4)];
    Banded {
        band,
        number: draws.below(3) as u8,
    }
}

// Puts the numbers into an order by lot: each trades places with one that is not behind it.
fn shuffle(draws: &mut Draws, order: &mut [usize])
    ensures { IsPermutation order.old order.new }
{
    // by the number, since two places trade
    for k in 0..order.len() {
        order.swap(k, draws.below(k + 1));
    }
}

// A task whose edges and priorities are being drawn. That its pieces stay is said by each method: no type says that a field stays.
#[derive(Drop)]
struct Drawing<'d> {
    draws: &'d mut Draws,
    linking: Linking,
    pieces: usize,
    ghost few: { pieces ≤ 9 },
    ghost counted: { (linking_task linking).pieces ≡ pieces },
}

impl Drawing<'_> {
    // An edge, or none: by lot.
    fn edge(&mut self, percent: usize, before: usize, after: usize) -> Result<(), EdgeRefusal>
        ensures { self.new.pieces ≡ self.old.pieces }
    {
        if !self.draws.chance(percent) {
            return Ok(());
        }
        self.linking.link(before, after)
    }

    // Edges by lot, each from a piece to one behind it in an order by lot, so that they close no circle and the numbers of the
    // pieces say nothing of who waits for whom.
    fn edges(&mut self) -> Result<(), EdgeRefusal>
        ensures { self.new.pieces ≡ self.old.pieces }
    {
        let mut order = [0, 1, 2, 3, 4, 5, 6, 7, 8];
        shuffle(self.draws, &mut order[..self.pieces]);
        let order = &order[..self.pieces];
        let percent = 10 + 20 * self.draws.below(5);
        for (k, &after) in order.iter().enumerate() {
            for &before in &order[..k] {
                self.edge(percent, before, after)?;
            }
        }
        Ok(())
    }

    // Ranks the pieces by priorities that are drawn one after the other, into as much of the room as it takes.
    // The room is handed in, since nothing bounds the size of an array of any kind of priority.
    fn rank<P: Priority + Drop, F: FnMut(&mut Draws) -> P>(
        &mut self,
        room: &mut [P],
        mut drawn: F,
    ) -> Result<(), RankingRefusal>
        requires room { self.old.pieces ≤ length room.old }
        requires drawn { F.IsAlwaysCallable drawn }
        ensures { self.new.pieces ≡ self.old.pieces }
    {
        let priorities = &mut room[..self.pieces];
        for p in priorities.iter_mut() {
            *p = drawn(self.draws);
        }
        self.linking.rank(priorities)
    }

    // No priorities, plain ones or banded ones.
    fn ranking(&mut self) -> Result<(), RankingRefusal>
        ensures { self.new.pieces ≡ self.old.pieces }
    {
        match RANKINGS[self.draws.below(5)] {
            Ranking::None => Ok(()),
            Ranking::Plain => self.rank(&mut [Plain(0); 9], drawn_plain),
            Ranking::Banded => {
                let least = Banded {
                    band: Band::Zero,
                    number: 0,
                };
                self.rank(&mut [least; 9], drawn_banded)
            }
        }
    }

    // The task is drawn.
    fn file(self) -> Filed
        ensures { (filed_task result).pieces ≤ 9 }
    {
        let Drawing {
            linking,
            draws: _,
            pieces: _,
        } = self;
        linking.file()
    }
}

// A task by lot, of at most 9 pieces. None is ever refused, as the program that draws them shows.
pub(crate) fn drawn_task(draws: &mut Draws) -> Result<Filed, Refusal>
    ensures { IfOk result (λ f. (filed_task f).pieces ≤ 9) }
{
    let pieces = draws.below(10);
    let linking = drawn_pieces(draws, pieces)?.close();
    let mut drawing = Drawing {
        draws,
        linking,
        pieces,
    };
    drawing.edges()?;
    drawing.ranking()?;
    Ok(drawing.file())
}
