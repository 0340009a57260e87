// Filing a task whose pieces, edges and priorities are given by lists.
ghost use Rattle.std.specs.Prelude.{◌≡◌};
ghost use Rattle.example.specs.declared.lists.Refusal.TheVariants.{Piece, Link, Ranking};
ghost use Rattle.example.specs.Lists.{EnterAllSays, LinkAllSays, FileSays, refusal_number};

use task::priorities::Priority;
use task::refusals::{EdgeRefusal, PieceRefusal, RankingRefusal};
use task::stages::{Entering, Filed, Linking};

// An edge: the second piece starts only after the first has ended.
#[derive(Clone, Copy)]
pub struct Edge(pub usize, pub usize);

// Which call of filing was refused, and why.
#[derive(Clone, Copy, Debug, PartialEq, Eq)]
pub enum Refusal {
    Piece(PieceRefusal),
    Link(EdgeRefusal),
    Ranking(RankingRefusal),
}

impl Refusal {
    // The number of the refusal that is passed on, by the method that each of the three has of its own.
    pub fn number(self) -> u8
        ensures { result ≡ refusal_number self }
    {
        match self {
            Refusal::Piece(e) => e.number(),
            Refusal::Link(e) => e.number(),
            Refusal::Ranking(e) => e.number(),
        }
    }
}

impl From<PieceRefusal> for Refusal {
    ghost from_gives = { λ e r. r ≡ Piece e };

    fn from(e: PieceRefusal) -> Refusal {
        Refusal::Piece(e)
    }
}

impl From<EdgeRefusal> for Refusal {
    ghost from_gives = { λ e r. r ≡ Link e };

    fn from(e: EdgeRefusal) -> Refusal {
        Refusal::Link(e)
    }
}

impl From<RankingRefusal> for Refusal {
    ghost from_gives = { λ e r. r ≡ Ranking e };

    fn from(e: RankingRefusal) -> Refusal {
        Refusal::Ranking(e)
    }
}

// A piece for each worst time, up to the first that is refused. `alike` has the loop again: over an iterator that gives both, the
// contract would speak of what an iterator gives.
fn enter_all(worst: &[u32]) -> Result<Entering, PieceRefusal>
    ensures { EnterAllSays worst.now result }
{
    let mut entering = Entering::open();
    for &w in worst {
        let _ = entering.enter(w)?;
    }
    Ok(entering)
}

// The edges one after the other, up to the first that is refused.
fn link_all(linking: &mut Linking, edges: &[Edge]) -> Result<(), EdgeRefusal>
    ensures { LinkAllSays linking.old edges.now result linking.new }
{
    for &Edge(before, after) in edges {
        linking.link(before, after)?;
    }
    Ok(())
}

// Files the task of these worst times, edges and priorities; the first call of filing that is refused refuses it.
pub fn file<P: Priority>(worst: &[u32], edges: &[Edge], priorities: &[P]) -> Result<Filed, Refusal>
    ensures { FileSays P.not_after worst.now edges.now priorities.now result }
{
    let mut linking = enter_all(worst)?.close();
    link_all(&mut linking, edges)?;
    linking.rank(priorities)?;
    Ok(linking.file())
}
