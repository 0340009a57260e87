// Tasks of equal pieces that nothing orders, to be linked and ranked as their reader likes.
ghost use Rattle.example.specs.Lists.{AlikeSays};

use task::refusals::PieceRefusal;
use task::stages::{Entering, Linking};

// So many pieces of one worst time, with no edges yet; the first piece that is refused refuses them all.
pub fn alike(pieces: usize, worst: u32) -> Result<Linking, PieceRefusal>
    ensures { AlikeSays pieces worst result }
{
    // the loop of `file` again: over an iterator that gives both, the contract would speak of what an iterator gives
    let mut entering = Entering::open();
    for _ in 0..pieces {
        let _ = entering.enter(worst)?;
    }
    Ok(entering.close())
}
