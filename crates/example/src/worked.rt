// The worked example: six pieces, of which two wait for piece 0 and one for piece 1.
ghost use Rattle.task.specs.Priorities.{plain_not_after};
ghost use Rattle.example.specs.Lists.{FileSays};
ghost use Rattle.example.specs.Worked.{worked_worsts, worked_edges, worked_priorities};

use crate::lists::{Edge, Refusal, file};
use task::priorities::Plain;
use task::stages::Filed;

// The priorities of the six pieces: pieces 0, 4 and 5 are ahead of the others.
pub const PRIORITIES: [Plain; 6] = [Plain(1), Plain(4), Plain(3), Plain(2), Plain(1), Plain(1)];

// The worked example, filed. It is never refused, as the program that prints it shows.
pub fn worked_example() -> Result<Filed, Refusal>
    ensures { FileSays plain_not_after worked_worsts worked_edges worked_priorities result }
{
    let worst = [3, 2, 5, 1, 2, 2];
    let edges = [Edge(0, 4), Edge(0, 5), Edge(1, 3)];
    file(&worst, &edges, &PRIORITIES)
}
