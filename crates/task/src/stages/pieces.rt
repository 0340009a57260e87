// Opening a task, entering its pieces, and closing it to pieces.
ghost use Rattle.std.specs.Prelude.{◌≡◌, ◌≤◌, true, []};
ghost use Rattle.task.specs.Tables.{Columns, EmptyFrom};
ghost use Rattle.task.specs.Filing.{entered, EnterSays, Closes, linking_task};

use crate::refusals::PieceRefusal;
use crate::stages::{Entering, Linking, Tables};
use sets::{first, table_of};

// For each of n pieces the set of them all. That there are at most 64 is asked here, since n is a plain number.
fn all_equal(n: usize) -> [u64; 64]
    requires { n ≤ 64 }
    ensures sets { Columns n (λ _ _. true) n result }
    ensures rest { EmptyFrom n result }
{
    table_of(n, |_| first(n))
}

impl Entering {
    // A task with no pieces.
    pub fn open() -> Entering
        ensures { entered result ≡ [] }
    {
        Entering {
            count: 0,
            worst: [0; 64],
        }
    }

    // Enters a piece, and answers its number.
    pub fn enter(&mut self, worst: u32) -> Result<usize, PieceRefusal>
        ensures { EnterSays self.old worst result self.new }
    {
        if self.count == 64 {
            return Err(PieceRefusal::Full);
        }
        if worst < 1 || worst > 65535 {
            return Err(PieceRefusal::Worst);
        }
        let number = self.count;
        self.worst[number] = worst;
        self.count = number + 1;
        Ok(number)
    }

    // No more pieces: edges and priorities follow. There are no edges yet, and all pieces are equal in priority.
    pub fn close(self) -> Linking
        ensures { Closes (entered self) (linking_task result) }
    {
        let Entering { count, worst } = self;
        let not_after = all_equal(count);
        let tables = Tables {
            pieces: count,
            worst,
            predecessors: [0; 64],
            ancestors: [0; 64],
            not_after,
        };
        Linking { tables }
    }
}
