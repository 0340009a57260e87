// Why a call of filing is refused: an enum for each family of calls, and the number of each refusal. Each enum has its own
// `number`: a trait would take the same three bodies, and a call by From or Into would not say that its number is a refusal's.
ghost use Rattle.std.specs.Prelude.{◌≡◌};
ghost use Rattle.task.specs.Refusals.{piece_number, edge_number, ranking_number};

// Why a piece is not entered.
#[derive(Clone, Copy, Debug, PartialEq, Eq)]
pub enum PieceRefusal {
    // There are 64 pieces already.
    Full = 11,
    // The worst time is outside 1 to 65,535.
    Worst = 12,
}

// Why an edge is not entered.
#[derive(Clone, Copy, Debug, PartialEq, Eq)]
pub enum EdgeRefusal {
    // An end is not on the task.
    OffTask = 21,
    // The edge is there.
    There = 22,
    // The ends are one piece, or the edge would close a circle.
    Circular = 23,
}

// Why a ranking is not taken.
#[derive(Clone, Copy, Debug, PartialEq, Eq)]
pub enum RankingRefusal {
    // There is not one priority for each piece.
    Count = 13,
}

impl PieceRefusal {
    // The refusal's number: 11 or 12.
    pub fn number(self) -> u8
        ensures { result ≡ piece_number self }
    {
        self as u8
    }
}

impl EdgeRefusal {
    // The refusal's number: 21, 22 or 23.
    pub fn number(self) -> u8
        ensures { result ≡ edge_number self }
    {
        self as u8
    }
}

impl RankingRefusal {
    // The refusal's number: 13.
    pub fn number(self) -> u8
        ensures { result ≡ ranking_number self }
    {
        self as u8
    }
}
