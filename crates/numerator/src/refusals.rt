// Why a bound is refused.
ghost use Rattle.std.specs.Prelude.{◌≡◌};
ghost use Rattle.numerator.specs.Refusals.{bound_number};

// Why a task is not bounded.
#[derive(Clone, Copy, Debug, PartialEq, Eq)]
pub enum BoundRefusal {
    // The number of cores is outside 1 to 16.
    Cores = 31,
    // The scratch is shorter than (n + 2) × (n + 2) numbers for n pieces.
    Scratch = 32,
}

impl BoundRefusal {
    // The refusal's number: 31 or 32. A call by From or Into would not say that it is a refusal's.
    pub fn number(self) -> u8
        ensures { result ≡ bound_number self }
    {
        self as u8
    }
}
