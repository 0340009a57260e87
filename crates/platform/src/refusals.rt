// Why a platform is not filled: an enum for each kind of platform, so that nobody handles a case that cannot come, and the number of
// each refusal, by a method of each enum: a trait would take the same two bodies.
ghost use Rattle.std.specs.Prelude.{◌≡◌};
ghost use Rattle.platform.specs.Refusals.{timed_number, scripted_number};

// Why a platform of true times is not filled.
#[derive(Clone, Copy, Debug, PartialEq, Eq)]
pub enum TimedRefusal {
    // There are over 64 rows.
    TooMany = 51,
    // A worst time is outside 1 to 65,535.
    Worst = 52,
    // A true time is 0 or above the worst.
    Time = 53,
}

// Why a platform with a script is not filled.
#[derive(Clone, Copy, Debug, PartialEq, Eq)]
pub enum ScriptedRefusal {
    // There are over 64 worst times.
    TooMany = 51,
    // A worst time is outside 1 to 65,535.
    Worst = 52,
}

impl TimedRefusal {
    // The refusal's number: 51, 52 or 53.
    pub fn number(self) -> u8
        ensures { result ≡ timed_number self }
    {
        self as u8
    }
}

impl ScriptedRefusal {
    // The refusal's number: 51 or 52.
    pub fn number(self) -> u8
        ensures { result ≡ scripted_number self }
    {
        self as u8
    }
}
