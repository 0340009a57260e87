// Numbers that look drawn by lot, and are the same for the same seed on every machine.
ghost use Rattle.std.specs.Prelude.{◌≡◌, ◌<◌, ◌≤◌, true, false};

// Where the numbers have come to.
#[derive(Drop)]
pub(crate) struct Draws {
    state: u64,
}

impl Draws {
    // The numbers of this seed, from the first.
    pub(crate) fn new(seed: u64) -> Draws
        ensures { result.state ≡ seed }
    {
        Draws { state: seed }
    }

    // The next number: the state goes on by a fixed step, and its bits are mixed.
    fn next(&mut self) -> u64 {
        self.state = self.state.wrapping_add(0x9E37_79B9_7F4A_7C15);
        let a = (self.state ^ (self.state >> 30)).wrapping_mul(0xBF58_476D_1CE4_E5B9);
        let b = (a ^ (a >> 27)).wrapping_mul(0x94D0_49BB_1331_11EB);
        b ^ (b >> 31)
    }

    // The next number brought below n, and 0 where nothing is below n.
    pub(crate) fn below(&mut self, n: usize) -> usize
        ensures some { 0 < n → result < n }
        ensures none { n ≡ 0 → result ≡ 0 }
    {
        if n == 0 {
            return 0;
        }
        self.next() as usize % n
    }

    // Whether something comes to pass that does so in so many of a hundred cases.
    pub(crate) fn chance(&mut self, percent: usize) -> bool
        ensures never { percent ≡ 0 → result ≡ false }
        ensures always { 100 ≤ percent → result ≡ true }
    {
        self.below(100) < percent
    }
}
