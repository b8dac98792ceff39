// Numbers that look random, the same in every run.
ghost use Rattle.std.specs.Prelude.{◌≤◌};

#[derive(Clone, Copy)]
pub(crate) struct Dice {
    pub state: u64,
}

impl Dice {
    // A number from 0 to `most`.
    pub(crate) fn up_to(&mut self, most: u8) -> u8
        ensures { result ≤ most }
    {
        self.state = self
            .state
            .wrapping_mul(6364136223846793005)
            .wrapping_add(1442695040888963407);
        ((self.state >> 33) % (most as u64 + 1)) as u8
    }
}
