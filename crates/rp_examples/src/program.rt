//! What is declared of a counter.

ghost use Rattle.std.specs.Prelude.{◌≡◌, ◌<◌, ◌^◌};

/// The greatest count. In a law a number ranges over all numbers, so the type keeps that it has 32
/// bits.
#[derive(Clone, Copy, Debug, PartialEq, Eq)]
pub struct CounterProgram {
    most: u32,
    ghost fits: { most < 2 ^ 32 },
}

impl CounterProgram {
    /// A counter from 0 to this count.
    pub fn new(most: u32) -> Self
        ensures { result.most ≡ most }
    {
        CounterProgram { most }
    }

    /// The greatest count.
    pub fn most(self) -> u32
        ensures { result ≡ self.most }
    {
        self.most
    }
}
