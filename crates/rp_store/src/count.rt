//! A count that only contracts see.

ghost use Rattle.std.specs.Prelude.{◌≡◌, suc};

use rp_base::History;
use std::marker::Model;

/// A number without a greatest value, from 0: it is there for contracts, and memory holds nothing
/// of it but whether it is 0.
#[derive(Drop)]
pub struct Count {
    raised: History<()>,
}

impl Model for Count {
    ghost use Rattle.std.specs.Prelude.{ℕ, length};

    ghost Value = { ℕ };

    ghost view = { λ c. length c.raised };
}

impl Count {
    /// Nothing was counted.
    pub fn new() -> Self
        ensures { result ≡ 0 }
    {
        Count {
            raised: History::new(),
        }
    }

    /// Counts one more.
    pub fn raise(&mut self)
        ensures { self.new ≡ suc self.old }
    {
        self.raised.push(&());
    }
}
