//! Origins: which replica wrote a sample.

ghost use Rattle.std.specs.Prelude.{◌≡◌, ◌<◌};
ghost use Rattle.std.specs.Result.{OkIff};

use crate::fault::OriginFault;
use std::marker::Model;

/// The number of a replica, from 1 to 65,535, under which it writes its samples.
#[derive(Clone, Copy, Debug, PartialEq, Eq, PartialOrd, Ord)]
pub struct Origin {
    number: u16,
}

impl Model for Origin {
    ghost use Rattle.std.specs.Prelude.{ℕ, ◌<◌};

    ghost Value = { ℕ };

    ghost view = { λ o. o.number };

    ghost invariant = { λ o. 0 < o.number };

    ghost inverse = { λ n. record { number = n } };
}

impl Origin {
    /// The origin with this number. 0 is refused as `BadOrigin`.
    pub fn new(number: u16) -> Result<Origin, OriginFault>
        ensures { OkIff result (0 < number) number }
    {
        if number == 0 {
            return Err(OriginFault::BadOrigin);
        }
        Ok(Origin { number })
    }

    /// Its number.
    pub fn get(self) -> u16
        ensures same { result ≡ self }
        ensures not_zero { 0 < result }
    {
        self.number
    }
}
