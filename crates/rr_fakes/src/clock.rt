//! A clock in memory.

ghost use Rattle.std.specs.Prelude.{◌≡◌};
ghost use Rattle.rr_fakes.specs.Clock.{MomentsState, moment_at};

use rr_host::Clock;
use std::marker::Model;

/// A clock in memory: it gives its moments in order, and then the last one over and over. With no
/// moments it gives 0.
#[derive(Drop)]
pub struct Moments {
    moments: Vec<i64>,
    /// How many times it was asked. The number saturates.
    asked: usize,
    /// How many times it was renewed. The number saturates.
    renewals: u64,
}

impl Model for Moments {
    ghost use Rattle.rr_fakes.specs.Clock.{MomentsState};

    ghost Value = { MomentsState };

    ghost view = { λ c. record {
      moments = c.moments.items;
      asked = c.asked;
      renewals = c.renewals;
    } };
}

impl Moments {
    /// A clock that gives these moments.
    pub fn new(moments: Vec<i64>) -> Moments
        ensures { result ≡ record { moments = moments.items; asked = 0; renewals = 0 } }
    {
        Moments {
            moments,
            asked: 0,
            renewals: 0,
        }
    }

    /// The next moment.
    fn moment(&self) -> i64
        ensures { result ≡ moment_at self.now.moments self.now.asked }
    {
        let place = self.asked.min(self.moments.len().saturating_sub(1));
        match self.moments.get(place) {
            Some(moment) => *moment,
            None => 0,
        }
    }
}

impl Clock for Moments {
    ghost use Rattle.std.specs.Prelude.{[], ◌∷◌};
    ghost use Rattle.rr_fakes.specs.Clock.{given_by};
    ghost use Rattle.rr_host.specs.Clock.{HasGiven};
    ghost use Rattle.rr_io.specs.Counted.{one_more};

    ghost given = { given_by };

    ghost renewals = { λ c. c.renewals };

    fn now(&mut self) -> i64
        ensures given { HasGiven (given_by self.old) (given_by self.new) (result ∷ []) }
        ensures moment { result ≡ moment_at self.old.moments self.old.asked }
        ensures renewals { self.new.renewals ≡ self.old.renewals }
    {
        let moment = self.moment();
        self.asked = self.asked.saturating_add(1);
        moment
    }

    fn renew(&mut self)
        ensures given { given_by self.new ≡ given_by self.old }
        ensures renewed { self.new ≡ record self.old { renewals = one_more self.old.renewals } }
    {
        self.renewals = self.renewals.saturating_add(1);
    }
}
