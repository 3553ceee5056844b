//! A clock that tells a list of moments, for tests.
ghost use Rattle.std.specs.Prelude.{◌≡◌};
ghost use Rattle.blot_gateway.specs.Memory.{ListTicks};

use crate::Clock;
use blot_time::Moment;
use std::marker::Model;

/// A clock that tells a list of moments one by one, and then the last one again: for tests. Where the list is empty,
/// it tells 19700101-00:00:00.
#[derive(Drop)]
pub struct ListClock {
    moments: Vec<Moment>,
    told: usize,
}

impl Model for ListClock {
    ghost use Rattle.std.specs.Prelude.{ℤ, List, drop};

    ghost Value = { List ℤ };

    ghost view = { λ clock. drop clock.told clock.moments.items };
}

impl ListClock {
    /// A clock that tells these moments.
    pub fn new(moments: Vec<Moment>) -> ListClock
        ensures { result ≡ moments.items }
    {
        ListClock { moments, told: 0 }
    }
}

impl Clock for ListClock {
    ghost ticks = { ListTicks };

    fn now(&mut self) -> Moment {
        let Some(moment) = self.moments.get(self.told).copied() else {
            return Moment::from_millis(0).unwrap();
        };
        if self.told + 1 < self.moments.len() {
            self.told += 1;
        }
        moment
    }
}
