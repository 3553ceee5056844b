//! The moments of the system's clock.
ghost use Rattle.std.specs.Prelude.{◌≡◌, ◌↔◌, IfSome, IsSome, pos};
ghost use Rattle.blot_sockets.specs.Sockets.{millis_in};
ghost use Rattle.blot_time.specs.Moment.{IsMoment};

use blot_gateway::{Clock, first_moment};
use blot_time::Moment;
use std::time::{self, Duration, SystemTime};

/// The system's clock. Where it can't be read, or shows no moment, it tells its last moment again, at first 19700101-00:00:00.
#[derive(Drop)]
pub struct SystemClock<'a, R> {
    system: &'a R,
    last: Moment,
}

impl<'a, R: time::Clock> SystemClock<'a, R> {
    /// The clock of a system, which has told no moment yet.
    pub fn new(system: &'a R) -> SystemClock<'a, R>
        ensures { result.last ≡ pos 0 }
    {
        SystemClock {
            system,
            last: first_moment(),
        }
    }
}

impl<'a, R: time::Clock> Clock for SystemClock<'a, R> {
    ghost use Rattle.blot_sockets.specs.Sockets.{ClockTicks};

    ghost ticks = { ClockTicks };

    fn now(&mut self) -> Moment {
        if let Some(moment) = shown_by(self.system) {
            self.last = moment;
        }
        self.last
    }
}

// The moment that a system's clock shows.
fn shown_by<R: time::Clock>(system: &R) -> Option<Moment> {
    let shown = SystemTime::now(system).ok()?;
    moment_after(shown.duration_since(SystemTime::UNIX_EPOCH).ok()?)
}

// The moment so long after 1970 began, to the millisecond; none after the year 9999.
fn moment_after(since_1970: Duration) -> Option<Moment>
    ensures within { IsSome result ↔ IsMoment (millis_in since_1970) }
    ensures value { IfSome result (λ moment. moment ≡ millis_in since_1970) }
{
    match i64::try_from(since_1970.as_millis()) {
        Ok(millis) => Moment::from_millis(millis),
        Err(_) => None,
    }
}
