//! Moments in UTC.
ghost use Rattle.std.specs.Prelude.{◌≡◌, ◌↔◌, ◌<◌, Ok, IsOk, IsSome, IfSome, pos, ◌+ℤ◌, ◌*ℤ◌, ◌≤ℤ◌, ◌<ℤ◌};
ghost use Rattle.blot_time.specs.Moment.{IsMoment, IsMomentText, moment_of, moment_text, utc_day, since_midnight};

use crate::clock::{DAY_MILLIS, read_clock, write_clock};
use crate::{Day, TimeFault};
use std::marker::Model;

// The milliseconds of a day, to divide those of a moment by.
const DAY: i64 = DAY_MILLIS as i64;

// 0000-01-01 at 00:00:00.000.
const FIRST: i64 = -62_167_219_200_000;

// 9999-12-31 at 23:59:59.999.
const LAST: i64 = 253_402_300_799_999;

/// A moment in UTC, from 0000-01-01 to 9999-12-31, by its milliseconds since 1970.
#[derive(Clone, Copy, Debug, PartialEq, Eq, PartialOrd, Ord, Hash)]
pub struct Moment {
    millis: i64,
}

impl Model for Moment {
    ghost use Rattle.std.specs.Prelude.{ℤ};

    ghost Value = { ℤ };

    ghost use Rattle.blot_time.specs.Moment.{IsMoment};

    ghost view = { λ moment. moment.millis };

    ghost invariant = { λ moment. IsMoment moment.millis };

    ghost inverse = { λ millis. record { millis = millis } };
}

impl Moment {
    /// The moment so many milliseconds after 1970 began; none before the year 0000 and after 9999.
    pub fn from_millis(millis: i64) -> Option<Moment>
        ensures within { IsSome result ↔ IsMoment millis }
        ensures value { IfSome result (λ moment. moment ≡ millis) }
    {
        if millis < FIRST || LAST < millis {
            return None;
        }
        Some(Moment { millis })
    }

    /// The milliseconds since 1970 began, negative before that.
    pub fn millis(self) -> i64
        ensures value { result ≡ self }
        ensures within { IsMoment result }
    {
        self.millis
    }

    /// The moment that `YYYYMMDD-HH:MM:SS` names, with 3 to 9 fraction digits or none (FIX 4.4 volume 1, "UTCTimestamp").
    #[tactic(auto, unfolding(crate::specs::Moment::moment_of))]
    pub fn read(text: &[u8]) -> Result<Moment, TimeFault>
        ensures value { result ≡ moment_of text.now }
        ensures ok { IsOk result ↔ IsMomentText text.now }
    {
        if text.len() < 8 {
            return Err(TimeFault::Format);
        }
        let (date, clock) = text.split_at(8);
        let millis = read_clock(clock)?;
        let day = Day::read(date)?;
        Ok(Moment::of_day(day, millis))
    }

    /// `YYYYMMDD-HH:MM:SS.sss` of the moment.
    pub fn write(self) -> [u8; 21]
        ensures text { result ≡ moment_text self }
        ensures read_again { moment_of result ≡ Ok self }
    {
        let mut text = [0; 21];
        text[..8].copy_from_slice(&self.day().write());
        text[8..].copy_from_slice(&write_clock(self.since_midnight()));
        text
    }

    /// The UTC day.
    pub fn day(self) -> Day
        ensures value { result ≡ utc_day self }
        ensures begun { (result *ℤ pos DAY_MILLIS) ≤ℤ self }
        ensures not_over { self <ℤ ((result +ℤ pos 1) *ℤ pos DAY_MILLIS) }
    {
        Day::numbered(self.millis.div_euclid(DAY) as i32)
    }

    // The moment so many milliseconds after a day's midnight.
    fn of_day(day: Day, millis: u32) -> Moment
        requires { millis < DAY_MILLIS }
        ensures { result ≡ day *ℤ pos DAY_MILLIS +ℤ pos millis }
    {
        Moment {
            millis: i64::from(day.number()) * DAY + i64::from(millis),
        }
    }

    // The milliseconds since the UTC day's midnight.
    fn since_midnight(self) -> u32
        ensures value { result ≡ since_midnight self }
        ensures below { result < DAY_MILLIS }
    {
        self.millis.rem_euclid(DAY) as u32
    }
}
