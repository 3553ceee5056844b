//! Days of the calendar.
ghost use Rattle.std.specs.Prelude.{◌≡◌, ◌↔◌, ◌<◌, Ok, IsOk, pos};
ghost use Rattle.jiff.specs.Words.{epoch_day, IsDate};
ghost use Rattle.blot_time.specs.Calendar.{IsDay, year_of, month_of, day_of_month};
ghost use Rattle.blot_time.specs.Day.{day_of, day_text, civil_day, date_text, IsDayText};

use crate::TimeFault;
use crate::digits::{four_digits, has_shape, number_of, two_digits};
use jiff::civil::{Date, date};
use std::marker::Model;

/// A day of the calendar, from 0000-01-01 to 9999-12-31, by its number from 1970-01-01.
#[derive(Clone, Copy, Debug, PartialEq, Eq, PartialOrd, Ord, Hash)]
pub struct Day {
    number: i32,
}

impl Model for Day {
    ghost use Rattle.std.specs.Prelude.{ℤ};

    ghost Value = { ℤ };

    ghost use Rattle.blot_time.specs.Calendar.{IsDay};

    ghost view = { λ day. day.number };

    ghost invariant = { λ day. IsDay day.number };

    ghost inverse = { λ number. record { number = number } };
}

impl Day {
    /// The day that `YYYYMMDD` names (FIX 4.4 volume 1, "LocalMktDate").
    #[tactic(auto, unfolding(crate::specs::Day::day_of))]
    pub fn read(text: &[u8]) -> Result<Day, TimeFault>
        ensures value { result ≡ day_of text.now }
        ensures ok { IsOk result ↔ IsDayText text.now }
    {
        if !has_shape(text, b"00000000") {
            return Err(TimeFault::Format);
        }
        let year = number_of(&text[..4]);
        let month = number_of(&text[4..6]);
        let day = number_of(&text[6..8]);
        Day::of_date(year, month, day)
    }

    /// `YYYYMMDD` of the day.
    pub fn write(self) -> [u8; 8]
        ensures text { result ≡ day_text self }
        ensures read_again { day_of result ≡ Ok self }
    {
        let date = self.date().to_plain();
        write_date(date.year as u32, u32::from(date.month), u32::from(date.day))
    }

    /// The day with a number from 1970-01-01.
    pub(crate) fn numbered(number: i32) -> Day
        requires { IsDay number }
        ensures { result ≡ number }
    {
        Day { number }
    }

    /// The day's number from 1970-01-01.
    pub(crate) fn number(self) -> i32
        ensures value { result ≡ self }
        ensures within { IsDay result }
    {
        self.number
    }

    // The day of a date, where the calendar has it.
    fn of_date(year: u32, month: u32, day: u32) -> Result<Day, TimeFault>
        requires year { year < 10000 }
        requires month { month < 100 }
        requires day { day < 100 }
        ensures value { result ≡ civil_day year month day }
        ensures ok { IsOk result ↔ IsDate (pos year) (pos month) (pos day) }
    {
        match Date::new(year as i16, month as i8, day as i8) {
            Ok(date) => Ok(Day {
                number: date.to_plain().to_unix_epoch_day(),
            }),
            Err(_) => Err(TimeFault::NoSuchDate),
        }
    }

    // The date of the day, in jiff's calendar.
    fn date(self) -> Date
        ensures number { epoch_day result ≡ self }
        ensures year { result.year ≡ pos (year_of self) }
        ensures month { result.month ≡ month_of self }
        ensures day { result.day ≡ day_of_month self }
    {
        let epoch = date(1970, 1, 1).to_plain();
        Date::from_plain(epoch.checked_add(i64::from(self.number)).unwrap())
    }
}

// `YYYYMMDD` of a date.
fn write_date(year: u32, month: u32, day: u32) -> [u8; 8]
    ensures { result ≡ date_text year month day }
{
    let [y3, y2, y1, y0] = four_digits(year);
    let [m1, m0] = two_digits(month);
    let [d1, d0] = two_digits(day);
    [y3, y2, y1, y0, m1, m0, d1, d0]
}
