//! The moment of what has none.
ghost use Rattle.std.specs.Prelude.{◌≡◌, pos};

use blot_time::Moment;

/// 19700101-00:00:00: the moment of a frame whose SendingTime(52) can't be read, and of a clock that never told one. This project's rule.
pub fn first_moment() -> Moment
    ensures { result ≡ pos 0 }
{
    match Moment::from_millis(0) {
        Some(moment) => moment,
        None => unreachable!(),
    }
}
