//! The moment of a frame.
ghost use Rattle.std.specs.Prelude.{◌≡◌, pos, IfOk};
ghost use Rattle.std.specs.Result.{result_unwrap_or};
ghost use Rattle.blot_tag.specs.Fields.{fields_of};
ghost use Rattle.blot_tag.specs.Views.{text_of};
ghost use Rattle.blot_time.specs.Moment.{moment_of};
ghost use Rattle.blot_fields.specs.First.{IsSentAt};
ghost use Rattle.blot_capture.specs.Capture.{sending_of};

use blot_fields::{FieldFault, Message, first_value};
use blot_gateway::first_moment;
use blot_tag::Frame;
use blot_time::Moment;

/// The moment of a frame that says this: where it is a message, its header has been read.
pub(crate) fn sending_by(said: &Result<Message, FieldFault>, frame: &Frame) -> Moment
    requires { IfOk said.now (IsSentAt (fields_of (text_of frame.now))) }
    ensures { result ≡ sending_of (fields_of (text_of frame.now)) }
{
    match said {
        Ok(message) => message.head.sending,
        Err(_) => sending_of(frame),
    }
}

/// The first field SendingTime(52) of a frame, or the first moment of 1970 where that isn't there or can't be read. The frame
/// may be at fault elsewhere. It takes no memory.
pub(crate) fn sending_of(frame: &Frame) -> Moment
    ensures { result ≡ sending_of (fields_of (text_of frame.now)) }
{
    match first_value(frame, 52) {
        Some(value) => moment_in(value),
        None => first_moment(),
    }
}

// The moment of these bytes, or the first of 1970.
fn moment_in(bytes: &[u8]) -> Moment
    ensures { result ≡ result_unwrap_or (moment_of bytes.now) (pos 0) }
{
    match Moment::read(bytes) {
        Ok(moment) => moment,
        Err(_) => first_moment(),
    }
}
