//! Callers of each crate of the byte side that can be used by itself.
ghost use Rattle.std.specs.Prelude.{◌≡◌, pos, ◌*ℤ◌, slice_get, is_some, IfOk, IsOkAnd};
ghost use Rattle.blot_decimal.specs.Meaning.{qty_of, price_of};
ghost use Rattle.blot_time.specs.Day.{day_text};
ghost use Rattle.blot_time.specs.Moment.{moment_of, utc_day};
ghost use Rattle.blot_tag.specs.Fields.{fields_of};
ghost use Rattle.blot_tag.specs.Frames.{IsFrame};
ghost use Rattle.blot_tag.specs.Views.{text_of};
ghost use Rattle.blot_tag.specs.Walking.{frames_of};
ghost use Rattle.blot_fields.specs.Decoding.{decoded};

use blot_decimal::{DecimalFault, Price, Qty, Value};
use blot_fields::{FieldFault, decode};
use blot_tag::{Frame, FrameText, Reader, WriteFault};
use blot_time::{Moment, TimeFault};
use std::alloc::{AllocError as NoMemory, Global};

/// What a quantity is worth at a price, or the first fault of their texts.
pub fn worth(qty: &[u8], price: &[u8]) -> Result<Value, DecimalFault>
    ensures { IfOk result (λ value. IsOkAnd (qty_of qty.now) (λ units.
        IsOkAnd (price_of price.now) (λ each. value ≡ pos units *ℤ each))) }
{
    let qty = Qty::read(qty)?;
    let price = Price::read(price)?;
    Ok(qty.times(price))
}

/// The UTC day of a moment, as text.
pub fn day_of(moment: &[u8]) -> Result<[u8; 8], TimeFault>
    ensures { IfOk result (λ day. IsOkAnd (moment_of moment.now) (λ moment. day ≡ day_text (utc_day moment))) }
{
    let moment = Moment::read(moment)?;
    Ok(moment.day().write())
}

/// Whether a frame stands in a stream.
pub fn has_frame(alloc: Global, stream: &[u8]) -> Result<bool, NoMemory>
    ensures { IfOk result (λ found. found ≡ is_some (slice_get (frames_of stream.now) 0)) }
{
    let mut reader = Reader::new(alloc);
    reader.feed(stream)?;
    Ok(reader.next()?.is_some())
}

/// A Logout that says why, as a frame; its header is left out here.
pub fn logout(alloc: Global, reason: &[u8]) -> Result<Vec<u8>, WriteFault>
    ensures { IfOk result (λ frame. IsFrame frame.items) }
{
    let mut message = FrameText::new(alloc, b"5")?;
    message.put(58, reason)?;
    Ok(message.finish()?)
}

/// The sequence number of a frame, or the first fault of its message.
pub fn number_of<'a>(alloc: Global, frame: &Frame<'a>) -> Result<u64, FieldFault<'a>>
    ensures { IfOk result (λ number. IsOkAnd (decoded (fields_of (text_of frame.now)))
        (λ message. number ≡ message.head.number)) }
{
    let message = decode(alloc, frame)?;
    Ok(message.head.number)
}
