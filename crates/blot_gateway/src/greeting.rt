//! The first message of a connection.
ghost use Rattle.std.specs.Prelude.{◌≡◌, ◌≢◌, ◌<◌, ◌≤◌, [], length, IfErr, IfOk, OnErr, OnOk};
ghost use Rattle.blot_tag.specs.Walking.{frames_of, rest_of};
ghost use Rattle.blot_gateway.specs.declared.ended.TheConstants.{READS_MAX};
ghost use Rattle.blot_gateway.specs.Greeting.{Feeds, FeedsLast, Greeted, PeeksBy, greeted_by};
ghost use Rattle.blot_gateway.specs.Serving.{IsCounted};

use crate::{Ended, READS_MAX, Reading, Wire, empty_piece};
use blot_fields::{Admin, Body, FieldFault, Message, decode, is_out_of_memory};
use blot_session::CloseReason;
use blot_tag::Reader;
use blot_types::Text64;
use std::alloc::{AllocError as NoMemory, Global};

/// Reads until the first frame stands in the reader, and says who sent it, by its SenderCompID. The frame stays there, what can't become
/// one is passed over before the next read, and nothing is written.
///
/// Closed with NoLogon: the first message is no Logon, or at fault; with CompId: its TargetCompID is another. End: the
/// wire ended before a frame. ReadFault: a read failed, and that is counted. TooLong: 2^30 reads were made. NoMemory: memory ran out.
pub fn greet<W: Wire>(
    alloc: Global,
    wire: &mut W,
    reader: &mut Reader,
    own: Text64,
) -> Result<Text64, Ended>
    ensures greeted { Greeted W.does own READS_MAX result wire.old reader.old.unread wire.new reader.new.unread }
    ensures ending { IfErr result (λ end. end ≢ Ended.NoGreeting) }
    ensures counted { IfErr result (IsCounted (W.failures wire.old) (W.failures wire.new)) }
    ensures failures { W.failures wire.old ≤ W.failures wire.new }
{
    match greet_within(alloc, wire, reader, own, READS_MAX) {
        Err(Ended::NoGreeting) => Err(Ended::TooLong),
        answer => answer,
    }
}

/// The same with this many reads at most. NoGreeting in place of TooLong: as many were made, and no frame stands there.
pub fn greet_within<W: Wire>(
    alloc: Global,
    wire: &mut W,
    reader: &mut Reader,
    own: Text64,
    reads: u64,
) -> Result<Text64, Ended>
    ensures ending { IfErr result (λ end. end ≢ Ended.TooLong) }
    ensures greeted { Greeted W.does own reads result wire.old reader.old.unread wire.new reader.new.unread }
    ensures counted { IfErr result (IsCounted (W.failures wire.old) (W.failures wire.new)) }
    ensures failures { W.failures wire.old ≤ W.failures wire.new }
{
    let Ok(mut buffer) = empty_piece(alloc) else {
        return Err(Ended::NoMemory);
    };
    for _ in 0..reads {
        if let Some(answer) = peek(alloc, reader, own) {
            return answer;
        }
        let Ok(()) = pass_over(reader) else {
            return Err(Ended::NoMemory);
        };
        match feed_once(wire, reader, &mut buffer) {
            Ok(()) => {}
            Err(ended) => return Err(ended),
        }
    }
    match peek(alloc, reader, own) {
        Some(answer) => answer,
        None => Err(Ended::NoGreeting),
    }
}

// The answer by the first frame of the reader, if one stands there, or that memory ran out.
fn peek(alloc: Global, reader: &mut Reader, own: Text64) -> Option<Result<Text64, Ended>>
    ensures peeks { PeeksBy own reader.old.unread result }
    ensures kept { reader.new ≡ reader.old }
{
    let Ok(found) = reader.peek() else {
        return Some(Err(Ended::NoMemory));
    };
    let Some(frame) = found else {
        return None;
    };
    let said = decode(alloc, &frame);
    let answer = if is_out_of_memory(&said) {
        Err(Ended::NoMemory)
    } else {
        sender_by(&said, own).map_err(Ended::Closed)
    };
    drop(said);
    Some(answer)
}

// Passes over what can't become a frame.
fn pass_over(reader: &mut Reader) -> Result<(), NoMemory>
    requires { frames_of reader.old.unread ≡ [] }
    ensures { OnOk result (reader.new.unread ≡ rest_of reader.old.unread) }
{
    reader.next()?;
    Ok(())
}

// Who speaks, by what the first message says.
fn sender_by(said: &Result<Message, FieldFault>, own: Text64) -> Result<Text64, CloseReason>
    ensures { result ≡ greeted_by own said.now }
{
    let Ok(message) = said else {
        return Err(CloseReason::NoLogon);
    };
    if !matches!(message.body, Body::Admin(Admin::Logon { .. })) {
        return Err(CloseReason::NoLogon);
    }
    if message.head.target.bytes() != own.bytes() {
        return Err(CloseReason::CompId);
    }
    Ok(message.head.sender.owned())
}

// Reads once, and feeds the reader what came.
fn feed_once<W: Wire>(wire: &mut W, reader: &mut Reader, buffer: &mut [u8]) -> Result<(), Ended>
    requires { 0 < length buffer.old }
    ensures ok { OnOk result (Feeds W.does wire.old reader.old.unread wire.new reader.new.unread) }
    ensures err { IfErr result (FeedsLast W.does wire.old reader.old.unread wire.new reader.new.unread) }
    ensures failures { W.failures wire.old ≤ W.failures wire.new }
    ensures counted { IfErr result (IsCounted (W.failures wire.old) (W.failures wire.new)) }
{
    match wire.read_some(buffer) {
        Reading::Got(count) => match reader.feed(&buffer[..count]) {
            Ok(()) => Ok(()),
            Err(_) => Err(Ended::NoMemory),
        },
        Reading::Quiet => Ok(()),
        Reading::End => Err(Ended::End),
        Reading::Fault => Err(Ended::ReadFault),
    }
}
