//! The frames of a text, one by one.
ghost use Rattle.std.specs.Prelude.{◌≡◌, ◌+◌, ◌<◌, ◌≤◌, ◌^◌, ◌++◌, ℕ, List, [], drop, length, vec_len, Err, IfErr, IfOk, IfSome, None, Ok, OnOk, Some};
ghost use Rattle.blot_tag.specs.Frames.{BeginsWithFrame, IsFrame};
ghost use Rattle.blot_tag.specs.Joined.{IsWhole};
ghost use Rattle.blot_tag.specs.Views.{text_of};
ghost use Rattle.blot_diary.specs.declared.kept.Beginning.{Beginning};
ghost use Rattle.blot_recovery.specs.declared.fault.RecoverFault.{RecoverFault as Fault};
ghost use Rattle.blot_recovery.specs.Faults.{IsOfNoText};
ghost use Rattle.blot_recovery.specs.Moments.{IsOrWasRead};
ghost use Rattle.blot_recovery.specs.Walking.{IsFaultIn, IsTakenTo};

use crate::{Pieces, RecoverFault};
use blot_tag::{Frame, Reader};
use std::alloc::Global;

// How many bytes are read at once.
const PIECE: usize = 65536;

/// What takes the frames of a text.
pub(crate) trait Takes {
    /// What it is behind a text, by what it was before it.
    ghost After: { Self → List ℕ → Self → Type 0 };

    /// A text begins so, and otherwise than it was asked for.
    ghost IsOther: { Self → List ℕ → Beginning → Type 0 };

    /// It refuses a frame for this fault.
    ghost Refuses: { Self → List ℕ → Fault → Type 0 };

    /// Takes a frame, which stands at this place of its text.
    fn take(&mut self, frame: &Frame, place: usize) -> Result<(), RecoverFault>
        ensures taken { OnOk result ((first : Self) (text : List ℕ) → IsWhole text → After first text self.old → After first (text ++ text_of frame.now) self.new) }
        ensures other { (found : Beginning) → result ≡ Err (RecoverFault.Another found)
            → (first : Self) (text behind : List ℕ) → IsWhole text → After first text self.old → IsOther first (text ++ text_of frame.now ++ behind) found }
        ensures damaged { (at : ℕ) → result ≡ Err (RecoverFault.Damaged at) → at ≡ place }
        ensures refused { IfErr result (Refuses self.old (text_of frame.now)) };
}

/// Takes all frames of a text, which has to be whole frames.
pub(crate) fn take_all<P: Pieces, T: Takes>(
    alloc: Global,
    text: &mut P,
    taker: &mut T,
) -> Result<(), RecoverFault>
    requires readable { P.IsReadable text.old }
    requires first { T.After taker.old [] taker.old }
    ensures whole { OnOk result (IsWhole (P.text text.old)) }
    ensures taken { OnOk result (T.After taker.old (P.text text.old) taker.new) }
    ensures fault { IfErr result (IsFaultIn T.After T.IsOther T.Refuses taker.old (P.text text.old)) }
    ensures same { P.text text.new ≡ P.text text.old }
    ensures readable { P.IsReadable text.new }
    ensures read { IsOrWasRead P.Reads text.old text.new }
{
    let mut reader = Reader::new(alloc);
    let len = text.len();
    let mut at = 0;
    let mut place = 0;
    while at < len {
        let piece = next_piece(alloc, text, at)?;
        reader.feed(&piece)?;
        place = take_frames(&mut reader, taker, place)?;
        at += piece.len();
    }
    if place < len {
        return Err(RecoverFault::Damaged(place));
    }
    Ok(())
}

// Reads the next bytes of a text, from this place on.
fn next_piece<P: Pieces>(alloc: Global, text: &mut P, at: usize) -> Result<Vec<u8>, RecoverFault>
    requires readable { P.IsReadable text.old }
    requires within { at < length (P.text text.old) }
    ensures bytes { IfOk result (λ piece. drop at (P.text text.old) ≡ piece.items ++ drop (at + vec_len piece) (P.text text.old)) }
    ensures within { IfOk result (λ piece. at + vec_len piece ≤ length (P.text text.old)) }
    ensures some { IfOk result (λ piece. 0 < vec_len piece) }
    ensures fault { IfErr result IsOfNoText }
    ensures same { P.text text.new ≡ P.text text.old }
    ensures readable { P.IsReadable text.new }
    ensures read { IsOrWasRead P.Reads text.old text.new }
{
    let count = PIECE.min(text.len() - at);
    let mut piece = vec![in alloc; 0; count]?;
    text.read(at, &mut piece)?;
    Ok(piece)
}

// Takes the frames that stand in a reader: the place behind them.
fn take_frames<T: Takes>(
    reader: &mut Reader,
    taker: &mut T,
    place: usize,
) -> Result<usize, RecoverFault>
    requires clean { reader.old.skipped ≡ 0 }
    requires few { place + length reader.old.unread < 2 ^ 64 }
    ensures clean { OnOk result (reader.new.skipped ≡ 0) }
    ensures ends { OnOk result (BeginsWithFrame reader.new.unread → ⊥) }
    ensures taken { IfOk result (λ after. (first : T) (text behind : List ℕ)
        → IsTakenTo T.After first text (reader.old.unread ++ behind) place taker.old
        → IsTakenTo T.After first text (reader.new.unread ++ behind) after taker.new) }
    ensures fault { IfErr result (λ fault. (first : T) (text behind : List ℕ)
        → IsTakenTo T.After first text (reader.old.unread ++ behind) place taker.old → IsFaultIn T.After T.IsOther T.Refuses first text fault) }
{
    let mut place = place;
    while let Some(size) = take_next(reader, taker, place)? {
        place += size;
    }
    Ok(place)
}

// Takes the next frame that stands in a reader, if there is one: how many bytes it has.
fn take_next<T: Takes>(
    reader: &mut Reader,
    taker: &mut T,
    place: usize,
) -> Result<Option<usize>, RecoverFault>
    requires clean { reader.old.skipped ≡ 0 }
    ensures clean { OnOk result (reader.new.skipped ≡ 0) }
    ensures none { result ≡ Ok None → (reader.new.unread ≡ reader.old.unread) × (taker.new ≡ taker.old) }
    ensures ends { result ≡ Ok None → BeginsWithFrame reader.new.unread → ⊥ }
    ensures size { IfOk result (λ taken. IfSome taken (λ size. (0 < size) × (size + length reader.new.unread ≡ length reader.old.unread))) }
    ensures taken { IfOk result (λ taken. IfSome taken (λ size. (first : T) (text behind : List ℕ)
        → IsTakenTo T.After first text (reader.old.unread ++ behind) place taker.old
        → IsTakenTo T.After first text (reader.new.unread ++ behind) (place + size) taker.new)) }
    ensures fault { IfErr result (λ fault. (first : T) (text behind : List ℕ)
        → IsTakenTo T.After first text (reader.old.unread ++ behind) place taker.old → IsFaultIn T.After T.IsOther T.Refuses first text fault) }
{
    let taken = match reader.next()? {
        Some(frame) => taken_by(taker, &frame, place),
        None => Ok(None),
    };
    // Bytes that were passed over are damage, whatever the frame behind them says.
    if reader.skipped() > 0 {
        return Err(RecoverFault::Damaged(place));
    }
    taken
}

// Takes a frame: how many bytes it has.
fn taken_by<T: Takes>(
    taker: &mut T,
    frame: &Frame,
    place: usize,
) -> Result<Option<usize>, RecoverFault>
    ensures size { IfOk result (λ taken. taken ≡ Some (length (text_of frame.now))) }
    ensures taken { OnOk result ((first : T) (text behind : List ℕ) → IsTakenTo T.After first text (text_of frame.now ++ behind) place taker.old
        → IsTakenTo T.After first text behind (place + length (text_of frame.now)) taker.new) }
    ensures fault { IfErr result (λ fault. (first : T) (text behind : List ℕ) → IsFrame (text_of frame.now)
        → IsTakenTo T.After first text (text_of frame.now ++ behind) place taker.old → IsFaultIn T.After T.IsOther T.Refuses first text fault) }
{
    let size = frame.text().len();
    match taker.take(frame, place) {
        Ok(()) => Ok(Some(size)),
        Err(fault) => Err(fault),
    }
}
