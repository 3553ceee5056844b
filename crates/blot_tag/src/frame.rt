//! One valid frame.
ghost use Rattle.std.specs.Prelude.{◌≡◌, ◌≤◌, ℕ, List, length, None, IsNone, All};
ghost use Rattle.blot_tag.specs.Fields.{fields_before_fault, fault_of};
ghost use Rattle.blot_tag.specs.FieldText.{fields_text, BeginsWith, IsSlice, EachEnds};
ghost use Rattle.blot_tag.specs.Frames.{IsFrame, longest_frame};
ghost use Rattle.blot_tag.specs.Joined.{AreJust, FrameComesFirst, HasLastFrame, IsJoined, IsWhole};
ghost use Rattle.blot_tag.specs.Places.{ArePlaced};

use crate::fields::Fields;

/// One valid frame of a stream: a message of FIX 4.4 with the right BodyLength and CheckSum.
/// FIX 4.4 volume 2, "Message header" and "Message trailer".
#[derive(Drop)]
pub struct Frame<'a> {
    text: &'a [u8],
    pub ghost valid: { ∥ IsFrame text.now ∥₁ },
}

impl<'a> Frame<'a> {
    ghost use Rattle.blot_tag.specs.Views.{items_of, text_of};

    /// A text that is known to be a frame.
    pub(crate) fn new(text: &'a [u8]) -> Frame<'a>
        requires { IsFrame text.now }
        ensures { text_of result ≡ text.now }
    {
        Frame { text }
    }

    /// The whole text of the frame, its CheckSum included.
    pub fn text(&self) -> &'a [u8]
        ensures text { result.now ≡ text_of self.now }

        // Each frame of a stream stands at its place, and the bytes between the frames are those that are passed over.
        ensures places { (stream : List ℕ) → ArePlaced stream }

        // Before any text it is the first frame, and behind whole frames it is the last.
        ensures first { FrameComesFirst (text_of self.now) }
        ensures last { (stream : List ℕ) → IsWhole stream → HasLastFrame stream (text_of self.now) }

        // Frames that are joined are just these frames, and the frames of a whole stream, joined, are the stream.
        ensures joined { (frames : List (List ℕ)) → All IsFrame frames → AreJust frames }
        ensures back { (stream : List ℕ) → IsWhole stream → IsJoined stream }
    {
        self.text
    }

    /// The fields of the frame, from left to right, 8, 9, 35 and 10 included; or those before the
    /// first that can't be split off, and then that fault. FIX 4.4 volume 1, "tag=value" syntax.
    pub fn fields(&self) -> Fields<'a>
        ensures items { result ≡ items_of self.now }

        // In plain words: the fields stand in the frame one after the other, each value a slice of
        // it, and without a fault they are all of it.
        ensures front { BeginsWith (fields_text (fields_before_fault result)) (text_of self.now) }
        ensures whole { IsNone (fault_of result) → fields_text (fields_before_fault result) ≡ text_of self.now }
        ensures slices { All (λ field. IsSlice field.value (text_of self.now)) (fields_before_fault result) }
        ensures ends { EachEnds None (fields_before_fault result) }

        // No more than the longest frame has bytes.
        ensures few { length result ≤ longest_frame }
        ensures valid { IsFrame (text_of self.now) }
    {
        Fields::of(self.text)
    }
}
