//! Short texts, where they stand in their frame.
ghost use Rattle.std.specs.Prelude.{◌≡◌, ◌↔◌, IsTrue, IsSome, IfSome, nat_eq, Some};
ghost use Rattle.std.specs.Cmp.{partial_equiv_from_equiv};
ghost use Rattle.std.specs.Cmp.Lexicographic.{pointwise, nat_list_eq_equiv};
ghost use Rattle.blot_types.specs.Text.{is_text};

use blot_types::{Text64, is_text};
use std::fmt;
use std::marker::Model;

/// An identifier, an account or a symbol: 1 to 64 bytes from space to tilde, which stand in their frame. Texts are
/// equal by their bytes. This project's rule; FIX 4.4 sets no limit.
#[derive(Drop)]
pub struct Text<'a> {
    bytes: &'a [u8],
}

impl<'a> Model for Text<'a> {
    ghost use Rattle.std.specs.Prelude.{ℕ, List, IsTrue};
    ghost use Rattle.blot_types.specs.Text.{is_text};

    ghost Value = { List ℕ };

    ghost view = { λ text. text.bytes.now };

    ghost invariant = { λ text. IsTrue (is_text text.bytes.now) };
}

impl<'a> Text<'a> {
    /// The text of these bytes, or none where they are no text: empty, over 64 bytes, or with a byte
    /// outside 0x20 to 0x7E.
    pub fn read(bytes: &'a [u8]) -> Option<Text<'a>>
        ensures text { IsSome result ↔ IsTrue (is_text bytes.now) }
        ensures value { IfSome result (λ text. text ≡ bytes.now) }
    {
        if is_text(bytes) {
            Some(Text { bytes })
        } else {
            None
        }
    }

    /// The bytes of the text.
    pub fn bytes(&self) -> &'a [u8]
        ensures value { result.now ≡ self.now }
        ensures text { IsTrue (is_text self.now) }
    {
        self.bytes
    }

    /// A copy of it that owns its bytes. It takes no memory.
    pub fn owned(&self) -> Text64
        ensures { result ≡ self.now }
    {
        Text64::of(self.bytes)
    }
}

impl<'a> PartialEq for Text<'a> {
    ghost eq = { pointwise nat_eq };

    ghost laws = { partial_equiv_from_equiv nat_list_eq_equiv };

    fn eq(&self, other: &Text<'a>) -> bool {
        self.bytes() == other.bytes()
    }
}

impl<'a> Eq for Text<'a> {
    ghost laws = { nat_list_eq_equiv };
}

impl<'a> fmt::Debug for Text<'a> {
    fn fmt<W: fmt::Write>(&self, f: &mut fmt::Formatter<W>) -> fmt::Result {
        fmt::Debug::fmt(self.bytes(), f)
    }
}
