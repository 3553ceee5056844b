//! Short texts, held in the value itself.
ghost use Rattle.std.specs.Prelude.{◌≡◌, ◌≢◌, ℕ, ◌-◌, ◌<◌, ◌≤◌, ◌↔◌, ◌==◌, List, [], ◌∷◌, ◌++◌, length, take, Some, true, IsTrue, IsSome, IfSome, nat_eq, refl};
ghost use Rattle.std.specs.List.{list_all};
ghost use Rattle.std.specs.Ordering.{nat_cmp};
ghost use Rattle.std.specs.Cmp.{partial_equiv_from_equiv};
ghost use Rattle.std.specs.Cmp.Lexicographic.{pointwise, slice_cmp, nat_list_eq_equiv, nat_list_cmp_total, texts_po, texts_ties};
ghost use Rattle.std.specs.Cmp.Rules.{hashing};
ghost use Rattle.std.proofs.Common.{rules};
ghost use Rattle.blot_types.specs.Text.{is_text, printable, with_zeros};

use std::cmp::Ordering;
use std::fmt;
use std::hash::{Hash, Hasher};
use std::marker::Model;

/// The most bytes of a text.
pub const TEXT_MAX: usize = 64;

/// An identifier, an account or a symbol: 1 to 64 bytes from space to tilde, held in the value itself.
/// Texts are equal, ordered and hashed by their bytes. This project's rule; FIX 4.4 sets no limit.
#[derive(Clone, Copy)]
pub struct Text64 {
    buffer: [u8; TEXT_MAX],
    len: u8,
}

impl Model for Text64 {
    ghost use Rattle.std.specs.Prelude.{◌≡◌, ℕ, ◌≤◌, List, length, take, true};
    ghost use Rattle.std.proofs.Common.{length-take-le};
    ghost use Rattle.blot_types.specs.Text.{is_text, with_zeros, HoldsText};

    ghost Value = { List ℕ };

    ghost view = { λ t. take t.len t.buffer };

    ghost invariant = { λ t. HoldsText t.len t.buffer };

    ghost inverse = { λ text. record { buffer = with_zeros text; len = length text } };

    ghost inverse_ok = { λ t holds i. record {
      buffer = holds.is_filled_up i;
      len = holds.is_long_enough i;
    } };
}

impl Text64 {
    /// The text of these bytes, or none where they are no text: empty, over 64 bytes, or with a byte
    /// outside 0x20 to 0x7E.
    pub fn read(bytes: &[u8]) -> Option<Text64>
        ensures text { IsSome result ↔ IsTrue (is_text bytes.now) }
        ensures value { IfSome result (λ text. text ≡ bytes.now) }
    {
        if is_text(bytes) {
            Some(Text64::of(bytes))
        } else {
            None
        }
    }

    /// The text of these bytes, which are one.
    pub fn of(bytes: &[u8]) -> Text64
        requires { IsTrue (is_text bytes.now) }
        ensures { result ≡ bytes.now }
    {
        Text64 {
            buffer: filled_up(bytes),
            len: bytes.len() as u8,
        }
    }

    /// The bytes of the text.
    pub fn bytes(&self) -> &[u8]
        ensures value { result.now ≡ self.now }
        ensures text { IsTrue (is_text self.now) }
    {
        &self.buffer[..usize::from(self.len)]
    }
}

/// Whether these bytes are a text: 1 to 64 bytes from space to tilde.
pub fn is_text(bytes: &[u8]) -> bool
    ensures { result ≡ is_text bytes.now }
{
    if bytes.is_empty() || bytes.len() > TEXT_MAX {
        return false;
    }
    is_printable(bytes)
}

// Whether each of these bytes is printable.
fn is_printable(bytes: &[u8]) -> bool
    ensures { result ≡ list_all printable bytes.now }
{
    bytes.iter().all(|byte| 0x20 <= *byte && *byte <= 0x7E)
}

// The buffer that holds this text.
fn filled_up(text: &[u8]) -> [u8; TEXT_MAX]
    requires { length text.now ≤ TEXT_MAX }
    ensures { result ≡ with_zeros text.now }
{
    let mut buffer = [0; TEXT_MAX];
    buffer[..text.len()].copy_from_slice(text);
    buffer
}

impl PartialEq for Text64 {
    ghost eq = { pointwise nat_eq };

    ghost laws = { partial_equiv_from_equiv nat_list_eq_equiv };

    fn eq(&self, other: &Text64) -> bool {
        self.bytes() == other.bytes()
    }
}

impl Eq for Text64 {
    ghost laws = { nat_list_eq_equiv };
}

impl PartialOrd for Text64 {
    ghost partial_cmp = { λ a b. Some (slice_cmp nat_cmp a b) };

    ghost laws = { texts_po };

    fn partial_cmp(&self, other: &Text64) -> Option<Ordering> {
        Some(self.cmp(other))
    }
}

impl Ord for Text64 {
    ghost cmp = { slice_cmp nat_cmp };

    ghost total = { nat_list_cmp_total };

    ghost matches_partial_cmp = { λ a b. refl };

    ghost matches_eq = { texts_ties };

    fn cmp(&self, other: &Text64) -> Ordering {
        self.bytes().cmp(other.bytes())
    }
}

impl Hash for Text64 {
    ghost hash_input = { λ text. text ∷ [] };

    ghost respects_eq = { Prim.search (hashing, rules) };

    fn hash<H: Hasher>(&self, state: &mut H) {
        state.write(self.bytes());
    }
}

impl fmt::Debug for Text64 {
    fn fmt<W: fmt::Write>(&self, f: &mut fmt::Formatter<W>) -> fmt::Result {
        fmt::Debug::fmt(self.bytes(), f)
    }
}
