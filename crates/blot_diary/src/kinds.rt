//! Which of a journal's own frames it is.
ghost use Rattle.std.specs.Prelude.{◌≡◌};
ghost use Rattle.blot_diary.specs.Kinds.{kind_of};

/// The types of frames that only a journal has, and all others.
#[derive(Clone, Copy)]
pub(crate) enum Kind {
    Beginning,
    Wrapped,
    Numbers,
    Asked,
    Message,
}

/// The type of frame that a value of MsgType(35) names.
#[tactic(auto, unfolding(crate::specs::Kinds::kind_of))]
pub(crate) fn kind_of(value: &[u8]) -> Kind
    ensures { result ≡ kind_of value.now }
{
    match value {
        b"UD" => Kind::Beginning,
        b"UR" => Kind::Wrapped,
        b"UN" => Kind::Numbers,
        b"UL" => Kind::Asked,
        _ => Kind::Message,
    }
}
