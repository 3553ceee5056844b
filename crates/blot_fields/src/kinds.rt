//! Which message it is, by the values that name it.
ghost use Rattle.std.specs.Prelude.{◌≡◌};
ghost use Rattle.blot_fields.specs.Kinds.{kind_of, exec_type_of};

use crate::fault::Flaw;
use crate::forms::Form;

/// The message types that have a table. FIX 4.4 volume 1, MsgType(35).
#[derive(Clone, Copy)]
pub(crate) enum Kind {
    Logon,
    Heartbeat,
    TestRequest,
    ResendRequest,
    Reject,
    SequenceReset,
    Logout,
    Report,
    Allocation,
    Other,
}

/// The message type that a value of MsgType(35) names.
#[tactic(auto, unfolding(crate::specs::Kinds::kind_of))]
pub(crate) fn kind_of(value: &[u8]) -> Kind
    ensures { result ≡ kind_of value.now }
{
    match value {
        b"A" => Kind::Logon,
        b"0" => Kind::Heartbeat,
        b"1" => Kind::TestRequest,
        b"2" => Kind::ResendRequest,
        b"3" => Kind::Reject,
        b"4" => Kind::SequenceReset,
        b"5" => Kind::Logout,
        b"8" => Kind::Report,
        b"J" => Kind::Allocation,
        _ => Kind::Other,
    }
}

/// What an Execution Report reports. FIX 4.4 volume 4, ExecType(150).
#[derive(Clone, Copy)]
pub(crate) enum ExecType {
    Trade,
    Correct,
    Bust,
    Other,
}

/// The type that a value of ExecType(150) names.
#[tactic(auto, unfolding(crate::specs::Kinds::exec_type_of))]
pub(crate) fn exec_type_of(value: &[u8]) -> ExecType
    ensures { result ≡ exec_type_of value.now }
{
    match value {
        b"F" => ExecType::Trade,
        b"G" => ExecType::Correct,
        b"H" => ExecType::Bust,
        _ => ExecType::Other,
    }
}

/// What an Allocation Instruction does. FIX 4.4 volume 5, AllocTransType(71); the first three.
#[derive(Clone, Copy)]
pub(crate) enum AllocType {
    New,
    Replace,
    Cancel,
}

impl<'a> Form<'a> for AllocType {
    ghost use Rattle.blot_fields.specs.Kinds.{alloc_type_form};

    ghost form = { alloc_type_form };

    #[tactic(auto, unfolding(crate::specs::Kinds::alloc_type_form))]
    fn from_value(value: &'a [u8]) -> Result<AllocType, Flaw> {
        match value {
            b"0" => Ok(AllocType::New),
            b"1" => Ok(AllocType::Replace),
            b"2" => Ok(AllocType::Cancel),
            _ => Err(Flaw::ValueIncorrect),
        }
    }
}
