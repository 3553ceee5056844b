//! The text of a journal, taken up.
ghost use Rattle.std.specs.Prelude.{All, option_to_list, ◌≡◌, ◌+◌, false, length, IfErr, IfOk, IfSome, OnOk, Some};
ghost use Rattle.std.specs.List.{IsDistinct, list_any};
ghost use Rattle.blot_types.specs.Keys.{same_text};
ghost use Rattle.blot_tag.specs.Joined.{IsWhole};
ghost use Rattle.blot_desk.specs.Desk.{IsRun, events_of};
ghost use Rattle.blot_desk.specs.Keeping.{kept_events};
ghost use Rattle.blot_diary.specs.Beginnings.{beginning_of};
ghost use Rattle.blot_diary.specs.Diary.{desk_events};
ghost use Rattle.blot_recovery.specs.Moments.{IsOrWasRead};
ghost use Rattle.blot_recovery.specs.Parties.{AreKeptOperators, IsFirst, IsKeptPeer, operator_names};
ghost use Rattle.blot_recovery.specs.Refusals.{IsRecoverFault};
ghost use Rattle.blot_recovery.specs.Taking.{AreInPlace, begun_on, names_of};

use crate::taking::Taking;
use crate::walking::take_all;
use crate::{KeptOperators, KeptPeer, OPERATOR_SEATS, Pieces, RecoverFault};
use blot_desk::Opening;
use blot_time::Day;
use blot_types::Text64;
use std::alloc::Global;
use std::sync::ledger::{Blank, Ledger};

/// The text of a journal, taken up: the desk with the events, and each party with its seat.
#[derive(Drop)]
pub struct Recovered<L: Ledger> {
    /// The day of the journal.
    pub day: Day,
    pub opening: Opening<L>,
    /// The listed peers, in their order.
    pub peers: Vec<KeptPeer<L>>,
    pub operators: KeptOperators<L>,
}

/// Takes up the text of a journal of this blotter, and of this day where one is given: its events are stepped into an empty desk, each by
/// its party's seat, and the numbers of each peer are found. The text has to be whole frames: the first a `35=UD`, and behind it operators'
/// events, frames of listed peers and to them, and no other. An operator may be named who has the first seat of the operators, whether the text
/// has anything of that one or not. This project's rule.
///
/// Damaged tells the place of the first frame that doesn't stand in such a journal, of an event that the desk has no room for, or of one of an
/// operator whom no seat is left for; or the place where no whole frame begins, which is 0 of an empty text. Unlisted tells the peer of the first
/// such frame. All before is taken up. The blank is given up then: begin again with another.
pub fn recover<L: Ledger, P: Pieces>(
    alloc: Global,
    blank: Blank,
    text: &mut P,
    own: Text64,
    day: Option<Day>,
    peers: &[Text64],
    operator: Option<Text64>,
) -> Result<Recovered<L>, RecoverFault>
    requires name { blank.name ≡ L.name }
    requires parts { blank.parts ≡ L.parts }
    requires seats { blank.parts ≡ length peers.now + OPERATOR_SEATS }
    requires distinct { IsDistinct same_text peers.now }
    requires others { list_any (same_text own) peers.now ≡ false }
    requires readable { P.IsReadable text.old }

    // The text is whole frames, and the journal of this blotter and day.
    ensures whole { OnOk result (IsWhole (P.text text.old)) }
    ensures begins { IfOk result (λ recovered. beginning_of (P.text text.old) ≡ Some (begun_on own recovered.day)) }
    ensures day { IfOk result (λ recovered. IfSome day (λ wanted. recovered.day ≡ wanted)) }

    // Each frame behind the first is an event of an operator's, or one of a listed peer or to it.
    ensures in_place { OnOk result (AreInPlace own peers.now (P.text text.old)) }

    // The desk is the run of the events of the text, none of which only asks.
    ensures events { IfOk result (λ recovered. events_of recovered.opening.history ≡ desk_events (P.text text.old)) }
    ensures run { IfOk result (λ recovered. IsRun recovered.opening) }
    ensures kept { IfOk result (λ recovered. kept_events recovered.opening.history ≡ desk_events (P.text text.old)) }

    // Each party is as the text leaves it.
    ensures listed { IfOk result (λ recovered. names_of recovered.peers.items ≡ peers.now) }
    ensures peers { IfOk result (λ recovered. All (IsKeptPeer own (P.text text.old)) recovered.peers.items) }
    ensures operators { IfOk result (λ recovered. AreKeptOperators (P.text text.old) recovered.operators) }
    ensures first { IfOk result (λ recovered. IsFirst operator (operator_names recovered.operators.named.items)) }

    // Another is told where the text begins so. At a place of damage no whole frame begins, or one that doesn't stand there, or that no seat or no
    // room is left for; an unlisted peer is that of a frame. All before is whole frames in their places.
    ensures fault { IfErr result (IsRecoverFault own day peers.now (option_to_list operator) (P.text text.old)) }

    // The text stays as it was.
    ensures same { P.text text.new ≡ P.text text.old }
    ensures readable { P.IsReadable text.new }
    ensures read { IsOrWasRead P.Reads text.old text.new }
{
    let mut taking = Taking::new(alloc, blank, own, day, peers, operator)?;
    take_all(alloc, text, &mut taking)?;
    taking.into_recovered()
}
