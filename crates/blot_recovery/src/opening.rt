//! A day that is opened over the file of a journal.
ghost use Rattle.std.specs.Prelude.{All, ◌≡◌, ◌≢◌, ◌+◌, ◌++◌, ◌<◌, [], false, length, IfErr, IfOk, IsErrOf, IsTrue, OnOk, Some, true};
ghost use Rattle.std.specs.List.{IsDistinct, list_any};
ghost use Rattle.blot_types.specs.Keys.{same_text};
ghost use Rattle.blot_tag.specs.Joined.{IsWhole};
ghost use Rattle.blot_desk.specs.Desk.{IsRun, events_of};
ghost use Rattle.blot_desk.specs.Keeping.{kept_events};
ghost use Rattle.blot_journal.specs.Device.{LeavesOnly};
ghost use Rattle.blot_journal.specs.File.{StandsBeforeOrAfter, text_of};
ghost use Rattle.blot_journal.specs.Journal.{text_in_journal};
ghost use Rattle.blot_journal.specs.Recovery.{IsLeft};
ghost use Rattle.blot_diary.specs.Diary.{desk_events};
ghost use Rattle.blot_recovery.specs.Moments.{IsOpening, IsOrLeaves, IsOrWasRead, SameOrBegun, WasRead};
ghost use Rattle.blot_recovery.specs.Opening.{IfRefused, IsBeginning, IsOpenFault, IsOpened, IsRecovered, IsTextFault, OpensWith, is_of_disk};
ghost use Rattle.blot_recovery.specs.Parties.{AreKeptOperators, IsFirst, IsKeptPeer, operator_names};
ghost use Rattle.blot_recovery.specs.Taking.{names_of};

use crate::{InMemory, OPERATOR_SEATS, RecoverFault, Recovered, recover};
use blot_diary::{Diary, beginning_record};
use blot_journal::{Device, Journal, JournalFault, RecoveryFault};
use blot_time::{Day, Moment};
use blot_types::Text64;
use std::alloc::Global;
use std::sync::ledger::{Blank, Ledger};

/// Why a day isn't opened.
#[derive(Clone, Copy, Debug, PartialEq, Eq)]
pub enum OpenFault {
    /// The file isn't that of a journal, or can't be read.
    File(RecoveryFault),
    /// Its text isn't taken up.
    Text(RecoverFault),
    /// It can't be written: it has no text, and the beginning fails, or what stands behind its text can't be cut off.
    Write(JournalFault),
}

/// Opens the day of this blotter over the file of a journal: takes its text up, and where there is none begins it, as of now. What stands behind
/// the text is cut off once that is taken up. A fault hands the file back.
pub fn open_day<L: Ledger, D: Device>(
    alloc: Global,
    blank: Blank,
    device: D,
    own: Text64,
    day: Day,
    now: Moment,
    peers: &[Text64],
    operator: Option<Text64>,
) -> Result<(Diary<D>, Recovered<L>), (OpenFault, D)>
    requires name { blank.name ≡ L.name }
    requires parts { blank.parts ≡ L.parts }
    requires seats { blank.parts ≡ length peers.now + OPERATOR_SEATS }
    requires distinct { IsDistinct same_text peers.now }
    requires others { list_any (same_text own) peers.now ≡ false }
    requires readable { IsTrue (D.is_readable device) }

    // The diary has the text of the file, all of it durable, and that of a new file has a beginning.
    ensures text { IfOk result (λ opened. OpensWith own day (text_of (D.seen device)) opened.0.text) }
    ensures file { IfOk result (λ opened. IsOpened (D.seen device) (D.seen opened.0.device)) }
    ensures durable { IfOk result (λ opened. opened.0.durable ≡ opened.0.text) }
    ensures found { IfOk result (λ opened. opened.0.found ≡ opened.0.text) }
    ensures since { IfOk result (λ opened. opened.0.since ≡ D.moment opened.0.device) }
    ensures unbroken { IfOk result (λ opened. opened.0.is_broken ≡ false) }

    // The day is the one asked for, and its desk the run of the events of the file, and of those that the diary keeps.
    ensures day { IfOk result (λ opened. opened.1.day ≡ day) }
    ensures events { IfOk result (λ opened. events_of opened.1.opening.history ≡ desk_events (text_of (D.seen device))) }
    ensures run { IfOk result (λ opened. IsRun opened.1.opening) }
    ensures kept { IfOk result (λ opened. kept_events opened.1.opening.history ≡ desk_events opened.0.text) }

    // Each party is as the text leaves it.
    ensures listed { IfOk result (λ opened. names_of opened.1.peers.items ≡ peers.now) }
    ensures peers { IfOk result (λ opened. All (IsKeptPeer own opened.0.text) opened.1.peers.items) }
    ensures operators { IfOk result (λ opened. AreKeptOperators opened.0.text opened.1.operators) }
    ensures first { IfOk result (λ opened. IsFirst operator (operator_names opened.1.operators.named.items)) }

    // A file that is refused, by itself or by its text, is left as it was, bytes and all.
    ensures fault { IfErr result (λ refused. IsOpenFault own day peers.now operator (D.seen device) refused.0) }
    ensures untouched { IfErr result (λ refused. IfRefused refused.0 (IsLeft D.seen D.may_leave D.moment D.left_since device refused.1)) }
    ensures cause { IfErr result (λ refused. is_of_disk refused.0 ≡ true → D.failures device < D.failures refused.1) }

    // A crash at any moment leaves the file as it was or as the crash before might have left it, a beginning of it that has the whole text, or of one
    // without a text its beginning.
    ensures any_moment { IfOk result (λ opened. LeavesOnly D.moment D.left_since device opened.0.device (IsOpening own day (D.seen device) (D.may_leave device))) }
    ensures any_moment_err { IfErr result (λ refused. LeavesOnly D.moment D.left_since device refused.1 (IsOpening own day (D.seen device) (D.may_leave device))) }
{
    let mut journal = match Journal::recover(alloc, device) {
        Ok(journal) => journal,
        Err((fault, device)) => return Err((OpenFault::File(fault), device)),
    };
    let recovered = match take_up(alloc, blank, &mut journal, own, day, now, peers, operator) {
        Ok(recovered) => recovered,
        Err(fault) => return Err((fault, journal.into_device())),
    };
    match journal.trim() {
        Ok(()) => Ok((Diary::new(journal), recovered)),
        Err(fault) => Err((OpenFault::Write(fault), journal.into_device())),
    }
}

// Takes up the text of a journal, or begins it where there is none.
fn take_up<L: Ledger, D: Device>(
    alloc: Global,
    blank: Blank,
    journal: &mut Journal<D>,
    own: Text64,
    day: Day,
    now: Moment,
    peers: &[Text64],
    operator: Option<Text64>,
) -> Result<Recovered<L>, OpenFault>
    requires name { blank.name ≡ L.name }
    requires parts { blank.parts ≡ L.parts }
    requires seats { blank.parts ≡ length peers.now + OPERATOR_SEATS }
    requires distinct { IsDistinct same_text peers.now }
    requires others { list_any (same_text own) peers.now ≡ false }
    requires unbroken { journal.old.is_broken ≡ false }
    requires none_waiting { journal.old.waiting ≡ [] }
    requires readable { IsTrue (D.is_readable journal.old.device) }
    ensures opens { OnOk result (OpensWith own day (text_in_journal D.seen journal.old) (text_in_journal D.seen journal.new)) }
    ensures file { OnOk result (text_in_journal D.seen journal.old ≢ [] → D.seen journal.new.device ≡ D.seen journal.old.device) }
    ensures whole { OnOk result (IsWhole (text_in_journal D.seen journal.new)) }
    ensures recovered { IfOk result (IsRecovered own peers.now operator (text_in_journal D.seen journal.new)) }
    ensures day { IfOk result (λ recovered. recovered.day ≡ day) }
    ensures events { IfOk result (λ recovered. events_of recovered.opening.history ≡ desk_events (text_in_journal D.seen journal.old)) }
    ensures unbroken { OnOk result (journal.new.is_broken ≡ false) }
    ensures none_waiting { OnOk result (journal.new.waiting ≡ []) }
    ensures any_moment { IsOrLeaves D.moment D.left_since journal.old.device journal.new.device (SameOrBegun own day (D.seen journal.old.device)) }
    ensures untouched { IfErr result (λ fault. IfRefused fault (IsOrWasRead (WasRead D.seen D.moment D.left_since) journal.old journal.new)) }
    ensures failed { IsErrOf result (OpenFault.Write JournalFault.Failed) → D.failures journal.old.device < D.failures journal.new.device }
    ensures fault { IfErr result (IsTextFault own day peers.now operator (text_in_journal D.seen journal.old)) }
{
    if journal.len() == 0 {
        begin(alloc, blank, journal, own, day, now, peers, operator)
    } else {
        go_on(alloc, blank, journal, own, day, peers, operator)
    }
}

// Begins the text of a new file: takes it up, and makes it durable.
fn begin<L: Ledger, D: Device>(
    alloc: Global,
    blank: Blank,
    journal: &mut Journal<D>,
    own: Text64,
    day: Day,
    now: Moment,
    peers: &[Text64],
    operator: Option<Text64>,
) -> Result<Recovered<L>, OpenFault>
    requires name { blank.name ≡ L.name }
    requires parts { blank.parts ≡ L.parts }
    requires seats { blank.parts ≡ length peers.now + OPERATOR_SEATS }
    requires distinct { IsDistinct same_text peers.now }
    requires others { list_any (same_text own) peers.now ≡ false }
    requires unbroken { journal.old.is_broken ≡ false }
    requires none_waiting { journal.old.waiting ≡ [] }
    requires none { text_in_journal D.seen journal.old ≡ [] }
    ensures begins { OnOk result (IsBeginning own day (text_in_journal D.seen journal.new)) }
    ensures whole { OnOk result (IsWhole (text_in_journal D.seen journal.new)) }
    ensures recovered { IfOk result (IsRecovered own peers.now operator (text_in_journal D.seen journal.new)) }
    ensures day { IfOk result (λ recovered. recovered.day ≡ day) }
    ensures events { IfOk result (λ recovered. events_of recovered.opening.history ≡ []) }
    ensures unbroken { OnOk result (journal.new.is_broken ≡ false) }
    ensures none_waiting { OnOk result (journal.new.waiting ≡ []) }
    ensures any_moment { IsOrLeaves D.moment D.left_since journal.old.device journal.new.device (SameOrBegun own day (D.seen journal.old.device)) }
    ensures untouched { IfErr result (λ fault. IfRefused fault (IsOrWasRead (WasRead D.seen D.moment D.left_since) journal.old journal.new)) }
    ensures failed { IsErrOf result (OpenFault.Write JournalFault.Failed) → D.failures journal.old.device < D.failures journal.new.device }
    ensures fault { IfErr result (IsTextFault own day peers.now operator []) }
{
    let record = match beginning_record(alloc, &own, day, now) {
        Ok(record) => record,
        Err(_) => return Err(OpenFault::Write(JournalFault::NoMemory)),
    };
    let mut text = InMemory { text: &record };
    let recovered = match recover(alloc, blank, &mut text, own, Some(day), peers, operator) {
        Ok(recovered) => recovered,
        Err(fault) => return Err(OpenFault::Text(fault)),
    };
    match write(journal, &record) {
        Ok(()) => Ok(recovered),
        Err(fault) => Err(OpenFault::Write(fault)),
    }
}

// Puts a text behind that of a journal, and makes it durable.
fn write<D: Device>(journal: &mut Journal<D>, text: &[u8]) -> Result<(), JournalFault>
    requires unbroken { journal.old.is_broken ≡ false }
    requires none_waiting { journal.old.waiting ≡ [] }
    ensures text { OnOk result (text_in_journal D.seen journal.new ≡ text_in_journal D.seen journal.old ++ text.now) }
    ensures failed { IsErrOf result JournalFault.Failed → D.failures journal.old.device < D.failures journal.new.device }
    ensures was_broken { IsErrOf result JournalFault.Broken → ⊥ }
    ensures any_moment { IsOrLeaves D.moment D.left_since journal.old.device journal.new.device (StandsBeforeOrAfter (text_in_journal D.seen journal.old) text.now) }
    ensures unbroken { OnOk result (journal.new.is_broken ≡ false) }
    ensures none_waiting { OnOk result (journal.new.waiting ≡ []) }
{
    journal.reserve(text.len())?;
    journal.append(text);
    journal.sync()
}

// Takes up the text of a journal that has one.
fn go_on<L: Ledger, D: Device>(
    alloc: Global,
    blank: Blank,
    journal: &mut Journal<D>,
    own: Text64,
    day: Day,
    peers: &[Text64],
    operator: Option<Text64>,
) -> Result<Recovered<L>, OpenFault>
    requires name { blank.name ≡ L.name }
    requires parts { blank.parts ≡ L.parts }
    requires seats { blank.parts ≡ length peers.now + OPERATOR_SEATS }
    requires distinct { IsDistinct same_text peers.now }
    requires others { list_any (same_text own) peers.now ≡ false }
    requires unbroken { journal.old.is_broken ≡ false }
    requires none_waiting { journal.old.waiting ≡ [] }
    requires readable { IsTrue (D.is_readable journal.old.device) }
    requires some { text_in_journal D.seen journal.old ≢ [] }
    ensures same { text_in_journal D.seen journal.new ≡ text_in_journal D.seen journal.old }
    ensures whole { OnOk result (IsWhole (text_in_journal D.seen journal.new)) }
    ensures recovered { IfOk result (IsRecovered own peers.now operator (text_in_journal D.seen journal.new)) }
    ensures day { IfOk result (λ recovered. recovered.day ≡ day) }
    ensures unbroken { journal.new.is_broken ≡ false }
    ensures none_waiting { journal.new.waiting ≡ [] }
    ensures read { IsOrWasRead (WasRead D.seen D.moment D.left_since) journal.old journal.new }
    ensures unwritten { IsErrOf result (OpenFault.Write JournalFault.Failed) → ⊥ }
    ensures fault { IfErr result (IsTextFault own day peers.now operator (text_in_journal D.seen journal.old)) }
{
    match recover(alloc, blank, journal, own, Some(day), peers, operator) {
        Ok(recovered) => Ok(recovered),
        Err(fault) => Err(OpenFault::Text(fault)),
    }
}
