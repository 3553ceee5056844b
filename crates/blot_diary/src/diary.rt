//! The journal of a desk.
ghost use Rattle.std.specs.Prelude.{◌≡◌, ◌↔◌, ◌≤◌, [], ◌++◌, Err, OnOk, false, length, true};
ghost use Rattle.std.specs.List.{cons_option};
ghost use Rattle.blot_tag.specs.Frames.{IsFrame};
ghost use Rattle.blot_tag.specs.Joined.{IsWhole};
ghost use Rattle.blot_journal.specs.Journal.{text_in_journal};
ghost use Rattle.blot_diary.specs.Diary.{desk_events, event_in};

use blot_desk::{Event, KeepFault, Keeper};
use blot_journal::{Device, Journal, JournalFault};
use blot_places::GhostValue;
use std::marker::Model;

/// What keeps the events of a desk: a journal, whose text is whole frames. Nothing but the text says which events they are.
#[derive(Drop)]
pub struct Diary<D: Device> {
    journal: Journal<D>,
    // As it was when it was opened.
    opened: GhostValue<Journal<D>>,
    // As it was before the last sync.
    last: GhostValue<Journal<D>>,
}

impl<D: Device> Model for Diary<D> {
    ghost use Rattle.blot_diary.specs.Diary.{Diarized, IsDiary, diary_of};

    ghost Value = { Diarized D };

    ghost view = { λ diary. diary_of D.seen D.moment diary.journal diary.opened.value diary.last.value };

    ghost invariant = { λ diary. IsDiary D.may_leave D.left_since D.moment (diary_of D.seen D.moment diary.journal diary.opened.value diary.last.value) };
}

impl<D: Device> Diary<D> {
    /// That of a journal whose text is whole frames.
    pub fn new(journal: Journal<D>) -> Diary<D>
        requires unbroken { journal.is_broken ≡ false }
        requires none_waiting { journal.waiting ≡ [] }
        requires whole { IsWhole (text_in_journal D.seen journal) }
        ensures text { result.text ≡ text_in_journal D.seen journal }
        ensures durable { result.durable ≡ text_in_journal D.seen journal }
        ensures found { result.found ≡ text_in_journal D.seen journal }
        ensures since { result.since ≡ D.moment journal.device }
        ensures device { result.device ≡ journal.device }
        ensures unbroken { result.is_broken ≡ false }
    {
        // It is known that a crash now leaves the text.
        let _ = journal.len();
        let (opened, last) = (GhostValue::of(&journal), GhostValue::of(&journal));
        Diary {
            journal,
            opened,
            last,
        }
    }

    /// The file.
    pub fn device(&self) -> &D
        ensures { result.now ≡ self.now.device }
    {
        self.journal.device()
    }

    /// The file, which the diary gives up.
    pub fn into_device(self) -> D
        ensures { result ≡ self.device }
    {
        let Diary { journal, .. } = self;
        journal.into_device()
    }

    // Makes room for so many bytes.
    fn make_room(&mut self, bytes: usize) -> Result<(), KeepFault>
        ensures room { OnOk result (bytes ≤ self.new.room) }
        ensures same { self.new ≡ record self.old { room = self.new.room } }
        ensures broken { (result ≡ Err KeepFault.Broken) ↔ (self.old.is_broken ≡ true) }
    {
        match self.journal.reserve(bytes) {
            Ok(()) => Ok(()),
            Err(JournalFault::Broken) => Err(KeepFault::Broken),
            // A text of more than 2^40 bytes is told so too.
            Err(_) => Err(KeepFault::NoMemory),
        }
    }

    // Puts a frame behind the others, for which there is room.
    fn append(&mut self, frame: &[u8])
        requires valid { IsFrame frame.now }
        requires room { length frame.now ≤ self.old.room }
        ensures events { desk_events self.new.text ≡ desk_events self.old.text ++ cons_option (event_in frame.now) [] }
        ensures same { self.new ≡ record self.old { text = self.old.text ++ frame.now; room = self.new.room } }
    {
        self.journal.append(frame);
    }
}

impl<D: Device + Drop> Keeper for Diary<D> {
    ghost use Rattle.std.specs.Prelude.{◌≡◌, Some, length};
    ghost use Rattle.blot_tag.specs.Frames.{IsFrame};
    ghost use Rattle.blot_diary.specs.Diary.{Leaves, desk_events, event_in};
    ghost use Rattle.blot_diary.specs.Events.{IsQuiet};

    ghost IsKept = { Unit {0} };

    ghost events = { λ diary. desk_events diary.text };

    ghost found = { λ diary. length (desk_events diary.found) };

    ghost durable = { λ diary. length (desk_events diary.durable) };

    ghost leaves = { λ diary events. Leaves (D.may_leave diary.device) events };

    ghost left = { λ diary events. Leaves (D.left_since diary.device diary.since) events };

    ghost room = { λ diary. diary.room };

    ghost is_broken = { λ diary. diary.is_broken };

    ghost spells = { λ text event. IsFrame text × (event_in text ≡ Some event) };

    ghost spells_none = { λ text. IsQuiet text };

    fn reserve(&mut self, text: &[u8]) -> Result<(), KeepFault> {
        self.make_room(text.len())
    }

    fn keep(&mut self, text: &[u8], _event: &Event) {
        self.append(text);
    }

    fn keep_other(&mut self, text: &[u8]) -> Result<(), KeepFault> {
        self.make_room(text.len())?;
        self.append(text);
        Ok(())
    }

    fn sync(&mut self) -> Result<(), KeepFault> {
        if self.journal.is_broken() {
            return Err(KeepFault::Broken);
        }
        self.last = GhostValue::of(&self.journal);
        match self.journal.sync() {
            Ok(()) => Ok(()),
            Err(_) => Err(KeepFault::Broken),
        }
    }

    fn ever(&self) {
        let _ = &self.journal;
    }
}
