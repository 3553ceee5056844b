//! What a text is taken up into, frame by frame.
ghost use Rattle.std.specs.Prelude.{All, ◌≡◌, ◌↔◌, ◌+◌, ◌<◌, ℕ, List, [], false, if◌then◌else◌, length, option_map, slice_get, vec_len, Err, IfErr, IfOk, IfSome, IsSome, IsTrue, None, OnOk, Some, option_to_list};
ghost use Rattle.std.specs.List.{list_any};
ghost use Rattle.blot_diary.specs.declared.kept.Beginning.{Beginning};
ghost use Rattle.blot_diary.specs.Beginnings.{begun_by};
ghost use Rattle.blot_diary.specs.Keeping.{IsKept};
ghost use Rattle.blot_recovery.specs.Faults.{BeginsOtherwise, IsHere, IsWanted};
ghost use Rattle.blot_recovery.specs.Parties.{AreSeated, IsFirst, IsKeptPeer, operator_names};
ghost use Rattle.blot_recovery.specs.Refusals.{IsOfNoParty, RefusesKept, RefusesNext, other_of};
ghost use Rattle.blot_types.specs.Keys.{same_text};
ghost use Rattle.blot_recovery.specs.Taking.{AreApart, AsksSame, HasTaken, IsAskedBy, IsOfParty, IsPartyOf, KeepsLast, TakesUpAll, begun_on, names_of, stands_for};

use crate::operators::{KeptOperators, OPERATOR_SEATS};
use crate::parties::KeptPeer;
use crate::walking::Takes;
use crate::{RecoverFault, Recovered};
use blot_desk::{Opening, Seat};
use blot_diary::{Beginning, Content, Kept, read_kept};
use blot_tag::Frame;
use blot_time::Day;
use blot_types::Text64;
use std::alloc::{AllocError as NoMemory, Global};
use std::sync::ledger::{Blank, Ledger};

/// What the frames of a text are taken into.
#[derive(Drop)]
pub(crate) struct Taking<L: Ledger> {
    alloc: Global,
    own: Text64,
    // The day that was asked for, if one was.
    wanted: Option<Day>,
    // The day of the first frame, once it was taken.
    begun: Option<Day>,
    opening: Opening<L>,
    peers: Vec<KeptPeer<L>>,
    operators: KeptOperators<L>,
}

// Who a frame is of.
enum Party {
    // The operator of this name.
    Operator(Text64),
    // The peer at this place.
    Peer(usize),
}

impl<L: Ledger> Taking<L> {
    /// Before the first frame: each peer has a seat, and so have the operators.
    pub(crate) fn new(
        alloc: Global,
        blank: Blank,
        own: Text64,
        wanted: Option<Day>,
        peers: &[Text64],
        operator: Option<Text64>,
    ) -> Result<Taking<L>, RecoverFault>
        requires name { blank.name ≡ L.name }
        requires parts { blank.parts ≡ L.parts }
        requires seats { blank.parts ≡ length peers.now + OPERATOR_SEATS }
        requires apart { AreApart own peers.now }
        ensures own { IfOk result (λ made. made.own ≡ own) }
        ensures wanted { IfOk result (λ made. made.wanted ≡ wanted) }
        ensures listed { IfOk result (λ made. names_of made.peers.items ≡ peers.now) }
        ensures operator { IfOk result (λ made. IsFirst operator (operator_names made.operators.named.items)) }
        ensures named { IfOk result (λ made. operator_names made.operators.named.items ≡ option_to_list operator) }
        ensures first { IfOk result (λ made. TakesUpAll made [] made) }
        ensures memory { IfErr result (λ fault. fault ≡ RecoverFault.NoMemory) }
    {
        let Ok(brokers) = u32::try_from(peers.len()) else {
            return Err(RecoverFault::NoMemory);
        };
        if brokers > u32::MAX - OPERATOR_SEATS {
            return Err(RecoverFault::NoMemory);
        }
        let (opening, seats) = Opening::<L>::new(alloc, blank, brokers + OPERATOR_SEATS)?;
        let mut seats = seats;
        let spare = seats.split_off(peers.len())?;
        let operators = KeptOperators::new(alloc, operator, spare)?;
        let peers = seated(alloc, peers, seats)?;
        Ok(Taking {
            alloc,
            own,
            wanted,
            begun: None,
            opening,
            peers,
            operators,
        })
    }

    /// What was taken up, where a first frame was.
    pub(crate) fn into_recovered(self) -> Result<Recovered<L>, RecoverFault>
        ensures begun { IfOk result (λ recovered. self.begun ≡ Some recovered.day) }
        ensures opening { IfOk result (λ recovered. recovered.opening ≡ self.opening) }
        ensures peers { IfOk result (λ recovered. recovered.peers.items ≡ self.peers.items) }
        ensures operators { IfOk result (λ recovered. recovered.operators ≡ self.operators) }
        ensures none { IfErr result (λ fault. (fault ≡ RecoverFault.Damaged 0) × (self.begun ≡ None)) }
    {
        let Taking {
            begun,
            opening,
            peers,
            operators,
            ..
        } = self;
        match begun {
            Some(day) => Ok(Recovered {
                day,
                opening,
                peers,
                operators,
            }),
            None => Err(RecoverFault::Damaged(0)),
        }
    }

    // Takes the first frame: a journal of the blotter has to begin with it, and of the day that is wanted.
    fn begin(&mut self, kept: &Kept, place: usize) -> Result<(), RecoverFault>
        ensures begun { OnOk result (begun_by kept.now ≡ option_map (begun_on self.old.own) self.new.begun) }
        ensures some { OnOk result (IsSome self.new.begun) }
        ensures wanted { OnOk result (IfSome self.new.begun (λ day. IsWanted self.old.own self.old.wanted (begun_on self.old.own day))) }
        ensures same { OnOk result (self.new ≡ record self.old { begun = self.new.begun }) }
        ensures other { (found : Beginning) → result ≡ Err (RecoverFault.Another found)
            → (begun_by kept.now ≡ Some found) × (IsWanted self.old.own self.old.wanted found → ⊥) }
        ensures damaged { (at : ℕ) → result ≡ Err (RecoverFault.Damaged at) → at ≡ place }
        ensures refused { IfErr result (λ fault. (at : ℕ) → fault ≡ RecoverFault.Damaged at → (found : Beginning) → begun_by kept.now ≡ Some found
            → IsWanted self.old.own self.old.wanted found → kept.now.to ≡ self.old.own → ⊥) }
        ensures listed { IfErr result (λ fault. (peer : List ℕ) → fault ≡ RecoverFault.Unlisted peer → ⊥) }
    {
        let Some(found) = kept.beginning() else {
            return Err(RecoverFault::Damaged(place));
        };
        if !is_wanted(&self.own, self.wanted, &found) {
            return Err(RecoverFault::Another(found));
        }
        if kept.to != self.own {
            return Err(RecoverFault::Damaged(place));
        }
        self.begun = Some(found.day);
        Ok(())
    }

    // Takes a frame behind the first.
    fn take_kept(&mut self, kept: Kept, place: usize) -> Result<(), RecoverFault>
        requires { IsKept kept }
        ensures held { OnOk result ((text more : List ℕ) → KeepsLast text kept more → AreApart self.old.own (names_of self.old.peers.items)
            → HasTaken text self.old → HasTaken more self.new) }
        ensures of { OnOk result (IsOfParty self.old.own (names_of self.old.peers.items) kept) }
        ensures asks { OnOk result (AsksSame self.old self.new) }
        ensures begun { OnOk result (self.new.begun ≡ self.old.begun) }
        ensures seats { OnOk result ((named : List (List ℕ)) (text more : List ℕ) → KeepsLast text kept more
            → AreSeated named text self.old.operators → AreSeated named more self.new.operators) }
        ensures refused { IfErr result (RefusesKept self.old kept) }
        ensures fault { IfErr result (IsHere place) }
    {
        match self.party_of(&kept, place)? {
            Party::Operator(name) => { self.operators.take(&mut self.opening, name, kept, place) }
            Party::Peer(at) => self.peers[at].take(&self.own, &mut self.opening, kept, place),
        }
    }

    // Who a frame behind the first is of.
    fn party_of(&self, kept: &Kept, place: usize) -> Result<Party, RecoverFault>
        ensures party { IfOk result (IsPartyOf self.now kept.now) }
        ensures refused { IfErr result (IsOfNoParty self.now kept.now) }
        ensures fault { IfErr result (IsHere place) }
    {
        match &kept.content {
            Content::Beginning(_) | Content::Unclear => Err(RecoverFault::Damaged(place)),
            Content::Asked { operator, .. } => self.asked_by(operator, kept, place),
            Content::Command(_) | Content::Numbers(_) | Content::Wrapped | Content::Message => {
                self.peer_of(kept, place)
            }
        }
    }

    // That a frame is an event of this operator's.
    fn asked_by(&self, operator: &Text64, kept: &Kept, place: usize) -> Result<Party, RecoverFault>
        ensures party { IfOk result (λ party. party ≡ Party.Operator operator.now) }
        ensures own { OnOk result ((kept.now.from ≡ self.now.own) × (kept.now.to ≡ self.now.own)) }
        ensures refused { IfErr result (λ fault. (fault ≡ RecoverFault.Damaged place) × ((kept.now.from ≡ self.now.own) × (kept.now.to ≡ self.now.own) → ⊥)) }
        ensures fault { IfErr result (IsHere place) }
    {
        if kept.from != self.own || kept.to != self.own {
            return Err(RecoverFault::Damaged(place));
        }
        Ok(Party::Operator(*operator))
    }

    // The peer that a frame is of or to.
    fn peer_of(&self, kept: &Kept, place: usize) -> Result<Party, RecoverFault>
        requires unasked { (name : List ℕ) → IsAskedBy name kept.now.content → ⊥ }
        ensures party { IfOk result (IsPartyOf self.now kept.now) }
        ensures refused { IfErr result (IsOfNoParty self.now kept.now) }
        ensures fault { IfErr result (IsHere place) }
    {
        let other = other_of(&self.own, kept);
        match place_of(&self.peers, &other) {
            None => Err(unlisted(&self.own, &other, place)),
            Some(at) => {
                if stands_for(&self.own, &other, kept) {
                    Ok(Party::Peer(at))
                } else {
                    Err(RecoverFault::Damaged(place))
                }
            }
        }
    }
}

impl<L: Ledger> Takes for Taking<L> {
    ghost After = { λ first text now. TakesUpAll first text now };

    ghost Refuses = { λ now frame fault. RefusesNext now frame fault };

    ghost IsOther = { λ first text found. BeginsOtherwise first.own first.wanted text found };

    fn take(&mut self, frame: &Frame, place: usize) -> Result<(), RecoverFault> {
        // It is known what the frame is before a text, and behind one.
        let _ = frame.text();
        let Some(kept) = read_kept(self.alloc, frame)? else {
            return Err(RecoverFault::Damaged(place));
        };
        match self.begun {
            None => self.begin(&kept, place),
            Some(_) => self.take_kept(kept, place),
        }
    }
}

/// Whether a beginning is the blotter's, and of the day that is wanted, if one is.
pub(crate) fn is_wanted(own: &Text64, wanted: Option<Day>, found: &Beginning) -> bool
    ensures { IsTrue result ↔ IsWanted own.now wanted found.now }
{
    match wanted {
        Some(day) => found.own == *own && found.day == day,
        None => found.own == *own,
    }
}

// The other party of a frame: who the blotter sent it to, and who sent any other.
fn other_of(own: &Text64, kept: &Kept) -> Text64
    ensures { result ≡ other_of own.now kept.now }
{
    if kept.from == *own {
        kept.to
    } else {
        kept.from
    }
}

// The fault of a frame whose other party isn't listed.
fn unlisted(own: &Text64, other: &Text64, place: usize) -> RecoverFault
    ensures here { IsHere place result }
    ensures fault { result ≡ (if same_text other.now own.now then RecoverFault.Damaged place else RecoverFault.Unlisted other.now) }
{
    if *other == *own {
        RecoverFault::Damaged(place)
    } else {
        RecoverFault::Unlisted(*other)
    }
}

// Where the peer of this name stands among some.
fn place_of<L: Ledger>(peers: &[KeptPeer<L>], name: &Text64) -> Option<usize>
    ensures within { IfSome result (λ at. at < length peers.now) }
    ensures name { IfSome result (λ at. slice_get (names_of peers.now) at ≡ Some name.now) }
    ensures none { result ≡ None → list_any (same_text name.now) (names_of peers.now) ≡ false }
{
    for (at, kept) in peers.iter().enumerate() {
        if kept.peer == *name {
            return Some(at);
        }
    }
    None
}

// Whether a frame may stand as one of a peer or to it.
fn stands_for(own: &Text64, peer: &Text64, kept: &Kept) -> bool
    ensures { result ≡ stands_for own.now peer.now kept.now }
{
    let received = kept.from == *peer && kept.to == *own;
    let sent = kept.from == *own && kept.to == *peer;
    match &kept.content {
        Content::Command(_) => received,
        Content::Message => received || sent,
        Content::Numbers(_) | Content::Wrapped => sent,
        Content::Beginning(_) | Content::Asked { .. } | Content::Unclear => false,
    }
}

// Each peer with one of the seats.
fn seated<L: Ledger>(
    alloc: Global,
    peers: &[Text64],
    seats: Vec<Seat<L>>,
) -> Result<Vec<KeptPeer<L>>, NoMemory>
    requires count { vec_len seats ≡ length peers.now }
    requires empty { All (λ receipts. receipts ≡ []) seats.items }
    ensures listed { IfOk result (λ made. names_of made.items ≡ peers.now) }
    ensures kept { IfOk result (λ made. (own : List ℕ) → All (IsKeptPeer own []) made.items) }
{
    let mut seated = Vec::new(alloc);
    let mut seats = seats.into_iter();
    for peer in peers {
        let seat = seats.next().unwrap();
        seated.push(KeptPeer::new(*peer, seat))?;
    }
    Ok(seated)
}
