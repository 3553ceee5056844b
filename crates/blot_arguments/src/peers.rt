//! The peers whose messages are read.
ghost use Rattle.std.specs.Prelude.{◌≡◌, ◌≢◌, IfErr, IfOk, true, false, map};
ghost use Rattle.std.specs.List.{list_any};
ghost use Rattle.blot_types.specs.Keys.{same_text};
ghost use Rattle.blot_types.specs.Text.{is_text};
ghost use Rattle.blot_arguments.specs.Words.{IsPeerList, RulesOut};

use crate::command_line::PEER;
use crate::refusal::Refusal;
use blot_types::Text64;
use std::alloc::Global;

/// The peers that these words name: one or more texts, no two the same.
pub fn read_peers(alloc: Global, named: &[&str]) -> Result<Vec<Text64>, Refusal>
    ensures value { IfOk result (λ peers. peers.items ≡ map (λ word. word.now) named.now) }
    ensures peers { IfOk result (λ peers. IsPeerList peers.items) }
    ensures refused { IfErr result (RulesOut (IsPeerList (map (λ word. word.now) named.now))) }
{
    let mut peers = Vec::new(alloc);
    for word in named {
        let peer = read_comp_id(alloc, word)?;
        if peers.contains(&peer) {
            return Err(Refusal::PeerTwice(String::from_str(alloc, word)?));
        }
        peers.push(peer)?;
    }
    if peers.is_empty() {
        return Err(Refusal::Missing(PEER));
    }
    Ok(peers)
}

/// Whether one's own CompID is among these peers.
pub fn is_among(own: &Text64, peers: &[Text64]) -> bool
    ensures { result ≡ list_any (same_text own.now) peers.now }
{
    peers.contains(own)
}

/// The CompID that a word is.
pub fn read_comp_id(alloc: Global, word: &str) -> Result<Text64, Refusal>
    ensures value { IfOk result (λ text. text ≡ word.now) }
    ensures text { IfOk result (λ text. is_text text ≡ true) }
    ensures refused { IfErr result (λ refusal. refusal ≢ Refusal.NoMemory → is_text word.now ≡ false) }
{
    match Text64::read(word.as_bytes()) {
        Some(text) => Ok(text),
        None => Err(Refusal::NoCompId(String::from_str(alloc, word)?)),
    }
}
