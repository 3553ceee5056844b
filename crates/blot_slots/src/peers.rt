//! Peers that differ.
ghost use Rattle.std.specs.Prelude.{◌≡◌, ◌↔◌, IsTrue};
ghost use Rattle.std.specs.List.{IsDistinct, list_any};
ghost use Rattle.blot_types.specs.Keys.{same_text};

use blot_types::Text64;

/// Whether no two of these peers are the same.
pub fn are_distinct(peers: &[Text64]) -> bool
    ensures { IsTrue result ↔ IsDistinct same_text peers.now }
{
    for (index, peer) in peers.iter().enumerate() {
        if is_among(peer, &peers[index + 1..]) {
            return false;
        }
    }
    true
}

// Whether this peer is one of the others.
fn is_among(peer: &Text64, others: &[Text64]) -> bool
    ensures { result ≡ list_any (λ other. same_text peer.now other) others.now }
{
    others.iter().any(|other| *peer == *other)
}
