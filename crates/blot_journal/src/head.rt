//! The head of a journal's file.
ghost use Rattle.std.specs.Prelude.{◌≡◌, ◌↔◌, [], length, replicate, IfOk, IsTrue};
ghost use Rattle.blot_journal.specs.File.{Stands, place, signature, signed_in, size_in};

use std::alloc::{AllocError as NoMemory, Global};

/// How many bytes of a file stand before its text.
pub const HEAD: usize = 4096;

/// Where the first or the second length stands.
pub(crate) fn place(second: bool) -> usize
    ensures { result ≡ place second }
{
    if second { 1024 } else { 512 }
}

// The bytes by which a journal is known, and where they stand.
const SIGNATURE: &[u8; 16] = b"blotter journal\n";

const SIGNED_AT: usize = 1536;

/// Some zeros.
pub(crate) fn zeros(alloc: Global, len: usize) -> Result<Vec<u8>, NoMemory>
    ensures items { IfOk result (λ zeros. zeros.items ≡ replicate len 0) }
    ensures len { IfOk result (λ zeros. length zeros.items ≡ len) }
{
    vec![in alloc; 0; len]
}

/// The file of an empty text: a head alone.
pub(crate) fn empty_file(alloc: Global) -> Result<Vec<u8>, NoMemory>
    ensures { IfOk result (λ file. Stands [] file.items) }
{
    let mut file = zeros(alloc, SIGNED_AT)?;
    let rest = zeros(alloc, HEAD - SIGNED_AT - SIGNATURE.len())?;
    file.extend_from_slice(SIGNATURE)?;
    file.extend_from_slice(&rest)?;
    Ok(file)
}

/// Whether a head has the signature.
pub(crate) fn is_signed(head: &[u8]) -> bool
    requires { length head.now ≡ 4096 }
    ensures { IsTrue result ↔ (signed_in head.now ≡ signature) }
{
    &head[SIGNED_AT..SIGNED_AT + 16] == SIGNATURE.as_slice()
}

/// The first or the second length.
pub(crate) fn size_in(head: &[u8], second: bool) -> u64
    requires { length head.now ≡ 4096 }
    ensures { result ≡ size_in second head.now }
{
    let at = place(second);
    let size = &head[at..at + 8];
    u64::from_le_bytes([
        size[0], size[1], size[2], size[3], size[4], size[5], size[6], size[7],
    ])
}
