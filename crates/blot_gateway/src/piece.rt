//! The room for one read.
ghost use Rattle.std.specs.Prelude.{◌≡◌, IfOk, vec_len};

use std::alloc::{AllocError as NoMemory, Global};

/// The most bytes of one read.
pub const PIECE: usize = 65_536;

/// Room for one read. An error is out of memory.
pub fn empty_piece(alloc: Global) -> Result<Vec<u8>, NoMemory>
    ensures { IfOk result (λ buffer. vec_len buffer ≡ PIECE) }
{
    vec![in alloc; 0; PIECE]
}
