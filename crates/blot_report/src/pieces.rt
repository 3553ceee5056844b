//! Lists in pieces, each of which a worker takes.
ghost use Rattle.std.specs.Prelude.{◌≡◌, IfOk, flat_map};
ghost use Rattle.blot_report.specs.Pieces.{JoinsPieces};

use rayon::prelude::*;
use std::alloc::{AllocError as NoMemory, Global};
use std::thread::Threads;

/// How many items a piece has; the last may have fewer. A list of less than two pieces is one thread's work.
pub(crate) const PIECE: usize = 1024;

/// What work makes of the pieces of a list, in their order. Each piece is one worker's, and up to two workers a processor work in
/// the threads that the system gives. An error is out of memory, a worker's too.
pub(crate) fn in_pieces<R, K, T, F>(
    rt: &R,
    alloc: Global,
    items: &[K],
    work: F,
) -> Result<Vec<T>, NoMemory>
where
    R: Threads + Sync,
    K: Sync,
    T: Send + Drop,
    F: Fn(&[K]) -> Result<Vec<T>, NoMemory> + Copy + Send + Sync,
    requires { F.IsAlwaysCallable work }
    ensures { IfOk result (λ made. JoinsPieces (F.post work) items.now made.items) }
{
    let pieces = items
        .par_chunks(PIECE)
        .map(work)
        .collect::<Result<Vec<Vec<T>>, NoMemory>>(rt, alloc)??;
    joined(alloc, pieces)
}

/// The items of pieces, one piece after the other. An error is out of memory.
pub(crate) fn joined<T: Drop>(alloc: Global, pieces: Vec<Vec<T>>) -> Result<Vec<T>, NoMemory>
    ensures { IfOk result (λ items. items.items ≡ flat_map (λ piece. piece.items) pieces.items) }
{
    let mut items = Vec::new(alloc);
    for piece in pieces {
        let mut piece = piece;
        items.append(&mut piece)?;
    }
    Ok(items)
}
