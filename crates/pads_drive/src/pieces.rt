ghost use Rattle.std.specs.Prelude.{◌≡◌, ◌-◌, ◌*◌, ◌^◌, ◌<◌, ◌≤◌, [], ◌∷◌, length, min, IfOk};
ghost use Rattle.pads_drive.specs.Pieces.{Gives, GivesPieces, TakesPieces};

use crate::handing::handed;
use pads_value::{Items, Memory};
use std::alloc::Global;
use std::thread::Threads;

/// How many pieces there are for each worker.
const PIECES_EACH: u32 = 8;

/// Into how many pieces a list is best divided for so many workers: eight for each.
pub fn pieces_for(workers: u32) -> u32
    ensures pieces { result ≡ min (workers * 8) (2 ^ 32 - 1) }
{
    workers.saturating_mul(PIECES_EACH)
}

/// What a function gives of a list that is one piece.
fn of_one<T, X: Drop, F: Fn(usize, &[T]) -> X>(
    alloc: Global,
    items: &[T],
    f: &F,
) -> Result<Items<X>, Memory>
    requires some { 0 < length items.now }
    requires takes { TakesPieces F.Fn f.now items.now }
    ensures one { IfOk result (λ results. (x : _) × (results ≡ x ∷ []) × Gives F.Fn f.now 0 items.now x) }
{
    let mut results = Items::new(alloc);
    results.push(f(0, items))?;
    Ok(results)
}

/// What a function gives of each piece of a list, in their order.
///
/// The list is divided into at most `jobs` pieces that follow one another, and the function is called with each
/// piece and the number of items before it. At most `workers` workers take the next piece each time they are free,
/// so that none waits for one that is held up. One worker does it in this thread, in one piece.
pub fn in_pieces<R: Threads + Sync, T: Sync, X: Send + Drop, F: Fn(usize, &[T]) -> X + Sync>(
    rt: &R,
    alloc: Global,
    items: &[T],
    jobs: u32,
    workers: u32,
    f: &F,
) -> Result<Items<X>, Memory>
    requires jobs { 0 < jobs }
    requires takes { TakesPieces F.Fn f.now items.now }
    ensures pieces { IfOk result (λ results. GivesPieces F.Fn f.now jobs items.now results) }
{
    if items.is_empty() {
        return Ok(Items::new(alloc));
    }
    if workers <= 1 || items.len() == 1 {
        return of_one(alloc, items, f);
    }
    let size = items.len().div_ceil(jobs as usize);
    let count = items.len().div_ceil(size);
    handed(
        rt,
        alloc,
        items,
        size,
        count,
        count.min(workers as usize),
        f,
    )
}
