//! Growth whose lack of memory is noted, and returned at the end. So each step of a search is a line, and a proof looks
//! at no exit after it.
ghost use Rattle.std.specs.Prelude.{◌≡◌, IsOk};

use std::alloc::{AllocError, Global};

/// Pushes an item, unless memory ran out before. Notes whether it ran out now.
#[inline]
pub(crate) fn push<T: Drop>(list: &mut Vec<T>, item: T, grown: &mut Result<(), AllocError>) {
    if grown.is_ok() {
        *grown = try_push(list, item);
    }
}

/// Notes whether memory ran out elsewhere, unless it ran out before.
pub(crate) fn note(grown: &mut Result<(), AllocError>, elsewhere: Result<(), AllocError>) {
    if grown.is_ok() {
        *grown = elsewhere;
    }
}

/// A list of so many times an item. It is empty if memory runs out, which is noted.
pub(crate) fn table<T: Copy + Drop>(
    alloc: Global,
    item: T,
    count: usize,
    grown: &mut Result<(), AllocError>,
) -> Vec<T> {
    match vec![in alloc; item; count] {
        Ok(list) => list,
        Err(error) => {
            *grown = Err(error);
            Vec::new(alloc)
        }
    }
}

/// A list of these numbers. It is empty if memory runs out, which is noted.
pub(crate) fn copied(alloc: Global, numbers: &[u64], grown: &mut Result<(), AllocError>) -> Vec<u64>
    ensures { IsOk grown.new → result.items ≡ numbers.now }
{
    match Vec::from_slice(alloc, numbers) {
        Ok(list) => list,
        Err(error) => {
            *grown = Err(error);
            Vec::new(alloc)
        }
    }
}

// Pushes an item. Fails only when out of memory.
#[inline]
fn try_push<T: Drop>(list: &mut Vec<T>, item: T) -> Result<(), AllocError> {
    list.push(item)?;
    Ok(())
}
