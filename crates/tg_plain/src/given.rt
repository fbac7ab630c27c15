//! Numbers of the command line that the text of a history says too.
ghost use Rattle.std.specs.Prelude.{◌≡◌, false, IfSome, OnOk};
ghost use Rattle.tg_plain.specs.Past.{AgreesWith, limit_at, workers_at};

use crate::fault::PlainFault;
use tg_entries::{History, HistoryStart};

/// What the words of the command line say of workers, vertices and the stock. A history says all of it itself.
#[derive(Clone, Copy)]
pub struct GivenOptions {
    /// The number of workers, if it is given.
    pub workers: Option<u64>,
    /// How many vertices may ever be made, if it is given.
    pub max_vertices: Option<u64>,
    /// Whether a stock is given.
    pub has_stock: bool,
}

impl GivenOptions {
    /// A fault if one of the numbers isn't that of the history, or a stock is given.
    pub(crate) fn check(self, history: &History) -> Result<(), PlainFault>
        ensures { OnOk result (AgreesWith self history.now.start) }
    {
        self.check_stock()?;
        agree("workers", self.workers, workers_of(&history.start))?;
        agree("vertices", self.max_vertices, limit_of(&history.start))?;
        Ok(())
    }

    // A fault if a stock is given.
    fn check_stock(self) -> Result<(), PlainFault>
        ensures { OnOk result (self.has_stock ≡ false) }
    {
        if self.has_stock {
            return Err(PlainFault::StockOfHistory);
        }
        Ok(())
    }
}

// How many subjects are active where a history begins.
fn workers_of(start: &HistoryStart) -> u64
    ensures { result ≡ workers_at start.now }
{
    match start {
        HistoryStart::Opened(opening) => opening.workers(),
        HistoryStart::Shown(snapshot) => snapshot.picture().subjects().len() as u64,
    }
}

// How many vertices may ever be made in a history.
fn limit_of(start: &HistoryStart) -> u64
    ensures { result ≡ limit_at start.now }
{
    match start {
        HistoryStart::Opened(opening) => opening.max_vertices(),
        HistoryStart::Shown(snapshot) => snapshot.picture().limit(),
    }
}

// A fault if the number is given and is another than the history's.
fn agree(option: &'static str, given: Option<u64>, own: u64) -> Result<(), PlainFault>
    ensures { OnOk result (IfSome given (λ number. number ≡ own)) }
{
    match given {
        Some(number) if number != own => Err(PlainFault::OtherNumber {
            option,
            number,
            own,
        }),
        _ => Ok(()),
    }
}
