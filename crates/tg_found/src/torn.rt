//! The end of a kept file that a crash cut off.
ghost use Rattle.std.specs.Prelude.{IfSome};
ghost use Rattle.tg_keep.specs.Reports.{IsReportOn};
ghost use Rattle.tg_found.specs.Kept.{IsTornAt};

use crate::shown::bytes_left_out;
use std::fmt::{self, Formatter};
use tg_keep::FileReport;

/// The end of a kept file that was cut off. Its bytes after the whole lines are no whole line. A crash leaves such an
/// end, and so does a batch that is written while the file is read.
#[derive(Clone, Copy, Drop)]
pub struct TornEnd {
    /// The number of the line that was cut off, counted from 1.
    pub line: usize,
    /// Where that line begins, counted from 0.
    pub byte: usize,
    /// How many bytes are left out. The zeros after them don't count.
    pub torn: usize,
}

impl TornEnd {
    /// The end of the file that was cut off. `None` if nothing but zeros comes after the whole lines.
    pub fn of(file: &[u8], report: &FileReport) -> Option<TornEnd>
        ensures { IsReportOn file.now report.now → IfSome result (IsTornAt file.now) }
    {
        let byte = report.lines.len();
        let torn = bytes_left_out(file, byte);
        if torn == 0 {
            return None;
        }
        let line = report.count.saturating_add(1);
        Some(TornEnd { line, byte, torn })
    }
}

impl fmt::Display for TornEnd {
    fn fmt<W: fmt::Write>(&self, f: &mut Formatter<W>) -> fmt::Result {
        let TornEnd { line, byte, torn } = *self;
        write!(
            f,
            "line {line}, at byte {byte}, was cut off; bytes left out: {torn}"
        )
    }
}
