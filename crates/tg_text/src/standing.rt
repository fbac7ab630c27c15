//! Which line some bytes are, and whether it may be at its place. Edges between the opening's workers come before all
//! other lines.
ghost use Rattle.std.specs.Prelude.{◌≡◌, ◌↔◌, IsTrue, IfSome, IfNone};
ghost use Rattle.tg_text.specs.Grammar.{LineFits, line_text};
ghost use Rattle.tg_text.specs.Reading.{MayStand, IsBadText, opening_after};

use crate::line::Line;
use crate::read::read_line;

/// Returns the line of these bytes, if it is allowed here. Names of workers in an edge line have to be below the number
/// of workers, and edge lines are allowed only at the beginning.
#[inline(always)]
pub fn standing_line(text: &[u8], workers: u64, opening: bool) -> Option<Line>
    ensures found { IfSome result (λ line. LineFits line × MayStand workers opening line × (text.now ≡ line_text line)) }
    ensures bad { IfNone result (IsBadText workers opening text.now) }
{
    let line = read_line(text)?;
    if may_stand(&line, workers, opening) {
        Some(line)
    } else {
        None
    }
}

#[inline(always)]
fn may_stand(line: &Line, workers: u64, opening: bool) -> bool
    ensures { IsTrue result ↔ MayStand workers opening line.now }
{
    match line {
        Line::Edge(edge) => opening && edge.joins_workers(workers),
        Line::Create { .. } | Line::Spawn { .. } | Line::Plain { .. } | Line::Full | Line::Minor =>
            true,
    }
}

/// Returns whether edge lines are still allowed after a line.
#[inline(always)]
pub fn is_opening_after(opening: bool, line: &Line) -> bool
    ensures { result ≡ opening_after opening line.now }
{
    match line {
        Line::Edge(_) => opening,
        Line::Create { .. } | Line::Spawn { .. } | Line::Plain { .. } | Line::Full | Line::Minor =>
            false,
    }
}
