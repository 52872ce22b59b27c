// What a line says.
ghost use Rattle.std.specs.Prelude.{◌≡◌};
ghost use Rattle.sheet_text.specs.Lines.{line_of};

use crate::Line;
use crate::scan::{after, element_at, skip_spaces};

// A line without its end; none where it is neither skipped, an element nor a fraction.
#[tactic(auto, unfolding(crate::specs::Lines::line_of, crate::specs::Lines::rest_of, crate::specs::Lines::second_of))]
pub fn read_line(line: &[u8]) -> Option<Line>
    ensures { result ≡ line_of line.now }
{
    let start = skip_spaces(line, 0);
    if line.len() <= start || line[start] == b'#' {
        return Some(Line::Skipped);
    }
    let p = element_at(line, start).ok()?;
    let gap = skip_spaces(line, p.at);
    if line.len() <= gap {
        return Some(Line::Single(p.value));
    }
    let from = skip_spaces(line, after(line, gap, b'/'));
    let q = element_at(line, from).ok()?;
    let end = skip_spaces(line, q.at);
    if p.at < from && line.len() <= end {
        Some(Line::Fraction {
            p: p.value,
            q: q.value,
        })
    } else {
        None
    }
}
