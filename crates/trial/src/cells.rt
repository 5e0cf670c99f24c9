// The cells of a trial: decimal numbers with commas between them.
ghost use Rattle.std.specs.Prelude.{◌≤◌};

use effect::Cells;
use operation::{CELLS, HELD};

#[derive(Clone, Copy)]
pub struct Given {
    pub width: usize,
    pub cells: Cells,
    ghost fits: { width ≤ 64 },
}

// The cells that `s` lists: none where it lists none, too many, or what is no number up to the limit.
pub fn read(s: &[u8]) -> Option<Given> {
    let mut cells = [0; CELLS];
    let mut width = 0;
    for (i, digits) in s.split(|b| *b == b',').enumerate() {
        *cells.get_mut(i)? = number(digits)?;
        width = i + 1;
    }
    Some(Given { width, cells })
}

// The number up to the limit that `digits` are; none where there is no digit.
fn number(digits: &[u8]) -> Option<u32> {
    if digits.is_empty() {
        return None;
    }
    digits.iter().try_fold(0, |value, b| {
        if b.is_ascii_digit() && value <= HELD / 10 {
            Some(value * 10 + u32::from(b - b'0'))
        } else {
            None
        }
    })
}
