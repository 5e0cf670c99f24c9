// What the states of machines and hub have in common: their sizes, their cells, and the operations that they keep.
#![tactic(auto)]

mod start;

ghost use Rattle.std.specs.Prelude.{◌≡◌};
ghost use Rattle.basics.specs.Counts.{counts};
ghost use Rattle.operation.specs.Limits.{limits};
ghost use Rattle.state.specs.Sizes.{sizes_good};
ghost use Rattle.state.specs.Holding.{holds as holds_one, blank as is_blank};

use basics::{are_counts, are_zeros};
use effect::Cells;
use operation::{BYTES, CELLS, HELD, Packed};
pub use start::RefusedStart;

// The paper's numbers, by the names of specs/Numbers.antt: how many machines there are at most, how many operations each
// issues at most, and how many are decided at most.
pub const MACHINES: usize = 40;

pub const ISSUED: u64 = 1_000_000_000;

pub const DECIDED: u64 = 40_000_000_000;

// Whether there can be so many machines and cells.
#[tactic(auto, unfolding(crate::specs::Sizes::sizes_good))]
pub fn sizes(machines: usize, width: usize) -> bool
    ensures { result ≡ sizes_good limits machines width }
{
    (1..=MACHINES).contains(&machines) && (1..=CELLS).contains(&width)
}

// Whether each cell is in range, and every place past the number of cells 0.
pub fn cells(cells: &Cells, width: usize) -> bool
    ensures { result ≡ counts cells.now width limits.held }
{
    are_counts(cells, width, HELD)
}

// Whether a place holds an operation, with zeros after its bytes.
#[tactic(auto, unfolding(crate::specs::Holding::holds))]
pub fn holds(o: &Packed, width: usize) -> bool
    ensures { result ≡ holds_one limits width o.now }
{
    usize::from(o.len) <= BYTES
        && operation::well_formed(o.op(), width)
        && are_zeros(&o.bytes, usize::from(o.len))
}

// Whether a place holds none: all zeros. Field by field, as the definition: from the derived `==` the proof did not close.
#[tactic(auto, unfolding(crate::specs::Holding::blank))]
pub fn blank(o: &Packed) -> bool
    ensures { result ≡ is_blank o.now }
{
    o.len == 0 && are_zeros(&o.bytes, 0)
}
