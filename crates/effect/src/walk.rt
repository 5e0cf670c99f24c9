// Running the bytes of an operation: an operation runs its parts, and the parts are run by the operation, while the
// depth and the parts that are left fall. Each asks that the width is one of cells: a type round that number would be opened in
// each clause.
ghost use Rattle.std.specs.Prelude.{◌≡◌, ◌≤◌, is_ok};
ghost use Rattle.operation.specs.Limits.{limits};
ghost use Rattle.operation.specs.Reading.{read_op};
ghost use Rattle.effect.specs.Running.{did};
ghost use Rattle.effect.specs.Walking.{RunsOp, RunsAtomic, RunsParts, RunsEither};

use crate::{Cells, Fails, plain};
use basics::after;
use operation::kind::Kind;
use operation::{kind, size};

// Runs the operation that `s` begins with, at most `depth` deep.
#[cycle(atomic_either_operation_parts)]
pub fn operation(s: &[u8], width: usize, depth: usize, cells: &mut Cells) -> Result<(), Fails>
    requires { width ≤ limits.cells }
    ensures { RunsOp limits (read_op limits width depth) s.now cells.old (did (is_ok result) cells.new) }
{
    if depth == 0 {
        return Err(Fails);
    }
    match kind::read(s, width).ok_or(Fails)? {
        Kind::One(p) => plain::apply(p, cells),
        Kind::Atomic(n) => atomic(after(s, 2), n, width, depth - 1, cells),
        Kind::Orelse => either(after(s, 1), width, depth - 1, cells),
    }
}

// Runs the `n` operations that `s` begins with: all of them, or none.
#[cycle(atomic_either_operation_parts)]
fn atomic(s: &[u8], n: u8, width: usize, depth: usize, cells: &mut Cells) -> Result<(), Fails>
    requires { width ≤ limits.cells }
    ensures { RunsAtomic limits (read_op limits width depth) n s.now cells.old (did (is_ok result) cells.new) }
{
    let before = *cells;
    let ran = parts(s, n, width, depth, cells);
    if ran.is_err() {
        *cells = before;
    }
    ran
}

// Runs the `n` operations that `s` begins with one after another, up to the first that fails: the cells are then as
// those before it left them.
#[cycle(atomic_either_operation_parts)]
fn parts(s: &[u8], n: u8, width: usize, depth: usize, cells: &mut Cells) -> Result<(), Fails>
    requires { width ≤ limits.cells }
    ensures { RunsParts limits (read_op limits width depth) n s.now cells.old (did (is_ok result) cells.new) }
{
    if n == 0 {
        return Ok(());
    }
    operation(s, width, depth, cells)?;
    let first = size::operation(s, width, depth).ok_or(Fails)?;
    parts(after(s, first), n - 1, width, depth, cells)
}

// Runs the first of the two operations that `s` begins with, and where it fails the second, on the same cells.
#[cycle(atomic_either_operation_parts)]
fn either(s: &[u8], width: usize, depth: usize, cells: &mut Cells) -> Result<(), Fails>
    requires { width ≤ limits.cells }
    ensures { RunsEither limits (read_op limits width depth) s.now cells.old (did (is_ok result) cells.new) }
{
    if operation(s, width, depth, cells).is_ok() {
        return Ok(());
    }
    let first = size::operation(s, width, depth).ok_or(Fails)?;
    operation(after(s, first), width, depth, cells)
}
