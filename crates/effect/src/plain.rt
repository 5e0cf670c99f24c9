// The four plain kinds, on cells that are lent: each a rule of the paper with a test of its own.
// A cell stays a number with its bound in the contract: a type round it would be opened in each clause.
ghost use Rattle.std.specs.Prelude.{◌≡◌, ◌<◌, is_ok};
ghost use Rattle.operation.specs.Limits.{limits};
ghost use Rattle.operation.specs.declared.Plain.TheVariants.{Need, Put, Draw, Move};
ghost use Rattle.effect.specs.Running.{step, did, came};
ghost use Rattle.effect.specs.Walking.{Inside};

use crate::{Cells, Fails};
use operation::{HELD, Plain};

// Runs a plain operation whose cells are there.
pub fn apply(p: Plain, cells: &mut Cells) -> Result<(), Fails>
    requires { Inside limits.cells p }
    ensures { did (is_ok result) cells.new ≡ came cells.old (step limits p cells.old) }
{
    match p {
        Plain::Need(cell, amount) => need(cell, amount, cells),
        Plain::Put(cell, amount) => put(cell, amount, cells),
        Plain::Draw(cell, amount) => draw(cell, amount, cells),
        Plain::Move(from, to, amount) => shift(from, to, amount, cells),
    }
}

// NEED: the cell holds the amount at least; no cell changes.
#[tactic(auto, unfolding(crate::specs::Running::step))]
fn need(cell: u8, amount: u16, cells: &mut Cells) -> Result<(), Fails>
    requires { cell < limits.cells }
    ensures { did (is_ok result) cells.new ≡ came cells.old (step limits (Need cell amount) cells.old) }
{
    if cells[usize::from(cell)] < u32::from(amount) {
        return Err(Fails);
    }
    Ok(())
}

// PUT: the amount is added, where the cell then holds no more than the limit.
#[tactic(auto, unfolding(crate::specs::Running::step))]
fn put(cell: u8, amount: u16, cells: &mut Cells) -> Result<(), Fails>
    requires { cell < limits.cells }
    ensures { did (is_ok result) cells.new ≡ came cells.old (step limits (Put cell amount) cells.old) }
{
    let held = &mut cells[usize::from(cell)];
    let added = u32::from(amount);
    if HELD - added < *held {
        return Err(Fails);
    }
    *held += added;
    Ok(())
}

// DRAW: the amount is taken, where the cell holds it.
#[tactic(auto, unfolding(crate::specs::Running::step))]
fn draw(cell: u8, amount: u16, cells: &mut Cells) -> Result<(), Fails>
    requires { cell < limits.cells }
    ensures { did (is_ok result) cells.new ≡ came cells.old (step limits (Draw cell amount) cells.old) }
{
    let held = &mut cells[usize::from(cell)];
    *held = held.checked_sub(u32::from(amount)).ok_or(Fails)?;
    Ok(())
}

// MOVE: both halves are tested on the cells as they are before it.
#[tactic(auto, unfolding(crate::specs::Running::step))]
fn shift(from: u8, to: u8, amount: u16, cells: &mut Cells) -> Result<(), Fails>
    requires { (from < limits.cells) × (to < limits.cells) }
    ensures { did (is_ok result) cells.new ≡ came cells.old (step limits (Move from to amount) cells.old) }
{
    let moved = u32::from(amount);
    let held_from = cells[usize::from(from)];
    let held_to = cells[usize::from(to)];
    if held_from < moved || HELD - moved < held_to {
        return Err(Fails);
    }
    cells[usize::from(from)] = held_from - moved;
    cells[usize::from(to)] = held_to + moved;
    Ok(())
}
