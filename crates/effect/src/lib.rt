// What an operation does to the cells: run once, or replayed with others.
#![tactic(auto)]

mod plain;
mod walk;

ghost use Rattle.std.specs.Prelude.{◌≡◌, true, ◌≤◌, ◌<◌, ℕ, length, get_or, map, is_ok};
ghost use Rattle.operation.specs.Limits.{limits};
ghost use Rattle.operation.specs.Reading.{well_formed};
ghost use Rattle.effect.specs.Running.{filled, did, came, outcome};
ghost use Rattle.effect.specs.Telling.{told, tells};
ghost use Rattle.operation.specs.Packing.{unpacked, nothing};
ghost use Rattle.effect.specs.Replaying.{replay as replayed, Sound};
ghost use Rattle.effect.specs.declared.Failure.TheVariants.{Fails as OperationFails};

use basics::lay;
use operation::{CELLS, DEPTH, Packed};

// What the cells hold; those past the number of cells are not used. Memory is fixed, and good shape says that they are 0.
pub type Cells = [u32; CELLS];

// How many operations a queue has at most.
pub const QUEUE: usize = 16;

// Operations that wait, the oldest first: fixed memory, as the cells.
pub type Queue = [Packed; QUEUE];

// The counts `first`, and zeros after them.
#[tactic(auto, unfolding(crate::specs::Running::filled))]
pub fn cells_of(first: &[u32]) -> Cells
    requires { length first.now ≤ limits.cells }
    ensures { result ≡ filled limits first.now }
{
    let mut cells = [0; CELLS];
    lay(first, &mut cells);
    cells
}

// An operation fails.
#[derive(Clone, Copy, PartialEq, Eq)]
pub struct Fails;

// Why bytes that are to be run do not succeed.
#[derive(Clone, Copy, PartialEq, Eq)]
pub enum Failure {
    Malformed,
    Fails,
}

impl From<Fails> for Failure {
    ghost from_gives = { λ _ f. f ≡ OperationFails };

    fn from(_fails: Fails) -> Failure {
        Failure::Fails
    }
}

// Runs `s` where there are `width` cells. The cells are changed only where it succeeds.
#[tactic(auto, using(crate::proofs::Outcomes::told_laws))]
pub fn run(s: &[u8], width: usize, cells: &mut Cells) -> Result<(), Failure>
    ensures { told result cells.new ≡ tells limits width s.now cells.old }
{
    if !operation::well_formed(s, width) {
        return Err(Failure::Malformed);
    }
    run_known(s, width, cells)?;
    Ok(())
}

// The same of an operation that is known to be well formed. That stays a clause: a type of judged bytes would have a width of its
// own to compare.
#[tactic(auto, using(crate::proofs::Outcomes::cells_there))]
pub fn run_known(s: &[u8], width: usize, cells: &mut Cells) -> Result<(), Fails>
    requires { well_formed limits width s.now ≡ true }
    ensures { did (is_ok result) cells.new ≡ came cells.old (outcome limits width s.now cells.old) }
{
    walk::operation(s, width, DEPTH, cells)
}

// Runs the operations of a queue one after another. One that fails changes no cell, and the next is run all the same.
pub fn replay(queue: &[Packed], width: usize, cells: &mut Cells)
    requires { (i : ℕ) → i < length queue.now → Sound limits width (get_or queue.now i nothing) }
    ensures { cells.new ≡ replayed limits width (map unpacked queue.now) cells.old }
{
    for o in queue {
        let _ = run_known(o.op(), width, cells);
    }
}
