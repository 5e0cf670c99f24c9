// The hub: its state and its three calls. Each call tests the state's shape and its arguments, in the paper's order of
// refusals, and then calls the same of `InShape`, a hub that is known to be in shape.
#![tactic(auto)]

mod done;
mod in_shape;
pub mod ring;
mod shape;

ghost use Rattle.std.specs.Prelude.{◌≡◌, length, is_ok, IfOk, IfErr};
ghost use Rattle.operation.specs.Limits.{limits};
ghost use Rattle.hub.specs.Shape.{shaped};
ghost use Rattle.hub.specs.Telling.{fresh_told, submit_told, fetch_told, copy_told};
ghost use Rattle.hub.specs.Starting.{fresh_of};
ghost use Rattle.hub.specs.Submitting.{submit_of};
ghost use Rattle.hub.specs.Fetching.{fetch_of, fetched_into};
ghost use Rattle.hub.specs.Copying.{copy_of, copied_into};

use basics::{Refusal, are_counts};
use effect::{Cells, cells_of};
pub use in_shape::InShape;
use operation::{CELLS, HELD, Packed};
use state::RefusedStart;

// A decided operation: whose it was, its number there, and the operation.
#[derive(Clone, Copy, PartialEq, Eq)]
pub struct Record {
    pub machine: u8,
    pub number: u64,
    pub op: Packed,
}

// What the hub holds: how many machines and cells there are, the counts, the next operation number of each machine, and the
// last records, of which record n stands in place n mod 256.
#[derive(Clone, Copy, PartialEq, Eq)]
pub struct Hub {
    pub machines: usize,
    pub width: usize,
    pub cells: Cells,
    pub next: Next,
    pub records: Records,
}

// Fixed memory: places past the machines, or past what is decided, are 0 in a hub in shape.
pub type Next = [u64; state::MACHINES];

pub type Records = [Record; KEPT];

const KEPT: usize = 256;

// What submit tells of an operation that it takes: whether it succeeded, and the number of its record.
#[derive(Clone, Copy, Default, PartialEq, Eq)]
pub struct Submitted {
    pub succeeded: bool,
    pub number: u64,
}

// Whose operation it was, its number there and its length.
#[derive(Clone, Copy, Default, PartialEq, Eq)]
pub struct Fetched {
    pub machine: usize,
    pub number: u64,
    pub len: usize,
}

// The hub's position, and how many operations of the machine it has decided.
#[derive(Clone, Copy, Default, PartialEq, Eq)]
pub struct Copied {
    pub position: u64,
    pub decided: u64,
}

impl Hub {
    pub const MACHINES: usize = state::MACHINES;

    pub const CELLS: usize = operation::CELLS;

    pub const KEPT: usize = KEPT;

    pub const ISSUED: u64 = state::ISSUED;

    // A fresh hub: the first counts are its cells, and all else is 0.
    #[tactic(auto, unfolding(crate::specs::Starting::fresh_of, state::specs::Sizes::sizes_good))]
    pub fn fresh(machines: usize, first: &[u32]) -> Result<Hub, RefusedStart<Hub>>
        ensures { fresh_told result ≡ fresh_of limits machines first.now }
    {
        if state::sizes(machines, first.len()) && are_counts(first, first.len(), HELD) {
            Ok(Hub::start(machines, first.len(), cells_of(first)))
        } else {
            Err(RefusedStart {
                zero: Hub::start(0, 0, [0; CELLS]),
            })
        }
    }

    // Submit operation `number` of a machine: taken exactly when that is the machine's next.
    #[tactic(auto, unfolding(crate::specs::Submitting::submit_of))]
    pub fn submit(&mut self, machine: usize, number: u64, op: &[u8]) -> Result<Submitted, Refusal>
        ensures { submit_told result self.new ≡ submit_of limits self.old machine number op.now }
    {
        let mut known = self.in_shape()?;
        if self.machines <= machine || Hub::ISSUED <= number {
            return Err(Refusal::OutOfRange);
        }
        if !operation::well_formed(op, self.width) {
            return Err(Refusal::Malformed);
        }
        let answer = known.submit(machine, number, op);
        *self = known.hub;
        answer
    }

    // Fetch record `n`: whose it is, its number and length, and its bytes at the start of `buf`.
    #[tactic(auto, unfolding(crate::specs::Fetching::fetch_of, crate::specs::Fetching::fetched_into))]
    pub fn fetch(&self, n: u64, buf: &mut [u8]) -> Result<Fetched, Refusal>
        ensures value { fetch_told result ≡ fetch_of limits self.now n (length buf.old) }
        ensures buf_after { buf.new ≡ fetched_into limits self.now n buf.old }
    {
        self.in_shape()?.fetch(n, buf)
    }

    // Copy for a machine: the hub's position and how many of the machine's operations it has decided, and as many cells as
    // there are at the start of `buf`.
    #[tactic(auto, unfolding(crate::specs::Copying::copy_of, crate::specs::Copying::copied_into))]
    pub fn copy(&self, machine: usize, buf: &mut [u32]) -> Result<Copied, Refusal>
        ensures value { copy_told result ≡ copy_of limits self.now machine (length buf.old) }
        ensures buf_after { buf.new ≡ copied_into limits self.now machine buf.old }
    {
        self.in_shape()?.copy(machine, buf)
    }

    // The hub, known to be in shape; refused where it is not.
    pub fn in_shape(&self) -> Result<InShape, Refusal>
        ensures tested { is_ok result ≡ shaped limits self.now }
        ensures hub { IfOk result (λ known. known.hub ≡ self.now) }
        ensures refusal { IfErr result (λ why. why ≡ Refusal.OutOfShape) }
    {
        if self.shaped() {
            Ok(InShape { hub: *self })
        } else {
            Err(Refusal::OutOfShape)
        }
    }

    // Whether the state is in good shape.
    #[tactic(auto, unfolding(crate::specs::Shape::shaped))]
    pub fn shaped(&self) -> bool
        ensures { result ≡ shaped limits self.now }
    {
        state::sizes(self.machines, self.width)
            && state::cells(&self.cells, self.width)
            && are_counts(&self.next, self.machines, Hub::ISSUED)
            && self.ring_holds()
    }
}
