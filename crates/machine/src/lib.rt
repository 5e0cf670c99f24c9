// The selling machine: its state and its five calls. Each call tests the state's shape and its arguments, in the paper's
// order of refusals, and then calls the same of `InShape`, a machine that is known to be in shape.
#![tactic(auto)]

mod arrivals;
mod done;
mod in_shape;
mod shape;

ghost use Rattle.std.specs.Prelude.{◌≡◌, length, is_ok, IfOk, IfErr};
ghost use Rattle.operation.specs.Limits.{limits};
ghost use Rattle.machine.specs.Shape.{shaped};
ghost use Rattle.machine.specs.Telling.{heard_number, fresh_told, issue_told, note_told, ask_told, record_told, copy_told};
ghost use Rattle.machine.specs.Starting.{fresh_of};
ghost use Rattle.machine.specs.Issuing.{issue_of};
ghost use Rattle.machine.specs.Noting.{note_of};
ghost use Rattle.machine.specs.Asking.{ask_of, asked_into};
ghost use Rattle.machine.specs.Recording.{record_of};
ghost use Rattle.machine.specs.Copying.{copy_of};

use basics::{Refusal, are_counts};
use effect::{Cells, Queue, cells_of};
pub use in_shape::InShape;
use operation::{CELLS, HELD};
use state::RefusedStart;

// What a machine holds: how many machines and cells there are and its own number; the agreed counts and how many records
// it has taken in; its guess, and the sales that wait, the oldest first; how many it has issued and had decided, and how
// those ended; its notes.
#[derive(Clone, Copy, PartialEq, Eq)]
pub struct Machine {
    pub machines: usize,
    pub width: usize,
    pub me: usize,
    pub agreed: Cells,
    pub position: u64,
    pub guess: Cells,
    pub waiting: usize,
    pub queue: Queue,
    pub issued: u64,
    pub done: u64,
    pub kept: u64,
    pub lost: u64,
    pub unheard: u64,
    pub notes: [u32; NOTES],
}

const NOTES: usize = 4;

// A sale that waits: its number, and how many bytes it has.
#[derive(Clone, Copy, Default, PartialEq, Eq)]
pub struct Sale {
    pub number: u64,
    pub len: usize,
}

// What a record told: an own sale is lost or kept, or it is another machine's. By the paper's outcomes.
#[derive(Clone, Copy, PartialEq, Eq)]
pub enum Heard {
    Lost = 0,
    Kept = 1,
    Another = 2,
}

impl Heard {
    pub fn number(self) -> u8
        ensures { result ≡ heard_number self }
    {
        self as u8
    }
}

impl Machine {
    pub const MACHINES: usize = state::MACHINES;

    pub const QUEUE: usize = effect::QUEUE;

    pub const NOTES: usize = NOTES;

    pub const ISSUED: u64 = state::ISSUED;

    pub const DECIDED: u64 = state::DECIDED;

    // A fresh machine: the first counts are its cells and its guess, and all else is 0.
    #[tactic(auto, unfolding(crate::specs::Starting::fresh_of))]
    pub fn fresh(
        machines: usize,
        me: usize,
        first: &[u32],
    ) -> Result<Machine, RefusedStart<Machine>>
        ensures { fresh_told result ≡ fresh_of limits machines me first.now }
    {
        if state::sizes(machines, first.len())
            && me < machines
            && are_counts(first, first.len(), HELD)
        {
            Ok(Machine::start(machines, first.len(), me, cells_of(first)))
        } else {
            Err(RefusedStart {
                zero: Machine::start(0, 0, 0, [0; CELLS]),
            })
        }
    }

    // Issue: runs on the guess; if it succeeds, the operation waits under the next number, which is answered.
    #[tactic(auto, unfolding(crate::specs::Issuing::issue_of))]
    pub fn issue(&mut self, op: &[u8]) -> Result<u64, Refusal>
        ensures { issue_told result self.new ≡ issue_of limits self.old op.now }
    {
        let mut known = self.in_shape()?;
        if !operation::well_formed(op, self.width) {
            return Err(Refusal::Malformed);
        }
        let answer = known.issue(op);
        *self = known.machine;
        answer
    }

    // Note: note `k` becomes the guess of a cell, which is answered.
    #[tactic(auto, unfolding(crate::specs::Noting::note_of))]
    pub fn note(&mut self, k: usize, cell: usize) -> Result<u32, Refusal>
        ensures { note_told result self.new ≡ note_of limits self.old k cell }
    {
        let mut known = self.in_shape()?;
        let answer = known.note(k, cell);
        *self = known.machine;
        answer
    }

    // Ask for waiting operation `j`, 0 the oldest: its bytes come at the start of `buf`.
    #[tactic(auto, unfolding(crate::specs::Asking::ask_of, crate::specs::Asking::asked_into))]
    pub fn ask(&self, j: usize, buf: &mut [u8]) -> Result<Sale, Refusal>
        ensures value { ask_told result ≡ ask_of limits self.now j (length buf.old) }
        ensures buf_after { buf.new ≡ asked_into limits self.now j buf.old }
    {
        self.in_shape()?.ask(j, buf)
    }

    // Take in record `n`: operation `number` of machine `who`. These are the paper's own list; a struct of them would be made at
    // a call to be taken apart in it.
    #[tactic(auto, unfolding(crate::specs::Recording::record_of))]
    pub fn take_record(
        &mut self,
        n: u64,
        who: usize,
        number: u64,
        op: &[u8],
    ) -> Result<Heard, Refusal>
        ensures { record_told result self.new ≡ record_of limits self.old n who number op.now }
    {
        let mut known = self.in_shape()?;
        if !self.in_range(n, who, number) {
            return Err(Refusal::OutOfRange);
        }
        if !operation::well_formed(op, self.width) {
            return Err(Refusal::Malformed);
        }
        let answer = known.take_record(n, who, number, op);
        *self = known.machine;
        answer
    }

    // Take a fresh copy: the hub's position and cells, and how many operations of this machine it has decided. How many
    // left the queue is answered.
    #[tactic(auto, unfolding(crate::specs::Copying::copy_of))]
    pub fn take_copy(
        &mut self,
        position: u64,
        cells: &[u32],
        decided: u64,
    ) -> Result<usize, Refusal>
        ensures { copy_told result self.new ≡ copy_of limits self.old position cells.now decided }
    {
        let mut known = self.in_shape()?;
        if !self.fits(position, cells, decided) {
            return Err(Refusal::BadCopy);
        }
        let answer = known.take_copy(position, cells, decided);
        *self = known.machine;
        answer
    }

    // The machine, known to be in shape; refused where it is not.
    pub fn in_shape(&self) -> Result<InShape, Refusal>
        ensures tested { is_ok result ≡ shaped limits self.now }
        ensures machine { IfOk result (λ known. known.machine ≡ self.now) }
        ensures refusal { IfErr result (λ why. why ≡ Refusal.OutOfShape) }
    {
        if self.shaped() {
            Ok(InShape { machine: *self })
        } else {
            Err(Refusal::OutOfShape)
        }
    }

    // Whether the state is in good shape.
    #[tactic(auto, unfolding(crate::specs::Shape::shaped))]
    pub fn shaped(&self) -> bool
        ensures { result ≡ shaped limits self.now }
    {
        state::sizes(self.machines, self.width)
            && self.me < self.machines
            && self.sales_add_up()
            && self.position <= Machine::DECIDED
            && state::cells(&self.agreed, self.width)
            && state::cells(&self.guess, self.width)
            && are_counts(&self.notes, Machine::NOTES, HELD)
            && self.places_hold()
    }
}
