// A machine that is known to be in shape, and the five calls on it: they need no test of it, and leave it in shape. The hub has
// such a type of its own, since methods stand in the crate of their type. That an operation is well formed stays a clause: a
// type of judged bytes would have a width too, and then a clause that it is the machine's.
ghost use Rattle.std.specs.Prelude.{◌≡◌, true, length, ◌<◌};
ghost use Rattle.operation.specs.Limits.{limits};
ghost use Rattle.operation.specs.Reading.{well_formed};
ghost use Rattle.state.specs.Numbers.{most_decided};
ghost use Rattle.machine.specs.Shape.{shaped};
ghost use Rattle.machine.specs.Telling.{issue_told, note_told, ask_told, record_told, copy_told};
ghost use Rattle.machine.specs.Issuing.{issue_known};
ghost use Rattle.machine.specs.Noting.{note_known};
ghost use Rattle.machine.specs.Asking.{ask_known, asked_known};
ghost use Rattle.machine.specs.Recording.{record_known, as_issued};
ghost use Rattle.machine.specs.Copying.{copy_known, copy_good};

use crate::{Heard, Machine, Sale};
use basics::{Refusal, lay};
use effect::cells_of;
use operation::BYTES;

#[derive(Clone, Copy)]
pub struct InShape {
    pub machine: Machine,
    ghost in_shape: { shaped limits machine ≡ true },
}

impl InShape {
    // Issue, of bytes that are known to be an operation.
    #[tactic(auto, unfolding(crate::specs::Issuing::issue_known))]
    pub fn issue(&mut self, op: &[u8]) -> Result<u64, Refusal>
        requires { well_formed limits self.old.machine.width op.now ≡ true }
        ensures { issue_told result self.new.machine ≡ issue_known limits self.old.machine op.now }
    {
        if Machine::QUEUE <= self.machine.waiting {
            return Err(Refusal::QueueFull);
        }
        if Machine::ISSUED <= self.machine.issued {
            return Err(Refusal::AllIssued);
        }
        let mut guess = self.machine.guess;
        if effect::run_known(op, self.machine.width, &mut guess).is_err() {
            return Err(Refusal::FailsOnGuess);
        }
        Ok(self.machine.sell(op, guess))
    }

    // Note `k` becomes the guess of a cell.
    #[tactic(auto, unfolding(crate::specs::Noting::note_known))]
    pub fn note(&mut self, k: usize, cell: usize) -> Result<u32, Refusal>
        ensures { note_told result self.new.machine ≡ note_known self.old.machine k cell }
    {
        if Machine::NOTES <= k || self.machine.width <= cell {
            return Err(Refusal::NoSuchNote);
        }
        Ok(self.machine.write(k, cell))
    }

    // Ask for waiting operation `j`.
    #[tactic(auto, unfolding(crate::specs::Asking::ask_known, crate::specs::Asking::asked_known))]
    pub fn ask(&self, j: usize, buf: &mut [u8]) -> Result<Sale, Refusal>
        ensures value { ask_told result ≡ ask_known limits self.now.machine j (length buf.old) }
        ensures buf_after { buf.new ≡ asked_known limits self.now.machine j buf.old }
    {
        if self.machine.waiting <= j {
            return Err(Refusal::NoSuchWaiting);
        }
        if buf.len() < BYTES {
            return Err(Refusal::BufferTooShort);
        }
        let o = &self.machine.queue[j];
        lay(o.op(), buf);
        Ok(Sale {
            // std has no `From` here: the check proves that nothing is lost.
            number: self.machine.done + j as u64,
            len: usize::from(o.len),
        })
    }

    // Take in a record that is in range, of an operation.
    #[tactic(auto, unfolding(crate::specs::Recording::record_known))]
    pub fn take_record(
        &mut self,
        n: u64,
        who: usize,
        number: u64,
        op: &[u8],
    ) -> Result<Heard, Refusal>
        requires formed { well_formed limits self.old.machine.width op.now ≡ true }
        requires most { n < most_decided }
        ensures { record_told result self.new.machine ≡ record_known limits self.old.machine n who number op.now }
    {
        if n < self.machine.position {
            return Err(Refusal::Old);
        }
        if self.machine.position < n {
            return Err(Refusal::Early);
        }
        let mut agreed = self.machine.agreed;
        let succeeded = effect::run_known(op, self.machine.width, &mut agreed).is_ok();
        if who != self.machine.me {
            return Ok(self.machine.take_other(agreed));
        }
        if !self.as_issued(number, op) {
            return Err(Refusal::NotAsIssued);
        }
        Ok(self.machine.take_own(agreed, succeeded))
    }

    // Whether `op` is the front of the queue, under its number.
    #[tactic(auto, unfolding(crate::specs::Recording::as_issued))]
    fn as_issued(&self, number: u64, op: &[u8]) -> bool
        ensures { result ≡ as_issued self.now.machine number op.now }
    {
        0 < self.machine.waiting && number == self.machine.done && self.machine.queue[0].op() == op
    }

    // Take a fresh copy that can be one.
    #[tactic(auto, unfolding(crate::specs::Copying::copy_known))]
    pub fn take_copy(
        &mut self,
        position: u64,
        cells: &[u32],
        decided: u64,
    ) -> Result<usize, Refusal>
        requires { copy_good limits self.old.machine position cells.now decided ≡ true }
        ensures { copy_told result self.new.machine ≡ copy_known limits self.old.machine position cells.now decided }
    {
        if position <= self.machine.position {
            return Err(Refusal::Old);
        }
        if decided < self.machine.done || self.machine.issued < decided {
            return Err(Refusal::NotAsIssued);
        }
        // std has no `From` here: the check proves that nothing is lost.
        let left = (decided - self.machine.done) as usize;
        self.machine.copy(position, cells_of(cells), left);
        Ok(left)
    }
}
