// A hub that is known to be in shape, and the three calls on it: they need no test of it, and leave it in shape. The machine has
// such a type of its own, since methods stand in the crate of their type. That an operation is well formed stays a clause: a
// type of judged bytes would have a width too, and then a clause that it is the hub's.
ghost use Rattle.std.specs.Prelude.{◌≡◌, true, length, ◌≤◌, ◌<◌};
ghost use Rattle.operation.specs.Limits.{limits};
ghost use Rattle.operation.specs.Reading.{well_formed};
ghost use Rattle.state.specs.Numbers.{most_issued, most_decided};
ghost use Rattle.hub.specs.Shape.{shaped};
ghost use Rattle.hub.specs.Ring.{decided};
ghost use Rattle.hub.specs.Telling.{submit_told, fetch_told, copy_told};
ghost use Rattle.hub.specs.Submitting.{submit_known};
ghost use Rattle.hub.specs.Fetching.{fetch_known, fetched_known};
ghost use Rattle.hub.specs.Copying.{copy_known, copied_known};

use crate::{Copied, Fetched, Hub, Submitted, ring};
use basics::{Refusal, lay};
use operation::BYTES;

#[derive(Clone, Copy)]
pub struct InShape {
    pub hub: Hub,
    ghost in_shape: { shaped limits hub ≡ true },
}

impl InShape {
    // How many operations are decided.
    pub fn decided(&self) -> u64
        ensures { (result ≡ decided self.now.hub) × (result ≤ most_decided) }
    {
        ring::total(&self.hub.next, self.hub.machines)
    }

    // Submit, of a machine and a number in range and an operation: taken exactly when the number is the machine's next.
    #[tactic(auto, unfolding(crate::specs::Submitting::submit_known))]
    pub fn submit(&mut self, machine: usize, number: u64, op: &[u8]) -> Result<Submitted, Refusal>
        requires machine { machine < self.old.hub.machines }
        requires number { number < most_issued }
        requires op { well_formed limits self.old.hub.width op.now ≡ true }
        ensures { submit_told result self.new.hub ≡ submit_known limits self.old.hub machine number op.now }
    {
        let next = self.hub.next[machine];
        if number < next {
            return Err(Refusal::Old);
        }
        if next < number {
            return Err(Refusal::Early);
        }
        let succeeded = effect::run_known(op, self.hub.width, &mut self.hub.cells).is_ok();
        Ok(self.hub.take(machine, number, op, succeeded))
    }

    // Fetch record `n`.
    #[tactic(auto, unfolding(crate::specs::Fetching::fetch_known, crate::specs::Fetching::fetched_known))]
    pub fn fetch(&self, n: u64, buf: &mut [u8]) -> Result<Fetched, Refusal>
        ensures value { fetch_told result ≡ fetch_known limits self.now.hub n (length buf.old) }
        ensures buf_after { buf.new ≡ fetched_known limits self.now.hub n buf.old }
    {
        let decided = self.decided();
        if decided <= n {
            return Err(Refusal::NotDecided);
        }
        // std has no `From` here: the check proves that nothing is lost.
        if (Hub::KEPT as u64) < decided - n {
            return Err(Refusal::NotKept);
        }
        if buf.len() < BYTES {
            return Err(Refusal::BufferTooShort);
        }
        let r = &self.hub.records[ring::slot(n)];
        lay(r.op.op(), buf);
        Ok(Fetched {
            machine: usize::from(r.machine),
            number: r.number,
            len: usize::from(r.op.len),
        })
    }

    // Copy for a machine.
    #[tactic(auto, unfolding(crate::specs::Copying::copy_known, crate::specs::Copying::copied_known))]
    pub fn copy(&self, machine: usize, buf: &mut [u32]) -> Result<Copied, Refusal>
        ensures value { copy_told result ≡ copy_known limits self.now.hub machine (length buf.old) }
        ensures buf_after { buf.new ≡ copied_known limits self.now.hub machine buf.old }
    {
        if self.hub.machines <= machine {
            return Err(Refusal::OutOfRange);
        }
        if buf.len() < Hub::CELLS {
            return Err(Refusal::BufferTooShort);
        }
        lay(&self.hub.cells[..self.hub.width], buf);
        Ok(Copied {
            position: self.decided(),
            decided: self.hub.next[machine],
        })
    }
}
