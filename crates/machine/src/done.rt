// What each call does, once nothing is refused.
ghost use Rattle.std.specs.Prelude.{◌≡◌, ◌≤◌, ◌<◌, length, Ok};
ghost use Rattle.operation.specs.Limits.{limits};
ghost use Rattle.effect.specs.Running.{did};
ghost use Rattle.effect.specs.Replaying.{most_queued, Ready};
ghost use Rattle.state.specs.Numbers.{most_issued, most_decided};
ghost use Rattle.machine.specs.Numbers.{note_count};
ghost use Rattle.machine.specs.Telling.{issue_told, note_told, record_told, copy_told};
ghost use Rattle.machine.specs.Issuing.{sold};
ghost use Rattle.machine.specs.Noting.{written};
ghost use Rattle.machine.specs.Starting.{started};
ghost use Rattle.machine.specs.Queueing.{advanced, agreed_on, Own, Leaving};
ghost use Rattle.machine.specs.Recording.{own_taken, other_taken};
ghost use Rattle.machine.specs.Copying.{copied};

use crate::{Heard, Machine};
use effect::{Cells, Queue};
use operation::Packed;

impl Machine {
    // The guess changes, and the operation joins the queue under the next number.
    #[tactic(auto, unfolding(crate::specs::Issuing::sold))]
    pub(crate) fn sell(&mut self, op: &[u8], guess: Cells) -> u64
        requires { (self.old.waiting < most_queued) × ((self.old.issued < most_issued) × (length op.now ≤ limits.bytes)) }
        ensures { issue_told (Ok result) self.new ≡ sold limits self.old op.now guess }
    {
        let number = self.issued;
        self.guess = guess;
        self.queue[self.waiting] = Packed::of(op);
        self.waiting += 1;
        self.issued += 1;
        number
    }

    // A note is written.
    #[tactic(auto, unfolding(crate::specs::Noting::written))]
    pub(crate) fn write(&mut self, k: usize, cell: usize) -> u32
        requires { (k < note_count) × (cell < limits.cells) }
        ensures { note_told (Ok result) self.new ≡ written self.old k cell }
    {
        let count = self.guess[cell];
        self.notes[k] = count;
        count
    }

    // An own record: the front of the queue goes, and kept or lost grows. The guess stays.
    #[tactic(auto, unfolding(crate::specs::Recording::own_taken))]
    pub(crate) fn take_own(&mut self, agreed: Cells, succeeded: bool) -> Heard
        requires { Own self.old }
        ensures { record_told (Ok result) self.new ≡ own_taken limits self.old (did succeeded agreed) }
    {
        self.agreed = agreed;
        self.position += 1;
        self.queue = advance(&self.queue, 1);
        self.waiting -= 1;
        self.done += 1;
        if succeeded {
            self.kept += 1;
            Heard::Kept
        } else {
            self.lost += 1;
            Heard::Lost
        }
    }

    // Another's: the queue is replayed on the new agreed cells.
    #[tactic(auto, unfolding(crate::specs::Recording::other_taken))]
    pub(crate) fn take_other(&mut self, agreed: Cells) -> Heard
        requires { Ready limits self.old.width self.old.waiting self.old.queue × (self.old.position ≤ most_decided) }
        ensures { record_told (Ok result) self.new ≡ other_taken limits self.old agreed }
    {
        self.agree(self.position + 1, agreed);
        Heard::Another
    }

    // New agreed cells: the guess is the queue, replayed on them.
    fn agree(&mut self, position: u64, cells: Cells)
        requires { Ready limits self.old.width self.old.waiting self.old.queue }
        ensures { self.new ≡ agreed_on limits self.old position cells }
    {
        let mut guess = cells;
        effect::replay(&self.queue[..self.waiting], self.width, &mut guess);
        self.agreed = cells;
        self.position = position;
        self.guess = guess;
    }

    // A copy: the `left` oldest leave the queue unheard, and the rest is replayed.
    #[tactic(auto, unfolding(crate::specs::Copying::copied))]
    pub(crate) fn copy(&mut self, position: u64, cells: Cells, left: usize)
        requires { Leaving limits self.old left }
        ensures { copy_told (Ok left) self.new ≡ copied limits self.old position cells left }
    {
        self.queue = advance(&self.queue, left);
        self.waiting -= left;
        self.agree(position, cells);
        // std has no `From` here: the check proves that nothing is lost.
        self.done += left as u64;
        self.unheard += left as u64;
    }

    // The machine that starts with these cells.
    pub(crate) fn start(machines: usize, width: usize, me: usize, cells: Cells) -> Machine
        ensures { result ≡ started limits machines width me cells }
    {
        Machine {
            machines,
            width,
            me,
            agreed: cells,
            position: 0,
            guess: cells,
            waiting: 0,
            queue: [Packed::EMPTY; Machine::QUEUE],
            issued: 0,
            done: 0,
            kept: 0,
            lost: 0,
            unheard: 0,
            notes: [0; Machine::NOTES],
        }
    }
}

// The first `n` leave the queue, the others move up, and the last places are empty.
fn advance(queue: &Queue, n: usize) -> Queue
    requires { n ≤ most_queued }
    ensures { result ≡ advanced limits n queue.now }
{
    let mut next = [Packed::EMPTY; Machine::QUEUE];
    next[..Machine::QUEUE - n].copy_from_slice(&queue[n..]);
    next
}
