// What each call does, once nothing is refused.
ghost use Rattle.std.specs.Prelude.{◌≡◌};
ghost use Rattle.operation.specs.Limits.{limits};
ghost use Rattle.effect.specs.Running.{did};
ghost use Rattle.hub.specs.Starting.{started};
ghost use Rattle.hub.specs.Submitting.{taken, Takes};
ghost use Rattle.hub.specs.Telling.{submit_told};

use crate::{Hub, Record, Submitted, ring};
use effect::Cells;
use operation::Packed;

impl Hub {
    // An operation has been run on the cells: next grows, and it becomes the newest record, in the place of the oldest where
    // the ring is full.
    #[tactic(auto, unfolding(crate::specs::Submitting::taken))]
    pub(crate) fn take(
        &mut self,
        machine: usize,
        number: u64,
        op: &[u8],
        succeeded: bool,
    ) -> Submitted
        requires { Takes limits self.old machine number op.now }
        ensures { submit_told (Ok result) self.new ≡ taken limits self.old machine number op.now (did succeeded self.old.cells) }
    {
        let decided = ring::total(&self.next, self.machines);
        self.records[ring::slot(decided)] = Record {
            // std has no `From` here: the check proves that nothing is lost.
            machine: machine as u8,
            number,
            op: Packed::of(op),
        };
        self.next[machine] = number + 1;
        Submitted {
            succeeded,
            number: decided,
        }
    }

    // The hub that starts with these cells.
    pub(crate) fn start(machines: usize, width: usize, cells: Cells) -> Hub
        ensures { result ≡ started limits machines width cells }
    {
        Hub {
            machines,
            width,
            cells,
            next: [0; Hub::MACHINES],
            records: [Record {
                machine: 0,
                number: 0,
                op: Packed::EMPTY,
            }; Hub::KEPT],
        }
    }
}
