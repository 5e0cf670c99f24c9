// Tests of what arrives at a machine.
ghost use Rattle.std.specs.Prelude.{◌≡◌, ◌&&◌, ltb};
ghost use Rattle.operation.specs.Limits.{limits};
ghost use Rattle.state.specs.Numbers.{most_issued, most_decided};
ghost use Rattle.machine.specs.Copying.{copy_good};

use crate::Machine;
use basics::are_counts;
use operation::HELD;

impl Machine {
    // Whether there can be such a record: its machine, its operation's number and its own.
    pub(crate) fn in_range(&self, n: u64, who: usize, number: u64) -> bool
        ensures { result ≡ ltb who self.now.machines && (ltb number most_issued && ltb n most_decided) }
    {
        who < self.machines && number < Machine::ISSUED && n < Machine::DECIDED
    }

    // Whether a copy can be one.
    #[tactic(auto, unfolding(crate::specs::Copying::copy_good))]
    pub(crate) fn fits(&self, position: u64, cells: &[u32], decided: u64) -> bool
        ensures { result ≡ copy_good limits self.now position cells.now decided }
    {
        position <= Machine::DECIDED
            && cells.len() == self.width
            && are_counts(cells, cells.len(), HELD)
            && decided <= Machine::ISSUED
    }
}
