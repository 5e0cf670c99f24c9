// The parts of a machine's good shape.
ghost use Rattle.std.specs.Prelude.{◌≡◌, get_or};
ghost use Rattle.std.specs.List.{list_all, enumerate_from};
ghost use Rattle.basics.specs.Every.{every};
ghost use Rattle.operation.specs.Limits.{limits};
ghost use Rattle.operation.specs.Packing.{nothing};
ghost use Rattle.effect.specs.Replaying.{most_queued};
ghost use Rattle.machine.specs.Shape.{sales_good, place_good};

use crate::Machine;
use operation::Packed;

impl Machine {
    // The sums are those of true integers: each is taken apart by differences, so that none can wrap.
    #[tactic(auto, unfolding(crate::specs::Shape::sales_good))]
    pub(crate) fn sales_add_up(&self) -> bool
        ensures { let m = self.now in result ≡ sales_good m.waiting m.issued m.done m.kept m.lost m.unheard }
    {
        self.waiting <= Machine::QUEUE
            && self.issued <= Machine::ISSUED
            && self.done <= self.issued
            // std has no `From` here: the check proves that nothing is lost.
            && self.issued - self.done == self.waiting as u64
            && self.kept <= self.done
            && self.lost <= self.done - self.kept
            && self.unheard == self.done - self.kept - self.lost
    }

    // Each of the first `waiting` places holds an operation, and each later one nothing.
    pub(crate) fn places_hold(&self) -> bool
        ensures { let m = self.now in
            result ≡ every most_queued (λ i. place_good limits m.width m.waiting i (get_or m.queue i nothing)) }
    {
        places(&self.queue, self.waiting, self.width)
    }
}

// The same, said as the chain goes.
fn places(queue: &[Packed], waiting: usize, width: usize) -> bool
    ensures { result ≡ list_all (λ p. place_good limits width waiting p.0 p.1) (enumerate_from 0 queue.now) }
{
    queue
        .iter()
        .enumerate()
        .all(|(i, o)| place(o, i, waiting, width))
}

// A place of the queue. The hub's ring has such a test of records: one for both would be lent two tests, and be no shorter.
#[tactic(auto, unfolding(crate::specs::Shape::place_good))]
fn place(o: &Packed, i: usize, waiting: usize, width: usize) -> bool
    ensures { result ≡ place_good limits width waiting i o.now }
{
    if i < waiting {
        state::holds(o, width)
    } else {
        state::blank(o)
    }
}
