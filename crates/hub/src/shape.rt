// The parts of the hub's good shape.
ghost use Rattle.std.specs.Prelude.{◌≡◌, ◌&&◌, true};
ghost use Rattle.std.specs.List.{list_all, enumerate_from};
ghost use Rattle.basics.specs.Counts.{counts};
ghost use Rattle.operation.specs.Limits.{limits};
ghost use Rattle.state.specs.Numbers.{most_issued};
ghost use Rattle.hub.specs.Ring.{total as total_of};
ghost use Rattle.hub.specs.Shape.{record_good, record_blank, place_good, ring_good, numbers_good};

use crate::ring::{kept, slot, total};
use crate::{Hub, Next, Record, Records};

impl Hub {
    // The kept records stand in their places, numbered one after another for each machine, and the other places are empty.
    pub(crate) fn ring_holds(&self) -> bool
        requires { counts self.now.next self.now.machines most_issued ≡ true }
        ensures { let h = self.now in
            result ≡ (ring_good limits h.machines h.width (total_of h.next) h.records && numbers_good h.next h.records) }
    {
        let decided = total(&self.next, self.machines);
        ring(&self.records, self.machines, self.width, decided)
            && numbers(&self.next, &self.records, decided)
    }
}

// Each place below the number of decided operations holds a record, and each later one none.
fn ring(records: &Records, machines: usize, width: usize, decided: u64) -> bool
    ensures { result ≡ ring_good limits machines width decided records.now }
{
    places(records, machines, width, decided)
}

// The same, said as the chain goes. The hub's own fields and their sum, which a struct would hold for these tests alone.
fn places(records: &[Record], machines: usize, width: usize, decided: u64) -> bool
    ensures { result ≡ list_all (λ p. place_good limits machines width decided p.0 p.1) (enumerate_from 0 records.now) }
{
    records
        .iter()
        .enumerate()
        .all(|(i, r)| place(r, i, machines, width, decided))
}

// A place of the ring. The machine's queue has such a test of operations: one for both would be lent two tests, and be no
// shorter.
#[tactic(auto, unfolding(crate::specs::Shape::place_good))]
fn place(r: &Record, i: usize, machines: usize, width: usize, decided: u64) -> bool
    ensures { result ≡ place_good limits machines width decided i r.now }
{
    // std has no `From` here: the check proves that nothing is lost.
    if (i as u64) < decided {
        holds(r, machines, width)
    } else {
        blank(r)
    }
}

// Whether it holds a record, of one of the machines and of an operation.
#[tactic(auto, unfolding(crate::specs::Shape::record_good))]
fn holds(r: &Record, machines: usize, width: usize) -> bool
    ensures { result ≡ record_good limits machines width r.now }
{
    usize::from(r.machine) < machines && state::holds(&r.op, width)
}

// Whether it holds none: all zeros. Field by field, as the definition: from the derived `==` the proof did not close.
#[tactic(auto, unfolding(crate::specs::Shape::record_blank))]
fn blank(r: &Record) -> bool
    ensures { result ≡ record_blank r.now }
{
    r.machine == 0 && r.number == 0 && state::blank(&r.op)
}

// The kept records from the newest back: each is numbered one below what is left of its machine's numbers.
fn numbers(next: &Next, records: &Records, decided: u64) -> bool
    requires { decided ≡ total_of next.now }
    ensures { result ≡ numbers_good next.now records.now }
{
    let mut left = *next;
    for n in (decided - kept(decided)..decided).rev() {
        let r = &records[slot(n)];
        let m = usize::from(r.machine);
        if Hub::MACHINES <= m {
            return false;
        }
        let x = left[m];
        if x == 0 {
            return false;
        }
        if r.number != x - 1 {
            return false;
        }
        left[m] = r.number;
    }
    true
}
