// Machines out of shape, in one way each.
ghost use Rattle.std.specs.Prelude.{◌<◌};

use crate::machines::{self, EMPTY_ATOMIC};
use machine::Machine;
use operation::Packed;
use std::io;

pub fn walk(rt: &impl Print) -> io::Result<()> {
    rt.println("Good shape, and each way out of it: the answers of all five calls")?;
    tried(rt, "in shape", machines::busy())?;
    sizes(rt)?;
    counts(rt)?;
    places(rt)?;
    sales(rt)?;
    sums(rt)?;
    queue(rt)
}

fn sizes(rt: &impl Print) -> io::Result<()> {
    let empty = Machine::fresh(3, 0, &[0, 0]).unwrap_or_else(|bad| bad.zero);
    tried(
        rt,
        "no machine",
        Machine {
            machines: 0,
            ..empty
        },
    )?;
    tried(
        rt,
        "41 machines",
        Machine {
            machines: 41,
            ..empty
        },
    )?;
    tried(rt, "no cell", Machine { width: 0, ..empty })?;
    tried(rt, "65 cells", Machine { width: 65, ..empty })?;
    tried(rt, "own number 3 of 3 machines", Machine { me: 3, ..empty })
}

fn counts(rt: &impl Print) -> io::Result<()> {
    let mut m = machines::busy();
    m.agreed[1] = 1_000_000;
    tried(rt, "an agreed cell of 1000000", m)?;
    m = machines::busy();
    m.guess[0] = 1_000_000;
    tried(rt, "a guess cell of 1000000", m)?;
    m = machines::busy();
    m.notes[3] = 1_000_000;
    tried(rt, "a note of 1000000", m)
}

fn places(rt: &impl Print) -> io::Result<()> {
    let mut m = machines::busy();
    m.agreed[2] = 1;
    tried(rt, "an agreed cell past the number of cells", m)?;
    m = machines::busy();
    m.guess[63] = 1;
    tried(rt, "a guess cell past the number of cells", m)
}

fn sales(rt: &impl Print) -> io::Result<()> {
    let last = Machine {
        issued: 1_000_000_001,
        done: 1_000_000_001,
        kept: 1_000_000_001,
        ..machines::with_all_issued(0)
    };
    tried(rt, "1000000001 issued", last)?;
    let m = machines::busy();
    tried(
        rt,
        "issued - done one above the queue's length",
        Machine { issued: 6, ..m },
    )?;
    tried(
        rt,
        "issued - done one below the queue's length",
        Machine { issued: 4, ..m },
    )?;
    let wrapped = Machine {
        issued: 1,
        done: u64::MAX,
        ..m
    };
    tried(rt, "issued - done only in 64 bits", wrapped)?;
    let full = Machine {
        waiting: 17,
        issued: 17,
        ..machines::with_waiting(16)
    };
    tried(rt, "a queue's length of 17", full)
}

fn sums(rt: &impl Print) -> io::Result<()> {
    let m = machines::busy();
    tried(
        rt,
        "kept + lost + unheard one above done",
        Machine { kept: 2, ..m },
    )?;
    tried(
        rt,
        "kept + lost + unheard one below done",
        Machine { unheard: 0, ..m },
    )?;
    let wrapped = Machine {
        kept: u64::MAX,
        lost: 3,
        ..m
    };
    tried(rt, "kept + lost + unheard only in 64 bits", wrapped)?;
    tried(
        rt,
        "position 40000000001",
        Machine {
            position: 40_000_000_001,
            ..m
        },
    )
}

fn queue(rt: &impl Print) -> io::Result<()> {
    let m = machines::busy();
    tried(
        rt,
        "a malformed operation in the queue",
        changed(m, 0, |op| op.bytes[0] = 9),
    )?;
    tried(
        rt,
        "an operation of no byte",
        changed(m, 1, |op| op.len = 0),
    )?;
    tried(
        rt,
        "an operation of 49 bytes",
        changed(m, 1, |op| op.len = 49),
    )?;
    tried(
        rt,
        "a byte past an operation",
        changed(m, 1, |op| op.bytes[47] = 1),
    )?;
    tried(
        rt,
        "a length past the queue",
        changed(m, 2, |op| op.len = 1),
    )?;
    tried(
        rt,
        "a byte past the queue",
        changed(m, 15, |op| op.bytes[0] = 1),
    )
}

// The machine with the operation in a place of its queue changed.
fn changed<F: FnOnce(&mut Packed)>(mut m: Machine, place: usize, change: F) -> Machine
    requires { (place < 16) × F.IsAlwaysCallable change }
{
    change(&mut m.queue[place]);
    m
}

// The line of one state: what each call answers, and whether any changed it.
fn tried(rt: &impl Print, what: &str, m: Machine) -> io::Result<()> {
    report::case(rt, what.as_bytes())?;
    let mut issued = m;
    report::told_in_bytes(rt, b"issue", issued.issue(EMPTY_ATOMIC))?;
    let mut noted = m;
    report::told_in_bytes(rt, b"note", noted.note(0, 0))?;
    report::told_in_bytes(rt, b"ask", m.ask(0, &mut [0; 48]))?;
    let mut taken = m;
    report::told_in_bytes(rt, b"record", taken.take_record(7, 0, 0, EMPTY_ATOMIC))?;
    let mut copied = m;
    report::told_in_bytes(rt, b"copy", copied.take_copy(9, &[1, 2], 3))?;
    report::state(
        rt,
        [issued, noted, taken, copied]
            .iter()
            .all(|after| *after == m),
    )
}
