// Hubs out of shape, in one way each.
ghost use Rattle.std.specs.Prelude.{◌<◌};

use crate::hubs::{self, EMPTY_ATOMIC};
use hub::{Hub, Record};
use std::io;

pub fn walk(rt: &impl Print) -> io::Result<()> {
    rt.println("Good shape, and each way out of it: the answers of all three calls")?;
    tried(rt, "in shape", hubs::after(4))?;
    tried(rt, "in shape, the ring turned", hubs::after(260))?;
    sizes(rt)?;
    counts(rt)?;
    kept(rt)?;
    numbers(rt)?;
    operations(rt)?;
    past(rt)
}

fn sizes(rt: &impl Print) -> io::Result<()> {
    let empty = Hub::fresh(3, &[0, 0]).unwrap_or_else(|bad| bad.zero);
    tried(
        rt,
        "no machine",
        Hub {
            machines: 0,
            ..empty
        },
    )?;
    tried(
        rt,
        "41 machines",
        Hub {
            machines: 41,
            ..empty
        },
    )?;
    tried(rt, "no cell", Hub { width: 0, ..empty })?;
    tried(rt, "65 cells", Hub { width: 65, ..empty })
}

fn counts(rt: &impl Print) -> io::Result<()> {
    let mut h = hubs::after(4);
    h.cells[0] = 1_000_000;
    tried(rt, "a cell of 1000000", h)?;
    h = hubs::after(4);
    h.cells[2] = 1;
    tried(rt, "a cell past the number of cells", h)?;
    h = hubs::after(4);
    h.cells[63] = 1;
    tried(rt, "the last place of the cells", h)?;
    h = hubs::fresh();
    h.next[0] = 1_000_000_001;
    tried(rt, "a next of 1000000001", h)?;
    h = hubs::fresh();
    h.next[1] = u64::MAX;
    h.next[2] = 1;
    tried(rt, "a sum of all next only in 64 bits", h)?;
    h = hubs::after(4);
    h.next[3] = 1;
    tried(rt, "a next past the number of machines", h)
}

fn kept(rt: &impl Print) -> io::Result<()> {
    let mut h = hubs::after(4);
    h.next[0] = 3;
    tried(rt, "a record too few", h)?;
    h = hubs::after(4);
    h.next[0] = 1;
    tried(rt, "a record too many", h)?;
    h = hubs::after(260);
    h.next[0] = 0;
    tried(rt, "a next below its machine's kept records", h)
}

fn numbers(rt: &impl Print) -> io::Result<()> {
    let h = hubs::after(4);
    tried(
        rt,
        "a number one above its place",
        changed(h, 0, |r| r.number = 1),
    )?;
    tried(
        rt,
        "a number one below its place",
        changed(h, 3, |r| r.number = 0),
    )?;
    tried(rt, "two records of a machine changed about", swapped(h))?;
    tried(
        rt,
        "a record of another machine",
        changed(h, 3, |r| r.machine = 1),
    )?;
    tried(
        rt,
        "a record of a machine not below machines",
        changed(h, 3, |r| r.machine = 3),
    )?;
    tried(
        rt,
        "a record of machine 255",
        changed(h, 3, |r| r.machine = 255),
    )
}

fn operations(rt: &impl Print) -> io::Result<()> {
    let h = hubs::after(4);
    tried(
        rt,
        "a malformed operation",
        changed(h, 3, |r| r.op.bytes[0] = 9),
    )?;
    tried(
        rt,
        "an operation of no byte",
        changed(h, 3, |r| r.op.len = 0),
    )?;
    tried(
        rt,
        "an operation of 49 bytes",
        changed(h, 3, |r| r.op.len = 49),
    )?;
    tried(
        rt,
        "a byte past an operation",
        changed(h, 3, |r| r.op.bytes[47] = 1),
    )
}

fn past(rt: &impl Print) -> io::Result<()> {
    let h = hubs::after(4);
    tried(
        rt,
        "a machine past the kept records",
        changed(h, 4, |r| r.machine = 1),
    )?;
    tried(
        rt,
        "a number past the kept records",
        changed(h, 4, |r| r.number = 1),
    )?;
    tried(
        rt,
        "a length past the kept records",
        changed(h, 255, |r| r.op.len = 1),
    )?;
    tried(
        rt,
        "a byte past the kept records",
        changed(h, 255, |r| r.op.bytes[47] = 1),
    )
}

// The hub with the record in a place of its ring changed.
fn changed<F: FnOnce(&mut Record)>(mut h: Hub, place: usize, change: F) -> Hub
    requires { (place < 256) × F.IsAlwaysCallable change }
{
    change(&mut h.records[place]);
    h
}

// The hub with its first and fourth record, both of machine 0, in each other's place.
fn swapped(mut h: Hub) -> Hub {
    h.records.swap(0, 3);
    h
}

// The line of one state: what each call answers, and whether submit changed it.
fn tried(rt: &impl Print, what: &str, mut h: Hub) -> io::Result<()> {
    report::case(rt, what.as_bytes())?;
    let before = h;
    report::told_in_bytes(rt, b"submit", h.submit(1, 1, EMPTY_ATOMIC))?;
    report::told_in_bytes(rt, b"fetch", before.fetch(3, &mut [0; 48]))?;
    report::told_in_bytes(rt, b"copy", before.copy(1, &mut [0; 64]))?;
    report::state(rt, h == before)
}
