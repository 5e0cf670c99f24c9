// Hubs to try the calls on, and what is written of them.
use hub::{Hub, Record};
use operation::Packed;
use std::io;

// An ATOMIC of no part, which succeeds on any cells.
pub const EMPTY_ATOMIC: &[u8] = b"\x10\x00";

// No operation: none begins with this byte.
pub const MALFORMED: &[u8] = b"\x05";

// MOVE 3 from cell 0 to cell 1, of the 5 that are there.
pub const MOVE_3: &[u8] = b"\x04\x00\x01\x00\x03";

// MOVE 6, which fails on them.
pub const MOVE_6: &[u8] = b"\x04\x00\x01\x00\x06";

// PUT 1 into cell 1.
pub const PUT_1: &[u8] = b"\x02\x01\x00\x01";

// A hub of 3 machines with the counts 5 and 0, which has decided nothing yet.
pub fn fresh() -> Hub {
    Hub::fresh(3, &[5, 0]).unwrap_or_else(|bad| bad.zero)
}

// The same after `n` operations, each of which puts 1 into cell 1; the machines take turns.
pub fn after(n: u64) -> Hub {
    let mut h = fresh();
    for i in 0..n {
        // std has no `From` here: the check proves that nothing is lost.
        let _ = h.submit((i % 3) as usize, i / 3, PUT_1);
    }
    h
}

// A hub that has decided `n` operations, all of machine 0, and keeps the last 256: each an empty ATOMIC.
pub fn late(n: u64) -> Hub {
    let mut h = fresh();
    h.next[0] = n;
    for number in n.saturating_sub(256)..n {
        h.records[(number % 256) as usize] = Record {
            machine: 0,
            number,
            op: Packed::of(EMPTY_ATOMIC),
        };
    }
    h
}

// The same with a next that the kept records do not give.
pub fn out_of_shape(mut h: Hub) -> Hub {
    h.next[2] = 7;
    h
}

// Writes how a call left the hub.
pub fn tell(rt: &impl Print, h: &Hub) -> io::Result<()> {
    rt.print("\n     ")?;
    report::counts(rt, b"cells", h.cells.get(..h.width).unwrap_or(&h.cells))?;
    report::counts(rt, b"next", h.next.get(..h.machines).unwrap_or(&h.next))?;
    rt.println("")
}
