// Take a fresh copy.
use crate::machines;
use machine::Machine;
use std::io;

pub fn walk(rt: &impl Print) -> io::Result<()> {
    rt.println(
        "Fresh copy: 1 out of shape, 13 bad copy, 10 position not above ours, 12 decided below done or above issued",
    )?;
    let cells = [9u32, 1, 999_999];
    let large = [9u32, 1_000_000];
    let m = machines::busy();
    let bad = machines::out_of_shape(m);
    tried(rt, "done, none left the queue", m, 8, &cells[..2], 3)?;
    tried(rt, "done, one left", m, 8, &cells[..2], 4)?;
    tried(rt, "done, both left", m, 40_000_000_000, &cells[..2], 5)?;
    tried(rt, "1", bad, 8, &cells[..2], 3)?;
    tried(rt, "1 and 13", bad, 8, &cells, 3)?;
    tried(rt, "13 by the position", m, 40_000_000_001, &cells[..2], 3)?;
    tried(rt, "13 by a cell too few", m, 8, &cells[..1], 3)?;
    tried(rt, "13 by a cell too many", m, 8, &cells, 3)?;
    tried(rt, "13 by a cell of 1000000", m, 8, &large, 3)?;
    tried(
        rt,
        "13 by what is decided",
        m,
        8,
        &cells[..2],
        1_000_000_001,
    )?;
    tried(rt, "13 and 10", m, 7, &cells, 3)?;
    tried(rt, "10 by the same position", m, 7, &cells[..2], 3)?;
    tried(rt, "10 by a lower one", m, 6, &cells[..2], 3)?;
    tried(rt, "10 and 12", m, 7, &cells[..2], 2)?;
    tried(rt, "12 below done", m, 8, &cells[..2], 2)?;
    tried(rt, "12 above issued", m, 8, &cells[..2], 6)
}

// The line of one copy.
fn tried(
    rt: &impl Print,
    what: &str,
    mut m: Machine,
    position: u64,
    cells: &[u32],
    decided: u64,
) -> io::Result<()> {
    report::case(rt, what.as_bytes())?;
    let before = m;
    let copied = m.take_copy(position, cells, decided);
    report::answer(rt, copied)?;
    report::value(rt, b"left", copied.unwrap_or(0))?;
    machines::end(rt, copied, &before, &m)
}
