// Ask for a waiting operation.
use crate::machines;
use machine::Machine;
use std::io;

pub fn walk(rt: &impl Print) -> io::Result<()> {
    rt.println("Ask: 1 out of shape, 7 j not below the queue's length, 8 lent buffer too short")?;
    let m = machines::busy();
    let bad = machines::out_of_shape(m);
    tried(rt, "done, 0", &m, 0, &mut [7; 50])?;
    tried(rt, "done, 1, in 48 bytes", &m, 1, &mut [7; 48])?;
    tried(rt, "1", &bad, 0, &mut [7; 50])?;
    tried(rt, "1 and 7", &bad, 2, &mut [7; 50])?;
    tried(rt, "7", &m, 2, &mut [7; 50])?;
    tried(rt, "7 and 8", &m, 2, &mut [7; 47])?;
    tried(rt, "8, in 47 bytes", &m, 0, &mut [7; 47])
}

// The line of one ask, with the lent buffer after it.
fn tried(rt: &impl Print, what: &str, m: &Machine, j: usize, buf: &mut [u8]) -> io::Result<()> {
    report::case(rt, what.as_bytes())?;
    let asked = m.ask(j, buf);
    report::answer(rt, asked)?;
    report::value(rt, b"number", asked.map_or(0, |sale| sale.number))?;
    report::value(rt, b"len", asked.map_or(0, |sale| sale.len))?;
    rt.print(", buffer ")?;
    report::hex(rt, buf)?;
    rt.println("")
}
