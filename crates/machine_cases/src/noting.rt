// Note.
use crate::machines;
use machine::Machine;
use std::io;

pub fn walk(rt: &impl Print) -> io::Result<()> {
    rt.println("Note: 1 out of shape, 6 no such note or cell")?;
    let m = machines::busy();
    let bad = machines::out_of_shape(m);
    tried(rt, "done", m, 3, 0)?;
    tried(rt, "1", bad, 3, 0)?;
    tried(rt, "1 and 6", bad, 4, 0)?;
    tried(rt, "6 by the note", m, 4, 0)?;
    tried(rt, "6 by the cell", m, 3, 2)?;
    tried(rt, "6 by both", m, 4, 2)
}

// The line of one note.
fn tried(rt: &impl Print, what: &str, mut m: Machine, k: usize, cell: usize) -> io::Result<()> {
    report::case(rt, what.as_bytes())?;
    let before = m;
    let noted = m.note(k, cell);
    report::answer(rt, noted)?;
    report::value(rt, b"count", noted.unwrap_or(0))?;
    machines::end(rt, noted, &before, &m)
}
