// Take a record.
use crate::machines::{self, DRAW_1, EMPTY_ATOMIC, MALFORMED};
use machine::{Heard, Machine};
use std::io;

pub fn walk(rt: &impl Print) -> io::Result<()> {
    rt.println(
        "Record: 1 out of shape, 9 out of range, 2 malformed, 10 old, 11 early, 12 not as issued here",
    )?;
    rt.println("  (10 and 11 cannot both be there)")?;
    taken(rt)?;
    refused(rt)?;
    not_as_issued(rt)
}

// Own records that stand and fall, and another's.
fn taken(rt: &impl Print) -> io::Result<()> {
    let m = machines::busy();
    tried(rt, "done, own, kept", m, 7, 1, 3, DRAW_1)?;
    let mut empty = m;
    empty.agreed[0] = 0;
    tried(rt, "done, own, lost", empty, 7, 1, 3, DRAW_1)?;
    tried(rt, "done, another's", m, 7, 0, 99, b"\x03\x00\x00\x04")?;
    tried(
        rt,
        "done, another's, which fails",
        m,
        7,
        2,
        0,
        b"\x03\x00\x00\x06",
    )?;
    let last = Machine {
        position: 39_999_999_999,
        ..m
    };
    tried(
        rt,
        "done, the last record",
        last,
        39_999_999_999,
        0,
        999_999_999,
        EMPTY_ATOMIC,
    )
}

fn refused(rt: &impl Print) -> io::Result<()> {
    let m = machines::busy();
    let bad = machines::out_of_shape(m);
    tried(rt, "1", bad, 7, 0, 0, EMPTY_ATOMIC)?;
    tried(rt, "1 and 9", bad, 7, 3, 0, EMPTY_ATOMIC)?;
    tried(rt, "9 by the machine", m, 7, 3, 0, EMPTY_ATOMIC)?;
    tried(
        rt,
        "9 by the operation number",
        m,
        7,
        0,
        1_000_000_000,
        EMPTY_ATOMIC,
    )?;
    tried(
        rt,
        "9 by the record number",
        m,
        40_000_000_000,
        0,
        0,
        EMPTY_ATOMIC,
    )?;
    tried(rt, "9 and 2", m, 7, 3, 0, MALFORMED)?;
    tried(rt, "2", m, 7, 0, 0, MALFORMED)?;
    tried(rt, "2 and 10", m, 6, 0, 0, MALFORMED)?;
    tried(rt, "2 and 11", m, 8, 0, 0, MALFORMED)?;
    tried(rt, "10", m, 6, 0, 0, EMPTY_ATOMIC)?;
    tried(rt, "10 and 12", m, 6, 1, 2, EMPTY_ATOMIC)?;
    tried(rt, "11", m, 8, 0, 0, EMPTY_ATOMIC)?;
    tried(rt, "11 and 12", m, 8, 1, 4, EMPTY_ATOMIC)
}

fn not_as_issued(rt: &impl Print) -> io::Result<()> {
    let m = machines::busy();
    tried(
        rt,
        "12 by an empty queue",
        machines::fresh(),
        0,
        1,
        0,
        EMPTY_ATOMIC,
    )?;
    tried(rt, "12 by the number, one less", m, 7, 1, 2, DRAW_1)?;
    tried(rt, "12 by the number, one more", m, 7, 1, 4, DRAW_1)?;
    tried(rt, "12 by the bytes", m, 7, 1, 3, b"\x03\x00\x00\x02")?;
    tried(rt, "12 by the length", m, 7, 1, 3, EMPTY_ATOMIC)
}

// The line of one record.
fn tried(
    rt: &impl Print,
    what: &str,
    mut m: Machine,
    n: u64,
    who: usize,
    number: u64,
    op: &[u8],
) -> io::Result<()> {
    report::case(rt, what.as_bytes())?;
    let before = m;
    let taken = m.take_record(n, who, number, op);
    report::answer(rt, taken)?;
    report::value(rt, b"outcome", taken.map_or(0, Heard::number))?;
    machines::end(rt, taken, &before, &m)
}
