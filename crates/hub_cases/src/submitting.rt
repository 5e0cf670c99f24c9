// Submit.
use crate::hubs::{self, EMPTY_ATOMIC, MALFORMED, MOVE_3, MOVE_6, PUT_1};
use hub::Hub;
use std::io;

pub fn walk(rt: &impl Print) -> io::Result<()> {
    rt.println("Submit: 1 out of shape, 9 out of range, 2 malformed, 10 old, 11 early")?;
    rt.println("  (10 and 11 cannot both be there)")?;
    taken(rt)?;
    refused(rt)
}

fn taken(rt: &impl Print) -> io::Result<()> {
    let h = hubs::after(4);
    tried(rt, "done, succeeds", h, 1, 1, MOVE_3)?;
    tried(rt, "done, fails", h, 1, 1, MOVE_6)?;
    tried(
        rt,
        "done, the last of a machine",
        hubs::late(999_999_999),
        0,
        999_999_999,
        EMPTY_ATOMIC,
    )
}

fn refused(rt: &impl Print) -> io::Result<()> {
    let h = hubs::after(4);
    let bad = hubs::out_of_shape(h);
    tried(rt, "1", bad, 1, 1, EMPTY_ATOMIC)?;
    tried(rt, "1 and 9", bad, 3, 1, EMPTY_ATOMIC)?;
    tried(rt, "9 by the machine", h, 3, 0, EMPTY_ATOMIC)?;
    tried(rt, "9 by the number", h, 1, 1_000_000_000, EMPTY_ATOMIC)?;
    tried(rt, "9 and 2", h, 3, 0, MALFORMED)?;
    tried(rt, "2", h, 1, 1, MALFORMED)?;
    tried(rt, "2 and 10", h, 1, 0, MALFORMED)?;
    tried(rt, "2 and 11", h, 1, 2, MALFORMED)?;
    tried(rt, "10 with the bytes decided", h, 1, 0, PUT_1)?;
    tried(rt, "10 with others", h, 1, 0, EMPTY_ATOMIC)?;
    tried(
        rt,
        "10 at a next of 1000000000",
        hubs::late(1_000_000_000),
        0,
        999_999_999,
        EMPTY_ATOMIC,
    )?;
    tried(rt, "11", h, 1, 2, EMPTY_ATOMIC)
}

// The line of one submission.
fn tried(
    rt: &impl Print,
    what: &str,
    mut h: Hub,
    machine: usize,
    number: u64,
    op: &[u8],
) -> io::Result<()> {
    report::case(rt, what.as_bytes())?;
    let before = h;
    let submitted = h.submit(machine, number, op);
    report::answer(rt, submitted)?;
    let told = submitted.unwrap_or_default();
    report::value(rt, b"outcome", u8::from(told.succeeded))?;
    report::value(rt, b"record", told.number)?;
    match submitted {
        Ok(_) => hubs::tell(rt, &h),
        Err(_) => report::state(rt, h == before),
    }
}
