// Issue.
use crate::machines::{self, EMPTY_ATOMIC, MALFORMED, MOVE_3, MOVE_6};
use machine::Machine;
use std::io;

pub fn walk(rt: &impl Print) -> io::Result<()> {
    rt.println(
        "Issue: 1 out of shape, 2 malformed, 3 queue has 16, 4 all issued, 5 fails on the guess",
    )?;
    let m = machines::fresh();
    let bad = machines::out_of_shape(m);
    tried(rt, "done", m, MOVE_3)?;
    tried(rt, "1", bad, MOVE_3)?;
    tried(rt, "1 and 2", bad, MALFORMED)?;
    tried(rt, "2", m, MALFORMED)?;
    tried(rt, "2 by no byte", m, b"")?;
    tried(rt, "2 and 3", machines::with_waiting(16), MALFORMED)?;
    tried(rt, "3", machines::with_waiting(16), EMPTY_ATOMIC)?;
    tried(rt, "3 and 4", machines::with_all_issued(16), EMPTY_ATOMIC)?;
    tried(rt, "4", machines::with_all_issued(0), EMPTY_ATOMIC)?;
    tried(rt, "4 and 5", machines::with_all_issued(0), MOVE_6)?;
    tried(rt, "5", m, MOVE_6)?;
    tried(
        rt,
        "done as the 16th in the queue",
        machines::with_waiting(15),
        EMPTY_ATOMIC,
    )
}

// The line of one issue.
fn tried(rt: &impl Print, what: &str, mut m: Machine, op: &[u8]) -> io::Result<()> {
    report::case(rt, what.as_bytes())?;
    let before = m;
    let issued = m.issue(op);
    report::answer(rt, issued)?;
    report::value(rt, b"number", issued.unwrap_or(0))?;
    machines::end(rt, issued, &before, &m)
}
