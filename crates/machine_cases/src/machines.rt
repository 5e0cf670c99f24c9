// Machines to try the calls on, and what is written of them.
use basics::Refusal;
use machine::Machine;
use std::io;

// An ATOMIC of no part, which succeeds on any cells.
pub const EMPTY_ATOMIC: &[u8] = b"\x10\x00";

// No operation: none begins with this byte.
pub const MALFORMED: &[u8] = b"\x05";

// MOVE 3 from cell 0 to cell 1, of the 5 that are there.
pub const MOVE_3: &[u8] = b"\x04\x00\x01\x00\x03";

// MOVE 6, which fails on them.
pub const MOVE_6: &[u8] = b"\x04\x00\x01\x00\x06";

// DRAW 1 from cell 0.
pub const DRAW_1: &[u8] = b"\x03\x00\x00\x01";

// Machine 1 of 3 with the counts 5 and 0, which has sold nothing yet.
pub fn fresh() -> Machine {
    Machine::fresh(3, 1, &[5, 0]).unwrap_or_else(|bad| bad.zero)
}

// The same with `n` sales waiting, each an empty ATOMIC.
pub fn with_waiting(n: u64) -> Machine {
    let mut m = fresh();
    for _ in 0..n {
        let _ = m.issue(EMPTY_ATOMIC);
    }
    m
}

// The same in the middle of a day: two sales of 1 wait, and of three decided ones each ended another way.
pub fn busy() -> Machine {
    let mut m = fresh();
    for _ in 0..2 {
        let _ = m.issue(DRAW_1);
    }
    Machine {
        issued: 5,
        done: 3,
        kept: 1,
        lost: 1,
        unheard: 1,
        position: 7,
        notes: [4, 0, 0, 0],
        ..m
    }
}

// The same with `n` waiting, after which no more may be issued.
pub fn with_all_issued(n: u64) -> Machine {
    let decided = Machine::ISSUED.saturating_sub(n);
    Machine {
        issued: Machine::ISSUED,
        done: decided,
        kept: decided,
        ..with_waiting(n)
    }
}

// The same with a done that the sums do not give.
pub fn out_of_shape(m: Machine) -> Machine {
    Machine {
        done: Machine::ISSUED,
        ..m
    }
}

// Writes how a call left the machine.
fn tell(rt: &impl Print, m: &Machine) -> io::Result<()> {
    rt.print("\n     ")?;
    report::value(rt, b"position", m.position)?;
    report::value(rt, b"waiting", m.waiting)?;
    report::value(rt, b"issued", m.issued)?;
    report::value(rt, b"done", m.done)?;
    report::value(rt, b"kept", m.kept)?;
    report::value(rt, b"lost", m.lost)?;
    report::value(rt, b"unheard", m.unheard)?;
    report::counts(rt, b"agreed", m.agreed.get(..m.width).unwrap_or(&m.agreed))?;
    report::counts(rt, b"guess", m.guess.get(..m.width).unwrap_or(&m.guess))?;
    report::counts(rt, b"notes", &m.notes)?;
    rt.println("")
}

// Ends the line of a case: how a call that is done left the machine, or whether one that refuses left it as it came.
pub fn end<T: Copy>(
    rt: &impl Print,
    answer: Result<T, Refusal>,
    before: &Machine,
    after: &Machine,
) -> io::Result<()> {
    match answer {
        Ok(_) => tell(rt, after),
        Err(_) => report::state(rt, before == after),
    }
}
