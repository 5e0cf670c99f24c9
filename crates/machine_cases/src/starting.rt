// The fresh state.
use basics::Refusal;
use machine::Machine;
use std::io;

pub fn walk(rt: &impl Print) -> io::Result<()> {
    rt.println("Fresh state: 17 if a size, a first count or the own number is out of range")?;
    tried(rt, "1 machine, me 0, count 999999", 1, 0, &[999_999])?;
    tried(rt, "40 machines, me 39, 64 counts", 40, 39, &[7; 64])?;
    tried(rt, "no machine", 0, 0, &[999_999])?;
    tried(rt, "41 machines", 41, 0, &[999_999])?;
    tried(rt, "no count", 1, 0, &[])?;
    tried(rt, "65 counts", 1, 0, &[7; 65])?;
    tried(rt, "count 1000000", 1, 0, &[1_000_000])?;
    tried(rt, "me is 1 of 1 machine", 1, 1, &[999_999])
}

// The line of one start. What a bad start hands back is itself out of shape.
fn tried(rt: &impl Print, what: &str, machines: usize, me: usize, first: &[u32]) -> io::Result<()> {
    report::case(rt, what.as_bytes())?;
    let made = Machine::fresh(machines, me, first);
    report::answer(rt, made.map_err(Refusal::from))?;
    rt.print(", then note:")?;
    let mut m = made.unwrap_or_else(|bad| bad.zero);
    report::answer(rt, m.note(0, 0))?;
    rt.println("")
}
