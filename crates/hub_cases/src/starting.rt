// The fresh hub.
use crate::hubs::EMPTY_ATOMIC;
use basics::Refusal;
use hub::Hub;
use std::io;

pub fn walk(rt: &impl Print) -> io::Result<()> {
    rt.println("Fresh hub: 17 if a size or a first count is out of range")?;
    tried(rt, "1 machine, count 999999", 1, &[999_999])?;
    tried(rt, "40 machines, 64 counts", 40, &[7; 64])?;
    tried(rt, "no machine", 0, &[999_999])?;
    tried(rt, "41 machines", 41, &[999_999])?;
    tried(rt, "no count", 1, &[])?;
    tried(rt, "65 counts", 1, &[7; 65])?;
    tried(rt, "count 1000000", 1, &[1_000_000])
}

// The line of one start. What a bad start hands back is itself out of shape.
fn tried(rt: &impl Print, what: &str, machines: usize, first: &[u32]) -> io::Result<()> {
    report::case(rt, what.as_bytes())?;
    let made = Hub::fresh(machines, first);
    report::answer(rt, made.map_err(Refusal::from))?;
    rt.print(", then submit:")?;
    let mut h = made.unwrap_or_else(|bad| bad.zero);
    report::answer(rt, h.submit(0, 0, EMPTY_ATOMIC))?;
    rt.println("")
}
