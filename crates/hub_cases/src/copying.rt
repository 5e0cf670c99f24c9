// Copy for a machine.
use crate::hubs;
use hub::Hub;
use std::io;

pub fn walk(rt: &impl Print) -> io::Result<()> {
    rt.println("Copy: 1 out of shape, 9 machine not below machines, 8 lent buffer too short")?;
    let h = hubs::after(4);
    let bad = hubs::out_of_shape(h);
    tried(rt, "done, for machine 0", &h, 0, &mut [7; 66])?;
    tried(
        rt,
        "done, for machine 2, in 64 numbers",
        &h,
        2,
        &mut [7; 64],
    )?;
    tried(rt, "1", &bad, 0, &mut [7; 66])?;
    tried(rt, "1 and 9", &bad, 3, &mut [7; 66])?;
    tried(rt, "9", &h, 3, &mut [7; 66])?;
    tried(rt, "9 and 8", &h, 3, &mut [7; 63])?;
    tried(rt, "8, in 63 numbers", &h, 0, &mut [7; 63])
}

// The line of one copy, with the lent buffer after it.
fn tried(rt: &impl Print, what: &str, h: &Hub, machine: usize, buf: &mut [u32]) -> io::Result<()> {
    report::case(rt, what.as_bytes())?;
    let copied = h.copy(machine, buf);
    report::answer(rt, copied)?;
    let told = copied.unwrap_or_default();
    report::value(rt, b"position", told.position)?;
    report::value(rt, b"decided", told.decided)?;
    report::counts(rt, b"buffer", buf)?;
    rt.println("")
}
