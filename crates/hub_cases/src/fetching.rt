// Fetch a record.
use crate::hubs;
use basics::Refusal;
use hub::{Fetched, Hub};
use std::io;

pub fn walk(rt: &impl Print) -> io::Result<()> {
    rt.println(
        "Fetch: 1 out of shape, 14 not decided yet, 15 no longer kept, 8 lent buffer too short",
    )?;
    rt.println("  (14 and 15 cannot both be there)")?;
    refused(rt)?;
    rt.println("Fetch at both edges of what is kept")?;
    for n in [255, 256, 257, 600] {
        edges(rt, n)?;
    }
    Ok(())
}

fn refused(rt: &impl Print) -> io::Result<()> {
    let h = hubs::after(257);
    let bad = hubs::out_of_shape(h);
    tried(rt, "done", &h, 256, &mut [7; 50])?;
    tried(rt, "done, in 48 bytes", &h, 1, &mut [7; 48])?;
    tried(rt, "1", &bad, 1, &mut [7; 50])?;
    tried(rt, "1 and 14", &bad, 257, &mut [7; 50])?;
    tried(rt, "14", &h, 257, &mut [7; 50])?;
    tried(rt, "14 and 8", &h, 257, &mut [7; 47])?;
    tried(rt, "15", &h, 0, &mut [7; 50])?;
    tried(rt, "15 and 8", &h, 0, &mut [7; 47])?;
    tried(rt, "8, in 47 bytes", &h, 1, &mut [7; 47])
}

// The next record, the newest, the oldest that is kept and the one before it, after `n` decided.
fn edges(rt: &impl Print, n: u64) -> io::Result<()> {
    let h = hubs::after(n);
    print!(rt; "  after {n}, fetch")?;
    fetched(rt, &h, n)?;
    fetched(rt, &h, n.saturating_sub(1))?;
    fetched(rt, &h, n.saturating_sub(256))?;
    if let Some(before) = n.checked_sub(257) {
        fetched(rt, &h, before)?;
    }
    rt.println("")
}

// One fetch within a line.
fn fetched(rt: &impl Print, h: &Hub, n: u64) -> io::Result<()> {
    print!(rt; " {n}:")?;
    whose(rt, h.fetch(n, &mut [0; 48]))?;
    rt.print(";")
}

// The line of one fetch, with the lent buffer after it.
fn tried(rt: &impl Print, what: &str, h: &Hub, n: u64, buf: &mut [u8]) -> io::Result<()> {
    report::case(rt, what.as_bytes())?;
    let got = h.fetch(n, buf);
    whose(rt, got)?;
    report::value(rt, b"len", got.unwrap_or_default().len)?;
    rt.print(", buffer ")?;
    report::hex(rt, buf)?;
    rt.println("")
}

// The answer of a fetch, and whose operation it is.
fn whose(rt: &impl Print, got: Result<Fetched, Refusal>) -> io::Result<()> {
    report::answer(rt, got)?;
    let told = got.unwrap_or_default();
    report::value(rt, b"machine", told.machine)?;
    report::value(rt, b"number", told.number)
}
