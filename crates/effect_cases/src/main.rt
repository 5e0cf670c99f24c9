// Runs each line of the files cases.txt and edges.txt, `5,0 0400010003 -> succeeds 2,3`, through the proved code. It writes each
// line on which the code gives something else, and how many agree and differ.
#![tactic(auto)]

use std::rt::Files;
use std::{fs, io};
use trial::Lines;

// Memory is fixed: no heap. One byte of the buffer is left over, so that a longer file is not taken for its first part.
const MOST: usize = 65_535;

// What stands before the arrow of a line and what behind it; none where the line has no arrow.
fn halves(line: &[u8]) -> Option<(&[u8], &[u8])> {
    let at = line.iter().position(|b| *b == b'>')?;
    if at < 3 {
        return None;
    }
    if line.len() < at + 2 {
        return None;
    }
    Some((&line[..at - 2], &line[at + 2..]))
}

// Whether the code gives for a line what stands behind its arrow; a line with no arrow does not agree.
fn agrees(line: &[u8]) -> bool {
    halves(line).is_some_and(|(given, wanted)| {
        let mut out = [0u8; trial::ANSWER];
        let n = trial::answer(given, &mut out);
        &out[..n] == wanted
    })
}

// Whether a line agrees; one that does not is written.
fn check_line(rt: &impl Print, line: &[u8]) -> io::Result<bool> {
    if agrees(line) {
        return Ok(true);
    }
    rt.write_all(b"differs: ")?;
    rt.write_all(line)?;
    rt.write_all(b"\n")?;
    Ok(false)
}

// Counts the lines of `text`, and writes how many agree and differ.
fn tally_all(rt: &impl Print, name: &str, text: &[u8]) -> io::Result<()> {
    let mut lines: u64 = 0;
    let mut agree: u64 = 0;
    for line in Lines(text) {
        lines += 1;
        if check_line(rt, line)? {
            agree += 1;
        }
    }
    println!(rt; "{name}: {agree} agree, {} differ", lines - agree)
}

// Counts the lines of a file, or says why it cannot be read.
fn tally_file(rt: &(impl Files + Print + Eprint), name: &str) -> io::Result<()> {
    let mut file = match fs::open(rt, name) {
        Ok(file) => file,
        Err(error) => return rt.eprintln(format_args!("{name}: {error}")),
    };
    let mut input = [0u8; MOST + 1];
    let n = trial::fill(&mut file, &mut input)?;
    if MOST < n {
        return rt.println("more than 65,535 bytes of cases: none was run");
    }
    tally_all(rt, name, &input[..n])
}

fn main(rt: HostRuntime) -> io::Result<()> {
    tally_file(&rt, "cases.txt")?;
    tally_file(&rt, "edges.txt")
}
