// Runs operations over cells. Each line of standard input is a trial, `5,0 0400010003`: the cells, and an operation in
// hexadecimal. Each is written out with what becomes of it, `5,0 0400010003 -> succeeds 2,3`.
#![tactic(auto)]

use std::io;
use trial::Lines;

// Memory is fixed: no heap. One byte of the buffer is left over, so that longer input is not taken for its first part.
const MOST: usize = 65_535;

// Writes the trial and what becomes of it.
fn show(rt: &impl Print, line: &[u8]) -> io::Result<()> {
    let mut out = [0u8; trial::ANSWER];
    let n = trial::answer(line, &mut out);
    rt.write_all(line)?;
    rt.write_all(b" -> ")?;
    rt.write_all(&out[..n])?;
    rt.write_all(b"\n")
}

// Shows each line of the input, the last with or without its end.
fn show_all(rt: &impl Print, text: &[u8]) -> io::Result<()> {
    for line in Lines(text) {
        show(rt, line)?;
    }
    Ok(())
}

fn main(rt: HostRuntime) -> io::Result<()> {
    let mut input = [0u8; MOST + 1];
    let n = trial::fill(&mut rt.reader(), &mut input)?;
    if MOST < n {
        return rt.eprintln("operate: more than 65,535 bytes of trials: none was run");
    }
    show_all(&rt, &input[..n])
}
