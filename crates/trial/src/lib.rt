// A trial in text: cells and an operation, `5,0 0400010003`, and what becomes of them, `succeeds 2,3`.
#![tactic(auto)]

mod cells;
mod hex;
mod input;

ghost use Rattle.std.specs.Prelude.{◌≡◌, ◌≤◌, length, IfSome};

use cells::Given;
use effect::Failure;
pub use input::{Lines, fill, line_end};
use lines::put::Pen;

// Memory is fixed, so buffers are arrays.
//
// Room for the longest answer: `succeeds `, and 64 cells of six digits with commas between them.
pub const ANSWER: usize = 512;

// Room for an operation that is longer than any may be.
const OPERATION: usize = 512;

// Puts what becomes of the trial in `line` at the start of `out`, and answers how long that is; what does not fit is left out.
pub fn answer(line: &[u8], out: &mut [u8]) -> usize
    ensures { result ≤ length out.new }
{
    let room = out.len();
    let mut pen = Pen { buf: out, at: 0 };
    let mut op = [0u8; OPERATION];
    match read(line, &mut op) {
        Some((given, len)) => run(&op[..len], given, &mut pen),
        None => pen.bytes(b"unreadable"),
    }
    pen.at.min(room)
}

// The cells of a trial, and how long its operation is, which is put at the start of `op`.
fn read(line: &[u8], op: &mut [u8]) -> Option<(Given, usize)>
    ensures { IfSome result (λ (given, len). len ≤ length op.new) }
{
    let space = line.iter().position(|b| *b == b' ')?;
    let given = cells::read(&line[..space])?;
    let len = hex::read(&line[space + 1..], op)?;
    Some((given, len))
}

// Runs the operation on the cells and puts what becomes of them: the cells have commas between them.
fn run(op: &[u8], given: Given, pen: &mut Pen)
    requires { pen.old.at ≡ 0 }
{
    let Given { width, mut cells } = given;
    match effect::run(op, width, &mut cells) {
        Ok(()) => pen.bytes(b"succeeds "),
        Err(Failure::Fails) => pen.bytes(b"fails "),
        Err(Failure::Malformed) => return pen.bytes(b"malformed"),
    }
    for (i, value) in cells[..width].iter().enumerate() {
        if i != 0 {
            pen.byte(b',');
        }
        pen.number(u64::from(*value));
    }
}
