// How many bytes an operation takes, and a list of parts, each in terms of the other.
#![tactic(auto, using(crate::proofs::Sizes::size_laws))]

ghost use Rattle.std.specs.Prelude.{◌≡◌};
ghost use Rattle.operation.specs.Limits.{limits};
ghost use Rattle.operation.specs.Tree.{plain_size};
ghost use Rattle.operation.specs.Reading.{read_op, read_parts};
ghost use Rattle.operation.specs.Sizes.{size_of, sizes_of};

use crate::{Plain, kind};
use basics::after;
use kind::Kind;

impl Plain {
    // How many bytes it takes.
    pub fn size(self) -> usize
        ensures { result ≡ plain_size self }
    {
        match self {
            Plain::Need(_, _) | Plain::Put(_, _) | Plain::Draw(_, _) => 4,
            Plain::Move(_, _, _) => 5,
        }
    }
}

// The bytes of the operation that `s` begins with, at most `depth` deep.
#[cycle(operation_parts)]
pub fn operation(s: &[u8], width: usize, depth: usize) -> Option<usize>
    ensures { result ≡ size_of (read_op limits width depth s.now) }
{
    if depth == 0 {
        return None;
    }
    match kind::read(s, width)? {
        Kind::One(p) => Some(p.size()),
        Kind::Atomic(n) => Some(2 + parts(after(s, 2), n, width, depth - 1)?),
        Kind::Orelse => Some(1 + parts(after(s, 1), 2, width, depth - 1)?),
    }
}

// The bytes of the `n` operations that `s` begins with, each at most `depth` deep.
#[cycle(operation_parts)]
fn parts(s: &[u8], n: u8, width: usize, depth: usize) -> Option<usize>
    ensures { result ≡ sizes_of (read_parts (read_op limits width depth) n s.now) }
{
    if n == 0 {
        return Some(0);
    }
    let first = operation(s, width, depth)?;
    Some(first + parts(after(s, first), n - 1, width, depth)?)
}
