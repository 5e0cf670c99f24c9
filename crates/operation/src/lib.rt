// What bytes mean: which of them are an operation, and how many bytes an operation takes.
//
// The code works on the bytes. The definitions, in specs/, read them into a tree; `well_formed` answers whether they can.
#![tactic(auto)]

pub mod keep;
pub mod kind;
pub mod size;

ghost use Rattle.std.specs.Prelude.{◌≡◌};
ghost use Rattle.operation.specs.Limits.{limits};
ghost use Rattle.operation.specs.Reading.{well_formed};

// The paper's sizes and limits; specs/Limits.antt has them by the same names. Of cells: how many there are at most, and
// what each holds at most.
pub const CELLS: usize = 64;

pub const HELD: u32 = 999_999;

// Of an operation: how many bytes and how deep, an amount, and the parts of an ATOMIC.
pub const BYTES: usize = 48;

pub const DEPTH: usize = 4;

pub const AMOUNT: u16 = 10_000;

pub const PARTS: u8 = 15;

// One of the four plain kinds: a cell, for `Move` the cell from and the cell to, and an amount.
#[derive(Clone, Copy, PartialEq, Eq)]
pub enum Plain {
    Need(u8, u16),
    Put(u8, u16),
    Draw(u8, u16),
    Move(u8, u8, u16),
}

// An operation as it is kept: its length, and its bytes with zeros after them. Memory is fixed, and good shape speaks of the
// places past the length, so this is no `Vec`.
#[derive(Clone, Copy, PartialEq, Eq)]
pub struct Packed {
    pub len: u8,
    pub bytes: [u8; BYTES],
}

// Whether `s` is an operation where there are `width` cells. Bytes and width stay two parameters wherever they go together:
// the width is a state's own, and a clause would take a struct of the two apart.
#[tactic(auto, using(crate::proofs::WellFormed::well_formed_laws))]
pub fn well_formed(s: &[u8], width: usize) -> bool
    ensures { result ≡ well_formed limits width s.now }
{
    width <= CELLS && s.len() <= BYTES && size::operation(s, width, DEPTH) == Some(s.len())
}
