// What the first bytes of an operation say.
ghost use Rattle.std.specs.Prelude.{◌≡◌, ◌≤◌};
ghost use Rattle.operation.specs.Limits.{limits};
ghost use Rattle.operation.specs.FirstBytes.{fields_at, plain_of, Makes, move_of, atomic_of, kind_of};

use crate::{AMOUNT, PARTS, Plain};

// The kind that the first byte decides: all of a plain operation, how many parts an ATOMIC has.
#[derive(Clone, Copy, PartialEq, Eq)]
pub enum Kind {
    One(Plain),
    Atomic(u8),
    Orelse,
}

// The kind of the operation that `s` begins with, where there are `width` cells.
#[tactic(auto, unfolding(crate::specs::FirstBytes::kind_of))]
pub fn read(s: &[u8], width: usize) -> Option<Kind>
    ensures { result ≡ kind_of limits width s.now }
{
    // An arm for each code byte, as the paper has a line for each.
    match *s.first()? {
        0x01 => read_plain(s, width, Plain::Need),
        0x02 => read_plain(s, width, Plain::Put),
        0x03 => read_plain(s, width, Plain::Draw),
        0x04 => read_move(s, width),
        0x10 => read_atomic(s),
        0x11 => Some(Kind::Orelse),
        _ => None,
    }
}

// NEED, PUT and DRAW: what `kind` makes of the cell and the amount.
fn read_plain<F: FnOnce(u8, u16) -> Plain>(s: &[u8], width: usize, kind: F) -> Option<Kind>
    requires { F.IsAlwaysCallable kind }
    ensures { (makes : _) → Makes (F.post kind) makes → result ≡ plain_of makes (fields_at limits width s.now 1) }
{
    let (cell, amount) = read_fields(s, width, 1)?;
    Some(Kind::One(kind(cell, amount)))
}

// MOVE: from one cell to another.
#[tactic(auto, unfolding(crate::specs::FirstBytes::move_of, crate::specs::FirstBytes::fields_at))]
fn read_move(s: &[u8], width: usize) -> Option<Kind>
    ensures { result ≡ move_of limits width s.now }
{
    let (to, amount) = read_fields(s, width, 2)?;
    let from = s[1];
    (usize::from(from) < width && from != to).then_some(Kind::One(Plain::Move(from, to, amount)))
}

// ATOMIC: how many parts.
#[tactic(auto, unfolding(crate::specs::FirstBytes::atomic_of))]
fn read_atomic(s: &[u8]) -> Option<Kind>
    ensures { result ≡ atomic_of limits s.now }
{
    s.get(1).copied().filter(|n| *n <= PARTS).map(Kind::Atomic)
}

// The cell at `at` and the amount after it, both in range.
#[tactic(auto, unfolding(crate::specs::FirstBytes::fields_at))]
fn read_fields(s: &[u8], width: usize, at: usize) -> Option<(u8, u16)>
    requires { at ≤ 2 }
    ensures { result ≡ fields_at limits width s.now at }
{
    let [cell, high, low, ..] = s.get(at..)? else {
        return None;
    };
    let amount = u16::from_be_bytes([*high, *low]);
    (usize::from(*cell) < width && (1..=AMOUNT).contains(&amount)).then_some((*cell, amount))
}
