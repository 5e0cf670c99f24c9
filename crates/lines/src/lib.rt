// Texts of lines: fields, which are a key, a number and the byte that ends it, and bytes in hexadecimal.
#![tactic(auto)]

pub mod put;

ghost use Rattle.std.specs.Prelude.{◌≡◌, List, ◌∷◌, ℕ};
ghost use Rattle.lines.specs.Steps.{resume, go_on, Kept, StepKept, FieldSays, InRange, Digits};

pub const LF: u8 = 10;

pub const COMMA: u8 = 44;

// What a field may be: its key, the range of its number, of which the least is 0 or 1, and the byte that ends it.
#[derive(Clone, Copy)]
pub struct Field<'a> {
    pub key: &'a [u8],
    pub low: u8,
    pub top: u64,
    pub end: u8,
}

// How far a field is read: `seen` bytes of its key (and one more from the first digit on: the definitions `resume` and `Kept` say it
// by this one number), and its number so far.
#[derive(Clone, Copy)]
pub struct Reading {
    pub seen: usize,
    pub value: u64,
}

// What a byte that is not wrong does to a field: it goes on, or it is ended with this number.
#[derive(Clone, Copy)]
pub enum Step {
    More(Reading),
    Ended(u64),
}

impl Field<'_> {
    // One byte of a field. The number never passes the top, so that one of any length is read without overflow.
    pub fn take_byte(self, so_far: Reading, b: u8) -> Option<Step>
        requires { Kept self so_far }
        ensures goes { (t : List ℕ) → resume self.entry so_far (b ∷ t) ≡ go_on self.entry result t }
        ensures kept { StepKept self.entry result }
    {
        let Reading { seen, value } = so_far;
        if seen < self.key.len() {
            if b == self.key[seen] {
                return Some(Step::More(Reading {
                    seen: seen + 1,
                    value,
                }));
            }
            return None;
        }
        if b == self.end {
            if self.key.len() < seen {
                return Some(Step::Ended(value));
            }
            return None;
        }
        match b {
            b'0'..=b'9' => self.digit(so_far, b),
            _ => None,
        }
    }

    // The same of a digit.
    fn digit(self, so_far: Reading, b: u8) -> Option<Step>
        requires { Digits self so_far b }
        ensures goes { (t : List ℕ) → resume self.entry so_far (b ∷ t) ≡ go_on self.entry result t }
        ensures kept { StepKept self.entry result }
    {
        let Reading { seen, value } = so_far;
        let d = u64::from(b - b'0');
        if seen == self.key.len() {
            if d < u64::from(self.low) || self.top < d {
                return None;
            }
            return Some(Step::More(Reading {
                seen: seen + 1,
                value: d,
            }));
        }
        if value == 0 {
            return None;
        }
        let next = value * 10 + d;
        if self.top < next {
            return None;
        }
        Some(Step::More(Reading { seen, value: next }))
    }
}

// A place in a text, handed on by value.
#[derive(Clone, Copy)]
pub struct Cursor {
    pub at: usize,
}

impl Cursor {
    // Passes one field: its number and the place after it, or none where it is wrong.
    pub fn field(self, s: &[u8], f: Field) -> Option<(u64, Cursor)>
        requires { InRange f }
        ensures { FieldSays s.now f.entry self.at result }
    {
        let rest = s.get(self.at..)?;
        let mut so_far = Reading { seen: 0, value: 0 };
        for (i, b) in rest.iter().enumerate() {
            match f.take_byte(so_far, *b)? {
                Step::More(further) => so_far = further,
                Step::Ended(value) => {
                    return Some((
                        value,
                        Cursor {
                            at: self.at + i + 1,
                        },
                    ));
                }
            }
        }
        None
    }
}
