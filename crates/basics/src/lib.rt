// What several crates stand on: the answers by name, and small functions on slices and bytes.
#![tactic(auto)]

ghost use Rattle.std.specs.Prelude.{◌≡◌, ◌≤◌, ◌++◌, ℕ, drop, length, map};
ghost use Rattle.std.specs.List.{list_all, enumerate_from};
ghost use Rattle.basics.specs.Refusals.{number_of, answer_number};
ghost use Rattle.basics.specs.Counts.{is_count, counts, zeros_from};

// Why a call refuses, by the paper's number.
#[derive(Clone, Copy, PartialEq, Eq)]
pub enum Refusal {
    OutOfShape = 1,
    Malformed = 2,
    QueueFull = 3,
    AllIssued = 4,
    FailsOnGuess = 5,
    NoSuchNote = 6,
    NoSuchWaiting = 7,
    BufferTooShort = 8,
    OutOfRange = 9,
    Old = 10,
    Early = 11,
    NotAsIssued = 12,
    BadCopy = 13,
    NotDecided = 14,
    NotKept = 15,
    BadText = 16,
    BadStart = 17,
}

impl Refusal {
    pub fn number(self) -> u8
        ensures { result ≡ number_of self }
    {
        self as u8
    }
}

// The paper's number of what a call answers: 0 where it is done.
pub fn number<T: Copy>(answer: Result<T, Refusal>) -> u8
    ensures { result ≡ answer_number answer }
{
    match answer {
        Ok(_) => 0,
        Err(refusal) => refusal.number(),
    }
}

// What is left of `s` after its first `n` bytes: nothing where it has no more.
pub fn after(s: &[u8], n: usize) -> &[u8]
    ensures { result.now ≡ drop n s.now }
{
    s.get(n..).unwrap_or(&[])
}

// Puts `from` at the start of `buf`, whose later places stay.
pub fn lay<T: Copy>(from: &[T], buf: &mut [T])
    requires { length from.now ≤ length buf.old }
    ensures { buf.new ≡ from.now ++ drop (length from.now) buf.old }
{
    buf[..from.len()].copy_from_slice(from);
}

// A number, in however many bits. `Into<u64>` says what it gives by a relation, and counts are an equation of numbers.
pub trait Count: Copy {
    ghost value: { Self → ℕ };

    fn wide(self) -> u64
        ensures { result ≡ value self };
}

impl Count for u8 {
    ghost value = { λ x. x };

    fn wide(self) -> u64 {
        u64::from(self)
    }
}

impl Count for u32 {
    ghost value = { λ x. x };

    fn wide(self) -> u64 {
        self.into()
    }
}

impl Count for u64 {
    ghost value = { λ x. x };

    fn wide(self) -> u64 {
        self
    }
}

// Whether each of the first `n` of `xs` is at most `most`, and every later one 0.
pub fn are_counts<T: Count>(xs: &[T], n: usize, most: T) -> bool
    ensures { result ≡ counts (map T.value xs.now) n (T.value most) }
{
    all_counts(xs, n, most)
}

// The same, said as the chain goes.
fn all_counts<T: Count>(xs: &[T], n: usize, most: T) -> bool
    ensures { result ≡ list_all (λ p. is_count n (T.value most) p.0 (T.value p.1)) (enumerate_from 0 xs.now) }
{
    let top = most.wide();
    xs.iter().enumerate().all(|(i, x)| if i < n {
        x.wide() <= top
    } else {
        x.wide() == 0
    })
}

// Whether every place of `xs` from the `n`-th on is 0.
pub fn are_zeros(xs: &[u8], n: usize) -> bool
    ensures { result ≡ zeros_from xs.now n }
{
    are_counts(xs, n, u8::MAX)
}
