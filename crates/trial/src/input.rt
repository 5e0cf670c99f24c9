// What the programs that run trials take in.
ghost use Rattle.std.specs.Prelude.{◌≡◌, ◌≢◌, ℕ, ◌<◌, ◌≤◌, length, slice_index, IfOk};
ghost use Rattle.std.specs.Iterator.{YieldsFirstRef, item_count};
ghost use Rattle.trial.specs.Split.{lines_of};

use std::io::{self, Read};

// Reads until `buf` is full or the input ends, and answers how many bytes it put at the start of `buf`.
pub fn fill(input: &mut impl Read, buf: &mut [u8]) -> io::Result<usize>
    ensures { IfOk result (λ n. n ≤ length buf.new) }
{
    let mut done = 0;
    // No range to go over: a read takes as many bytes as come.
    while done < buf.len() {
        let n = input.read(&mut buf[done..])?;
        if n == 0 {
            return Ok(done);
        }
        done += n;
    }
    Ok(done)
}

// Where the line of `text` that begins at `at` ends: at the first end of line from there on, or at the end of the text.
pub fn line_end(text: &[u8], at: usize) -> usize
    requires { at ≤ length text.now }
    ensures within { (at ≤ result) × (result ≤ length text.now) }
    ensures before { (k : ℕ) → at ≤ k → k < result → slice_index text.now k ≢ 10 }
    ensures found { result < length text.now → slice_index text.now result ≡ 10 }
{
    for (end, b) in text.iter().enumerate().skip(at) {
        if *b == b'\n' {
            return end;
        }
    }
    text.len()
}

// The lines of a text that are left, each without its end, the last with or without one.
#[derive(Drop)]
pub struct Lines<'a>(pub &'a [u8]);

impl<'a> Iterator for Lines<'a> {
    type Item = &'a [u8];

    ghost next_gives = { YieldsFirstRef (λ s. lines_of s.0.now) };

    ghost remaining = { item_count (λ s. lines_of s.0.now) };

    fn next(&mut self) -> Option<&'a [u8]> {
        if self.0.is_empty() {
            return None;
        }
        let (line, rest) = self.0.split_at(line_end(self.0, 0));
        self.0 = &rest[rest.len().min(1)..];
        Some(line)
    }
}
