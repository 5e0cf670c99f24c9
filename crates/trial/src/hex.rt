// The operation of a trial: bytes in lower-case hexadecimal.
ghost use Rattle.std.specs.Prelude.{◌≤◌, length, IfSome};

// Puts the bytes that `s` spells at the start of `out`: how many, or none where it spells none or more than there is room for.
pub fn read(s: &[u8], out: &mut [u8]) -> Option<usize>
    ensures { IfSome result (λ n. n ≤ length out.new) }
{
    let n = s.len() / 2;
    if s.len() % 2 == 1 || out.len() < n {
        return None;
    }
    for (place, pair) in out.iter_mut().zip(s.chunks_exact(2)) {
        *place = digit(pair[0])? * 16 + digit(pair[1])?;
    }
    Some(n)
}

// What a digit is worth.
fn digit(b: u8) -> Option<u8>
    ensures { IfSome result (λ d. d ≤ 15) }
{
    match b {
        b'0'..=b'9' => Some(b - b'0'),
        b'a'..=b'f' => Some(b - b'a' + 10),
        _ => None,
    }
}
