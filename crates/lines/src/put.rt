// Pieces of a text, laid one after another into a lent buffer. A pen moves on past each piece, also where there is no room for
// it: so the length of a text is where the pen ends in no buffer at all.
ghost use Rattle.std.specs.Prelude.{◌∷◌, [], ◌+◌, ◌*◌, ◌≤◌, length, ◌≡◌};
ghost use Rattle.lines.specs.Decimals.{decimal};
ghost use Rattle.lines.specs.Fields.{field_of};
ghost use Rattle.lines.specs.Hex.{hex_of, hex_digit};
ghost use Rattle.lines.specs.Pens.{Lays};

// A lent buffer, and the place where the next piece goes.
#[derive(Drop)]
pub struct Pen<'a> {
    pub buf: &'a mut [u8],
    pub at: usize,
}

impl Pen<'_> {
    // One byte.
    pub fn byte(&mut self, b: u8)
        requires { self.old.at ≤ 1_000_000_000 }
        ensures value { self.new.at ≡ self.old.at + 1 }
        ensures lays { Lays self.old self.new (b ∷ []) }
    {
        if self.at < self.buf.len() {
            self.buf[self.at] = b;
        }
        self.at += 1;
    }

    pub fn bytes(&mut self, src: &[u8])
        requires { self.old.at + length src.now ≤ 1_000_000_000 }
        ensures value { self.new.at ≡ self.old.at + length src.now }
        ensures lays { Lays self.old self.new src.now }
    {
        for b in src {
            self.byte(*b);
        }
    }

    // A number in decimal. By hand, as hexadecimals are: the theorems of texts speak of these bytes, and what `write!`
    // ensures is of a `String`, which wants a heap.
    pub fn number(&mut self, n: u64)
        requires { self.old.at ≤ 900_000_000 }
        ensures upper_bound { self.new.at ≤ self.old.at + 20 }
        ensures lays { Lays self.old self.new (decimal n) }
    {
        let mut digits = [0u8; 20];
        let k = io::decimal(n, &mut digits);
        self.bytes(&digits[..k]);
    }

    // A field: its key, its number, and the byte that ends it.
    pub fn field(&mut self, key: &[u8], n: u64, end: u8)
        requires { self.old.at + length key.now ≤ 900_000_000 }
        ensures upper_bound { self.new.at ≤ self.old.at + length key.now + 21 }
        ensures lays { Lays self.old self.new (field_of key.now end n) }
    {
        self.bytes(key);
        self.number(n);
        self.byte(end);
    }

    // Bytes in hexadecimal.
    pub fn hex(&mut self, src: &[u8])
        requires { self.old.at + 2 * length src.now ≤ 900_000_000 }
        ensures value { self.new.at ≡ self.old.at + 2 * length src.now }
        ensures lays { Lays self.old self.new (hex_of src.now) }
    {
        for b in src {
            self.pair(*b);
        }
    }

    fn pair(&mut self, b: u8)
        requires { self.old.at ≤ 900_000_000 }
        ensures value { self.new.at ≡ self.old.at + 2 }
        ensures lays { Lays self.old self.new (hex_of (b ∷ [])) }
    {
        self.byte(glyph(b / 16));
        self.byte(glyph(b % 16));
    }
}

// The hexadecimal digit of a number below 16.
fn glyph(d: u8) -> u8
    requires { d ≤ 15 }
    ensures { result ≡ hex_digit d }
{
    if d < 10 { b'0' + d } else { b'a' - 10 + d }
}
