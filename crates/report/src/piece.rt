// Pieces of text.
ghost use Rattle.std.specs.Prelude.{◌≡◌, ◌++◌, ◌∷◌, [], ◌+◌, ◌≤◌, ◌<◌, ◌/◌, ◌%◌, length};
ghost use Rattle.model.specs.Bench.{digits, decimal, newline, hex_digit, out_line, refused_line};

// Bytes, of which the first ones are the text. Stays an array with a length: the bench takes no heap; and its text is made byte by byte,
// since the clauses say which bytes it has and a `fmt` promises none.
#[derive(Clone, Copy)]
pub struct Piece {
    pub bytes: [u8; 64],
    pub length: usize,
    ghost fits: { length ≤ 64 },
}

// A hexadecimal digit.
fn make_hex_digit(n: u8) -> u8
    requires { n < 16 }
    ensures { result ≡ hex_digit n }
{
    if n < 10 {
        return 48 + n;
    }
    87 + n
}

impl Piece {
    ghost use Rattle.report.specs.Texts.{text_in, Adds, signed_text};

    // No text.
    pub(crate) fn nothing() -> Piece
        ensures { (text_in result ≡ []) × (result.length ≡ 0) }
    {
        Piece {
            bytes: [0; 64],
            length: 0,
        }
    }

    // A byte more.
    pub(crate) fn push(self, b: u8) -> Piece
        requires { self.length < 64 }
        ensures { Adds self (b ∷ []) result }
    {
        let mut bytes = self.bytes;
        bytes[self.length] = b;
        Piece {
            bytes,
            length: self.length + 1,
        }
    }

    // A text more.
    pub(crate) fn push_text(self, text: &[u8]) -> Piece
        requires { self.length + length text.now ≤ 64 }
        ensures { Adds self text.now result }
    {
        let mut longer = self;
        for &b in text {
            longer = longer.push(b);
        }
        longer
    }

    // The decimal digits of a number, at most so many.
    pub(crate) fn push_digits(self, k: u32, n: u64) -> Piece
        requires { self.length + k ≤ 64 }
        ensures { (text_in result ≡ text_in self ++ digits k n) × (result.length ≤ self.length + k) }
    {
        if k == 0 {
            return self;
        }
        let last = 48 + (n % 10) as u8;
        if n < 10 {
            return self.push(last);
        }
        self.push_digits(k - 1, n / 10).push(last)
    }

    // A signed value in decimal.
    fn push_signed(self, v: u32) -> Piece
        requires { self.length ≤ 32 }
        ensures { (text_in result ≡ text_in self ++ signed_text v) × (result.length ≤ self.length + 21) }
    {
        if v < 2147483648 {
            return self.push_digits(20, v as u64);
        }
        self.push(45).push_digits(20, 4294967296 - v as u64)
    }

    // A name, a number and the end of the line.
    pub(crate) fn line(name: &[u8], n: u64) -> Piece
        requires { length name.now ≤ 8 }
        ensures { text_in result ≡ name.now ++ decimal n ++ newline }
    {
        Piece::nothing().push_text(name).push_digits(20, n).push(10)
    }

    // A byte of code behind a space.
    pub(crate) fn code_byte(b: u8) -> Piece
        ensures { text_in result ≡ 32 ∷ hex_digit (b / 16) ∷ hex_digit (b % 16) ∷ [] }
    {
        let high = make_hex_digit(b / 16);
        let low = make_hex_digit(b % 16);
        Piece::nothing().push(32).push(high).push(low)
    }

    // A taken value: "out", the output's number and the signed value.
    pub(crate) fn out_line(k: u32, v: u32) -> Piece
        ensures { text_in result ≡ out_line k v }
    {
        let name = Piece::nothing()
            .push_text(b"out ")
            .push_digits(20, k as u64);
        name.push(32).push_signed(v).push(10)
    }

    // A refused table: its number and place.
    pub(crate) fn refused_line(n: u32, p: usize) -> Piece
        ensures { text_in result ≡ refused_line n p }
    {
        let number = Piece::nothing()
            .push_text(b"refused ")
            .push_digits(20, n as u64);
        let place = number.push_text(b" at ").push_digits(20, p as u64);
        place.push(10)
    }
}
