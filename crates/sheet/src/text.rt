// The lines that the program writes, one after the other.
ghost use Rattle.std.specs.Prelude.{◌≡◌, [], ◌++◌, ◌+◌, ◌≤◌, length};
ghost use Rattle.sheet.specs.Keys.{line_of};
ghost use Rattle.sheet.specs.Numbers.{decimal};
ghost use Rattle.sheet.specs.Inner.{text_most, line_most, report_most};

use crate::keys::Key;
use std::marker::Model;

// The most bytes of a number, and of a report's lines: ten of twenty-one bytes.
const NUMBER_MOST: usize = 10;

const REPORT_MOST: usize = 210;

// A number in decimal: its digits stand at the end of the bytes. It is made by hand, in fixed memory: std writes a number to a `fmt::Write`, whose
// error would have to be handed on here, where none can come.
#[derive(Debug, Drop)]
struct Numeral {
    bytes: [u8; NUMBER_MOST],
    from: usize,
}

// A clause sees the digits.
impl Model for Numeral {
    ghost use Rattle.std.specs.Prelude.{ℕ, ◌≤◌, List, drop};
    ghost use Rattle.sheet.specs.Inner.{text_most};

    ghost Value = { List ℕ };

    ghost view = { λ n. drop n.from n.bytes };

    ghost invariant = { λ n. n.from ≤ text_most };
}

impl Numeral {
    fn new(n: u32) -> Numeral
        ensures { result ≡ decimal n }
    {
        let mut bytes = [0; NUMBER_MOST];
        let mut from = NUMBER_MOST;
        let mut left = n;
        while 9 < left {
            from -= 1;
            bytes[from] = (48 + left % 10) as u8;
            left /= 10;
        }
        from -= 1;
        bytes[from] = (48 + left) as u8;
        Numeral { bytes, from }
    }

    fn digits(&self) -> &[u8]
        ensures digits { result.now ≡ self.now }
        ensures length { length result.now ≤ text_most }
    {
        &self.bytes[self.from..]
    }
}

// Lines, as far as they are written, in fixed memory: a report has at most ten.
#[derive(Debug, Drop)]
pub struct Text {
    bytes: [u8; REPORT_MOST],
    len: usize,
}

// A clause sees what is written.
impl Model for Text {
    ghost use Rattle.std.specs.Prelude.{ℕ, ◌≤◌, List, take};
    ghost use Rattle.sheet.specs.Inner.{report_most};

    ghost Value = { List ℕ };

    ghost view = { λ t. take t.len t.bytes };

    ghost invariant = { λ t. t.len ≤ report_most };
}

impl Text {
    pub fn new() -> Text
        ensures { result ≡ [] }
    {
        Text {
            bytes: [0; REPORT_MOST],
            len: 0,
        }
    }

    pub fn bytes(&self) -> &[u8]
        ensures bytes { result.now ≡ self.now }
        ensures length { length result.now ≤ report_most }
    {
        &self.bytes[..self.len]
    }

    fn put(&mut self, s: &[u8])
        requires { length self.old + length s.now ≤ report_most }
        ensures { self.new ≡ self.old ++ s.now }
    {
        let end = self.len + s.len();
        self.bytes[self.len..end].copy_from_slice(s);
        self.len = end;
    }

    // A line: its key, the text and a newline.
    #[tactic(auto, unfolding(crate::specs::Keys::line_of))]
    pub fn line(&mut self, key: Key, text: &[u8])
        requires { (length self.old + line_most ≤ report_most) × (length text.now ≤ text_most) }
        ensures text { self.new ≡ self.old ++ line_of key text.now }
        ensures length { length self.new ≤ length self.old + line_most }
    {
        self.put(key.text());
        self.put(text);
        self.put(b"\n");
    }

    // A line with a number.
    pub fn number(&mut self, key: Key, n: u32)
        requires { length self.old + line_most ≤ report_most }
        ensures text { self.new ≡ self.old ++ line_of key (decimal n) }
        ensures length { length self.new ≤ length self.old + line_most }
    {
        self.line(key, Numeral::new(n).digits());
    }
}
