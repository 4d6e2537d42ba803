// The ground floor: numbers as bits, words as bytes, refusals, and what a host is told. Nothing of consoles.
#![tactic(auto)]

pub mod refusal;

ghost use Rattle.std.specs.Prelude.{◌≡◌, ◌+◌, ◌*◌, ◌/◌, ◌%◌, ◌^◌, ◌<◌, ◌≤◌, min, ltb, length, take, drop};
ghost use Rattle.std.proofs.lemmas.List.Edits.{sets};
ghost use Rattle.words.specs.Answers.{written, numbered};
ghost use Rattle.words.specs.InnerResults.{written_by, numbered_by};
ghost use Rattle.words.specs.Bytes.{bit, bytes_of, word_of, same};
ghost use Rattle.words.specs.Inner.{word_at, eight, byte_in, bytes_in};

use crate::refusal::Refusal;

// What a host is told of a call that writes bytes: document 01's number, and how many bytes it wrote.
#[repr(C)]
#[derive(Clone, Copy, Debug, PartialEq, Eq)]
pub struct Written {
    pub refusal: u32,
    pub written: usize,
}

// What a host is told of a call that computes one number.
#[repr(C)]
#[derive(Clone, Copy, Debug, PartialEq, Eq)]
pub struct Number {
    pub refusal: u32,
    pub value: u32,
}

impl From<Result<usize, Refusal>> for Written {
    ghost from_gives = { λ r w. w ≡ written_by r };

    fn from(answer: Result<usize, Refusal>) -> Written {
        match answer {
            Ok(written) => Written {
                refusal: 0,
                written,
            },
            Err(refusal) => Written {
                refusal: refusal.number(),
                written: 0,
            },
        }
    }
}

impl From<Result<u32, Refusal>> for Number {
    ghost from_gives = { λ r n. n ≡ numbered_by r };

    fn from(answer: Result<u32, Refusal>) -> Number {
        match answer {
            Ok(value) => Number { refusal: 0, value },
            Err(refusal) => Number {
                refusal: refusal.number(),
                value: 0,
            },
        }
    }
}

// Whether some bits can hold x.
pub fn holds(bits: u32, x: u32) -> bool
    requires { bits < 32 }
    ensures { result ≡ ltb x (2 ^ bits) }
{
    down(x, bits) == 0
}

// x, moved up by some places.
pub fn up(x: u32, places: u32) -> u32
    requires { (x < 65536) × (places ≤ 16) }
    ensures { result ≡ x * 2 ^ places }
{
    x << places
}

// x, moved down by some places.
pub fn down(x: u32, places: u32) -> u32
    requires { places < 32 }
    ensures { result ≡ x / 2 ^ places }
{
    x >> places
}

// The low bits of x.
pub fn low(x: u32, bits: u32) -> u32
    requires { bits < 32 }
    ensures { result ≡ x % 2 ^ bits }
{
    x & ((1u32 << bits) - 1)
}

// The low bytes of the word, one or two, from place at on.
pub fn put_word(out: &mut [u8], at: usize, size: usize, most: bool, word: u32)
    requires { (at + size ≤ length out.old) × (0 < size) × (size ≤ 2) }
    ensures { out.new ≡ sets out.old at (bytes_of size most word) }
{
    let least = (word % 256) as u8;
    if size == 1 {
        out[at] = least;
        return;
    }
    let greatest = (word / 256 % 256) as u8;
    if most {
        out[at] = greatest;
        out[at + 1] = least;
    } else {
        out[at] = least;
        out[at + 1] = greatest;
    }
}

// The word that the bytes from place at on hold, one or two.
pub fn get_word(s: &[u8], at: usize, size: usize, most: bool) -> u32
    requires { (at + size ≤ length s.now) × (0 < size) × (size ≤ 2) }
    ensures { (result ≡ word_of most (take size (drop at s.now))) × (result < 65536) }
{
    let first = u32::from(s[at]);
    if size == 1 {
        return first;
    }
    let second = u32::from(s[at + 1]);
    if most {
        second + 256 * first
    } else {
        first + 256 * second
    }
}

// Whether two slices hold the same bytes.
pub fn same_bytes(a: &[u8], b: &[u8]) -> bool
    ensures { result ≡ same a.now b.now }
{
    a == b
}

// The bytes, from place at of out on.
pub fn put(out: &mut [u8], at: usize, bytes: &[u8])
    requires { at + length bytes.now ≤ length out.old }
    ensures { out.new ≡ sets out.old at bytes.now }
{
    out[at..at + bytes.len()].copy_from_slice(bytes);
}

// Eight bytes as one number, the first the least.
pub fn word(a: u64, b: u64, c: u64, d: u64, e: u64, f: u64, g: u64, h: u64) -> u64
    requires { (a < 256) × (b < 256) × (c < 256) × (d < 256) × (e < 256) × (f < 256) × (g < 256) × (h < 256) }
    ensures { result ≡ a + 256 * (b + 256 * (c + 256 * (d + 256 * (e + 256 * (f + 256 * (g + 256 * h)))))) }
{
    a + 256 * (b + 256 * (c + 256 * (d + 256 * (e + 256 * (f + 256 * (g + 256 * h))))))
}

// The eight bytes from place at on as one word, the first at the bottom; read back, at the top. It compiles to one load.
pub fn word_at(s: &[u8], at: usize, back: bool) -> u64
    requires { at + 8 ≤ length s.now }
    ensures { result ≡ word_at back s.now at }
{
    let a = u64::from(s[at]);
    let b = u64::from(s[at + 1]);
    let c = u64::from(s[at + 2]);
    let d = u64::from(s[at + 3]);
    let e = u64::from(s[at + 4]);
    let f = u64::from(s[at + 5]);
    let g = u64::from(s[at + 6]);
    let h = u64::from(s[at + 7]);
    if back {
        return word(h, g, f, e, d, c, b, a);
    }
    word(a, b, c, d, e, f, g, h)
}

fn byte(w: u64, m: usize) -> u8
    requires { m < 8 }
    ensures { result ≡ byte_in w m }
{
    ((w >> (m * 8)) % 256) as u8
}

// The bytes of a word, from place at of out on.
pub fn put_bytes(out: &mut [u8], at: usize, w: u64)
    requires { at + 8 ≤ length out.old }
    ensures { out.new ≡ sets out.old at (bytes_in w) }
{
    for m in 0..8 {
        out[at + m] = byte(w, m);
    }
}

// Eight bytes, from place from of s on, or back from their end, moved to place at of out: as one word, for one by one they would be moved so.
pub fn put_eight(s: &[u8], from: usize, back: bool, out: &mut [u8], at: usize)
    requires { (from + 8 ≤ length s.now) × (at + 8 ≤ length out.old) }
    ensures { out.new ≡ sets out.old at (eight back s.now from) }
{
    put_bytes(out, at, word_at(s, from, back));
}
