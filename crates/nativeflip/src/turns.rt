// Tiles turned eight bytes at a time, as one word. A row of planes has as many bytes as there are planes in a group, one of pixels as many as a pixel
// has bits: 1, 2, 4 or 8. So eight rows have as many words.
ghost use Rattle.std.specs.Prelude.{◌≡◌, true, false, ◌+◌, ◌*◌, ◌<◌, ◌≤◌, T, length};
ghost use Rattle.std.proofs.lemmas.List.Edits.{sets};
ghost use Rattle.words.specs.Inner.{byte_in};
ghost use Rattle.tile.specs.Layout.{element, spread};
ghost use Rattle.tile.specs.Inner.{HasWord};
ghost use Rattle.nativeflip.specs.Flipping.{reversed};
ghost use Rattle.nativeflip.specs.Inner.{is_row, is_pixel_row, word_place, exchanged, RowsBack, FieldsBack, BitsBack, planes_turned, pixels_turned, Reverses, HasWords, HasRows};

use flip::Flip;

// The lower of two fields that change places, in each two of a word.
const HALVES: u64 = 0x00000000ffffffff;

const DOUBLES: u64 = 0x0000ffff0000ffff;

const BYTES: u64 = 0x00ff00ff00ff00ff;

const NIBBLES: u64 = 0x0f0f0f0f0f0f0f0f;

const PAIRS: u64 = 0x3333333333333333;

// The fields that m keeps change places with those s places above them.
fn exchange(w: u64, m: u64, s: usize) -> u64
    requires { s < 64 }
    ensures { result ≡ exchanged m s w }
{
    ((w & m) << s) | ((w >> s) & m)
}

// The rows of a word in reverse order, each of so many bytes.
fn turn_rows(row: usize, w: u64) -> u64
    requires { T (is_row row) }
    ensures { RowsBack row w result }
{
    if row == 8 {
        return w;
    }
    let halves = exchange(w, HALVES, 32);
    if row == 4 {
        return halves;
    }
    let doubles = exchange(halves, DOUBLES, 16);
    if row == 2 {
        return doubles;
    }
    exchange(doubles, BYTES, 8)
}

// The pixels of each byte of a word in reverse order, each of so many bits.
fn turn_fields(bits: usize, w: u64) -> u64
    requires { T (is_pixel_row bits) }
    ensures { FieldsBack bits w result }
{
    if bits == 8 {
        return w;
    }
    let nibbles = exchange(w, NIBBLES, 4);
    if bits == 4 {
        return nibbles;
    }
    exchange(nibbles, PAIRS, 2)
}

// Which word of a tile becomes word b, where its rows are in reverse order or not. As many words as a row has bytes are eight rows, a power of two:
// so a place counted from their other end differs in these bits.
fn word_from(row: usize, down: bool, b: usize) -> usize
    requires { T (is_row row) × (b < 8) }
    ensures { result ≡ word_place row down b }
{
    if down {
        return b ^ (row - 1);
    }
    b
}

// Word b of the flipped tile. A word whose bytes are all in reverse order has its rows in reverse order as well: where h is alone these are turned
// back. Fields are exchanged last: exchanged before the bytes, they have the compiler store the word byte by byte.
fn turned_word(row: usize, f: Flip, bytes: &[u8], b: usize) -> u64
    requires { HasWords row f.h bytes.now × (b * 8 + 8 ≤ length bytes.now) }
    ensures { HasWord (element (pixels_turned row f.h f.v (length bytes.now)) bytes.now) b result }
{
    let w = words::word_at(bytes, word_from(row, f.v, b) * 8, false);
    if f.h {
        let back = turn_rows(1, w);
        if f.v {
            return turn_fields(row, back);
        }
        return turn_fields(row, turn_rows(row, back));
    }
    if f.v {
        return turn_rows(row, w);
    }
    w
}

// A flipped tile of n words of pixels.
pub fn put_turned(row: usize, n: usize, f: Flip, bytes: &[u8], out: &mut [u8])
    requires { HasRows row n f.h bytes.now out.old }
    ensures { out.new ≡ sets out.old 0 (spread (pixels_turned row f.h f.v (length bytes.now)) bytes.now) }
{
    for b in 0..n {
        words::put_bytes(out, b * 8, turned_word(row, f, bytes, b));
    }
}

// A tile of n words of planes, with its rows in reverse order or not. It is the loop above for this one flip: with planes for a caller more, that loop
// was not compiled into the one for two-bit pixels.
pub fn put_rows(row: usize, n: usize, down: bool, bytes: &[u8], out: &mut [u8])
    requires { HasRows row n false bytes.now out.old }
    ensures { out.new ≡ sets out.old 0 (spread (planes_turned row false down (length bytes.now)) bytes.now) }
{
    let f = Flip { h: false, v: down };
    for b in 0..n {
        words::put_bytes(out, b * 8, turned_word(row, f, bytes, b));
    }
}

// Byte m of a word with its eight bits in reverse order, by the table.
fn reversed_byte(table: &[u8; 256], w: u64, m: usize) -> u64
    requires { Reverses table.now × (m < 8) }
    ensures { (result ≡ reversed (byte_in w m)) × (result < 256) }
{
    u64::from(table[((w >> (m * 8)) % 256) as usize])
}

// All bytes of a word so.
fn reverse_word(table: &[u8; 256], w: u64) -> u64
    requires { Reverses table.now }
    ensures { BitsBack w result }
{
    let a = reversed_byte(table, w, 0);
    let b = reversed_byte(table, w, 1);
    let c = reversed_byte(table, w, 2);
    let d = reversed_byte(table, w, 3);
    let e = reversed_byte(table, w, 4);
    let f = reversed_byte(table, w, 5);
    let g = reversed_byte(table, w, 6);
    let h = reversed_byte(table, w, 7);
    words::word(a, b, c, d, e, f, g, h)
}

// The same with the bits of each byte in reverse order.
pub fn put_reversed(
    table: &[u8; 256],
    row: usize,
    n: usize,
    down: bool,
    bytes: &[u8],
    out: &mut [u8],
)
    requires { Reverses table.now × HasRows row n false bytes.now out.old }
    ensures { out.new ≡ sets out.old 0 (spread (planes_turned row true down (length bytes.now)) bytes.now) }
{
    let f = Flip { h: false, v: down };
    for b in 0..n {
        words::put_bytes(
            out,
            b * 8,
            reverse_word(table, turned_word(row, f, bytes, b)),
        );
    }
}
