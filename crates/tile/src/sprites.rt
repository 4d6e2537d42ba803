// Sprites: columns of cells of 16x16, each cell four planes.
ghost use Rattle.std.specs.Prelude.{◌≡◌, [], ◌∷◌, ◌+◌, ◌*◌, ◌/◌, ◌%◌, ◌<◌, ◌≤◌, length, get_or};
ghost use Rattle.std.proofs.lemmas.List.Edits.{sets};
ghost use Rattle.words.specs.Loops.{each};
ghost use Rattle.tile.specs.Layout.{spread};
ghost use Rattle.tile.specs.Packings.{sprite};
ghost use Rattle.tile.specs.Inner.{PacksWhole, UnpacksWhole, CellOf, word_from, cell, cell_byte, quarter, quarter_words, cell_words, stored_at, beside, pixel_bits};

use crate::Packing;
use crate::eights::{cross, gather};

// The words of a cell, two a row: its first pixel stands at place from of a tile so wide.
fn cell_words(tile: &[u8], from: usize, width: usize) -> [u64; 32]
    requires { (width ≤ 32) × (from + 15 * width + 16 ≤ length tile.now) }
    ensures { CellOf tile.now from width result }
{
    let mut ws = [0u64; 32];
    for i in 0..32 {
        ws[i] = words::word_at(tile, from + i / 2 * width + i % 2 * 8, false);
    }
    ws
}

// Word b of a cell: one plane of four rows, the leftmost pixel at the bottom.
fn cell_word(ws: &[u64; 32], b: usize) -> u64
    requires { b < 16 }
    ensures { result ≡ word_from cell ws.now b }
{
    cross(gather(ws, b % 4 * 8, b / 4))
}

// The bytes of a cell: four planes, in a plane two bytes a row.
fn put_cell(tile: &[u8], from: usize, width: usize, out: &mut [u8], at: usize)
    requires { (width ≤ 32) × (from + 15 * width + 16 ≤ length tile.now) × (at + 128 ≤ length out.old) }
    ensures { out.new ≡ sets out.old at (each 128 (λ k. cell_byte tile.now from width k ∷ [])) }
{
    let ws = cell_words(tile, from, width);
    for b in 0..16 {
        words::put_bytes(out, at + b * 8, cell_word(&ws, b));
    }
}

// The bytes of a sprite: columns of cells, each top to bottom.
pub fn put_sprite(tile: &[u8], width: usize, height: usize, out: &mut [u8], at: usize)
    requires { PacksWhole (Packing.Sprite width height) tile.now out.old at }
    ensures { out.new ≡ sets out.old at (spread (sprite width height).bytes tile.now) }
{
    let down = height / 16;
    let n = width / 16 * down;
    for c in 0..n {
        let left = c / down;
        let above = c % down;
        put_cell(tile, (above * width + left) * 16, width, out, at + c * 128);
    }
}

// Fields of n bits that stand 2n apart, those of a and those of b, side by side: moved down by s first, as far as m keeps them, b's above a's.
fn beside(a: u64, b: u64, s: usize, n: usize, m: u64) -> u64
    requires { (s < 64) × (n < 64) }
    ensures { result ≡ beside s n m a b }
{
    ((a >> s) & m) | (((b >> s) & m) << n)
}

// The words a, b, c, d have a plane each, a byte for eight pixels: pixels k and k + 4 of each byte, the four bits of one side by side.
fn pixel_bits(a: u64, b: u64, c: u64, d: u64, k: usize) -> u64
    requires { k < 4 }
    ensures { result ≡ pixel_bits a b c d k }
{
    let low = beside(a, b, k % 2, 1, 0x5555555555555555);
    let high = beside(c, d, k % 2, 1, 0x5555555555555555);
    beside(low, high, k / 2 * 2, 2, 0x3333333333333333)
}

// The eight pixels of byte k, a byte each: the pixels are joined by bits, then by bytes, so that the words of eight bytes share the most of it.
fn pixel_word(a: u64, b: u64, c: u64, d: u64, k: usize) -> u64
    requires { k < 8 }
    ensures { result ≡ word_from quarter (a ∷ b ∷ c ∷ d ∷ []) k }
{
    let s = k % 2 * 8;
    let x = beside(
        pixel_bits(a, b, c, d, 0),
        pixel_bits(a, b, c, d, 1),
        s,
        8,
        0x00ff00ff00ff00ff,
    );
    let y = beside(
        pixel_bits(a, b, c, d, 2),
        pixel_bits(a, b, c, d, 3),
        s,
        8,
        0x00ff00ff00ff00ff,
    );
    let four = beside(x, y, k / 2 % 2 * 16, 16, 0x0000ffff0000ffff);
    let z = (four >> (k / 4 * 32)) & 0x00000000ffffffff;
    (z | (z << 28)) & 0x0f0f0f0f0f0f0f0f
}

// The pixels of eight bytes of each plane, of which the first plane's stand from place from on: eight words, from place at of ws on.
fn put_quarter(bytes: &[u8], from: usize, ws: &mut [u64], at: usize)
    requires { (from + 104 ≤ length bytes.now) × (at + 8 ≤ length ws.old) }
    ensures { ws.new ≡ sets ws.old at (quarter_words bytes.now from) }
{
    let a = words::word_at(bytes, from, false);
    let b = words::word_at(bytes, from + 32, false);
    let c = words::word_at(bytes, from + 64, false);
    let d = words::word_at(bytes, from + 96, false);
    for k in 0..8 {
        ws[at + k] = pixel_word(a, b, c, d, k);
    }
}

// The pixels of a cell, two words a row: made before the first is stored, for otherwise each is made and stored byte by byte.
fn cell_pixels(bytes: &[u8], from: usize) -> [u64; 32]
    requires { from + 128 ≤ length bytes.now }
    ensures { result ≡ cell_words bytes.now from }
{
    let mut ws = [0u64; 32];
    for j in 0..4 {
        put_quarter(bytes, from + j * 8, &mut ws, j * 8);
    }
    ws
}

// The rows of a cell, two words a row, in rows of so many pixels from place at of out on.
fn put_cell_rows(ws: &[u64; 32], width: usize, out: &mut [u8], at: usize)
    requires { (width ≤ 32) × (at + 15 * width + 16 ≤ length out.old) }
    ensures { out.new ≡ stored_at 32 (λ t. at + t / 2 * width + t % 2 * 8) (λ t. get_or ws.now t 0) out.old }
{
    for t in 0..32 {
        words::put_bytes(out, at + t / 2 * width + t % 2 * 8, ws[t]);
    }
}

// The pixels of a sprite, cell by cell.
pub fn put_sprite_rows(bytes: &[u8], width: usize, height: usize, out: &mut [u8], at: usize)
    requires { UnpacksWhole (Packing.Sprite width height) bytes.now out.old at }
    ensures { out.new ≡ sets out.old at (spread (sprite width height).pixels bytes.now) }
{
    let down = height / 16;
    let n = width / 16 * down;
    for c in 0..n {
        let left = c / down;
        let above = c % down;
        let ws = cell_pixels(bytes, c * 128);
        put_cell_rows(&ws, width, out, at + (above * width + left) * 16);
    }
}
