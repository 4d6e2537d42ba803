// Planar tiles: a byte of each plane of a group for each row, the leftmost pixel at the top.
ghost use Rattle.std.specs.Prelude.{◌≡◌, ◌<◌};
ghost use Rattle.std.proofs.lemmas.List.Edits.{sets};
ghost use Rattle.tile.specs.Layout.{spread};
ghost use Rattle.tile.specs.Packings.{planar};
ghost use Rattle.tile.specs.Inner.{PacksWhole, UnpacksWhole, Group, WordsIn, Columns, word_from, strands};

use crate::Packing;
use crate::eights::{cross, gather, put_words, reverse_bytes, words_of};

// Eight bytes of a planar tile whose rows are the words ws: with planes alone, one bit of each pixel of the eight rows; in pairs two bits of four
// rows; in fours four bits of two.
fn one_plane_word(ws: &[u64; 8], b: usize) -> u64
    requires { b < 8 }
    ensures { result ≡ word_from (planar 1 8 8 8).bytes ws.now b }
{
    cross(reverse_bytes(gather(ws, 0, b)))
}

fn pair_word(ws: &[u64; 8], b: usize) -> u64
    requires { b < 8 }
    ensures { result ≡ word_from (planar 2 8 8 8).bytes ws.now b }
{
    let m = 0x0303030303030303;
    let at = b % 2 * 4;
    let s = b / 2 * 2;
    let w = ((ws[at] >> s) & m)
        | (((ws[at + 1] >> s) & m) << 2)
        | (((ws[at + 2] >> s) & m) << 4)
        | (((ws[at + 3] >> s) & m) << 6);
    cross(reverse_bytes(w))
}

fn four_word(ws: &[u64; 8], b: usize) -> u64
    requires { b < 8 }
    ensures { result ≡ word_from (planar 4 8 8 8).bytes ws.now b }
{
    let m = 0x0f0f0f0f0f0f0f0f;
    let at = b % 4 * 2;
    let s = b / 4 * 4;
    let w = ((ws[at] >> s) & m) | (((ws[at + 1] >> s) & m) << 4);
    cross(reverse_bytes(w))
}

// Word b of a planar tile; it is the same at each depth that has it.
fn planar_word(ws: &[u64; 8], group: usize, b: usize) -> u64
    requires { Group group × (b < 8) }
    ensures { result ≡ word_from (planar group 8 8 8).bytes ws.now b }
{
    if group == 1 {
        return one_plane_word(ws, b);
    }
    if group == 2 {
        return pair_word(ws, b);
    }
    four_word(ws, b)
}

// The bytes of a planar tile. The words are made before the first is stored: stored one by one, each is made byte by byte.
pub fn put_planes(tile: &[u8], group: usize, depth: usize, out: &mut [u8], at: usize)
    requires { PacksWhole (Packing.Planar group depth) tile.now out.old at }
    ensures { out.new ≡ sets out.old at (spread (planar group depth 8 8).bytes tile.now) }
{
    let ws = words_of(tile, 8);
    let mut part = [0u64; 8];
    for b in 0..depth {
        part[b] = planar_word(&ws, group, b);
    }
    put_words(out, at, &part[..depth]);
}

// The first n words of a tile's bytes, each turned, and 0 for the others: byte x of a word has the bits of column x.
fn column_words(bytes: &[u8], n: usize) -> [u64; 8]
    requires { WordsIn bytes.now n }
    ensures { Columns bytes.now result }
{
    let mut ws = [0u64; 8];
    for i in 0..n {
        ws[i] = reverse_bytes(cross(words::word_at(bytes, i * 8, false)));
    }
    ws
}

// Row r of a planar tile whose columns are ws: planes alone, one bit of each word; in pairs two bits of every second word; in fours four
// bits of every fourth.
fn one_plane_row(ws: &[u64; 8], r: usize) -> u64
    requires { r < 8 }
    ensures { result ≡ word_from (strands 1) ws.now r }
{
    gather(ws, 0, r)
}

fn pair_row(ws: &[u64; 8], r: usize) -> u64
    requires { r < 8 }
    ensures { result ≡ word_from (strands 2) ws.now r }
{
    let m = 0x0303030303030303;
    let at = r / 4;
    let s = r % 4 * 2;
    ((ws[at] >> s) & m)
        | (((ws[at + 2] >> s) & m) << 2)
        | (((ws[at + 4] >> s) & m) << 4)
        | (((ws[at + 6] >> s) & m) << 6)
}

fn four_row(ws: &[u64; 8], r: usize) -> u64
    requires { r < 8 }
    ensures { result ≡ word_from (strands 4) ws.now r }
{
    let m = 0x0f0f0f0f0f0f0f0f;
    let at = r / 2;
    let s = r % 2 * 4;
    ((ws[at] >> s) & m) | (((ws[at + 4] >> s) & m) << 4)
}

// Row r of a planar tile of eight planes; of one with fewer, the others are 0.
fn planar_row(ws: &[u64; 8], group: usize, r: usize) -> u64
    requires { Group group × (r < 8) }
    ensures { result ≡ word_from (strands group) ws.now r }
{
    if group == 1 {
        return one_plane_row(ws, r);
    }
    if group == 2 {
        return pair_row(ws, r);
    }
    four_row(ws, r)
}

// The pixels of a planar tile.
pub fn put_plane_rows(bytes: &[u8], group: usize, depth: usize, out: &mut [u8], at: usize)
    requires { UnpacksWhole (Packing.Planar group depth) bytes.now out.old at }
    ensures { out.new ≡ sets out.old at (spread (planar group depth 8 8).pixels bytes.now) }
{
    let ws = column_words(bytes, depth);
    for r in 0..8 {
        words::put_bytes(out, at + r * 8, planar_row(&ws, group, r));
    }
}
