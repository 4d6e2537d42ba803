// Tiles whose pixels stand one after the other, each with its bits together: pairs of bits, nibbles, and plain bytes.
ghost use Rattle.std.specs.Prelude.{◌≡◌, [], ◌∷◌, ◌+◌, ◌*◌, ◌<◌, ◌≤◌, T, length};
ghost use Rattle.std.proofs.lemmas.List.Edits.{sets};
ghost use Rattle.mode.specs.Table.{one_of};
ghost use Rattle.tile.specs.Packings.{ngp, layout_in};
ghost use Rattle.tile.specs.Inner.{byte_count, packed_in, unpacked_in, PacksWhole, UnpacksWhole, is_chunky, nibbles, row_pairs, row_nibbles, word_from};

use crate::Packing;
use crate::eights::words_of;
use crate::layouts::byte_count;

// The low two bits of a row's pixels as two bytes, the leftmost at the top. In each step the fields join their neighbours: two pixels a field, then
// four, then eight.
#[tactic(auto, unfolding(crate::specs::Inner::row_pairs))]
fn row_pairs(row: u64) -> u64
    ensures { result ≡ row_pairs row }
{
    let one = row & 0x0303030303030303;
    let two = ((one << 2) | (one >> 8)) & 0x000f000f000f000f;
    let four = ((two << 4) | (two >> 16)) & 0x000000ff000000ff;
    ((four << 8) | (four >> 32)) & 0x000000000000ffff
}

// Word b of an ngp tile: four rows, 0 to 3.
fn ngp_word(ws: &[u64; 8], b: usize) -> u64
    requires { b < 2 }
    ensures { result ≡ word_from (ngp 8 8).bytes ws.now b }
{
    let at = b * 4;
    row_pairs(ws[at])
        | (row_pairs(ws[at + 1]) << 16)
        | (row_pairs(ws[at + 2]) << 32)
        | (row_pairs(ws[at + 3]) << 48)
}

// The low four bits of a row's pixels as four bytes, joined so. Of each two pixels the first is moved up by UP bits: none, into the low nibble, or 4,
// into the high one.
#[tactic(auto, unfolding(crate::specs::Inner::row_nibbles))]
fn row_nibbles<const UP: usize>(row: u64) -> u64
    requires { UP ≤ 4 }
    ensures { result ≡ row_nibbles UP row }
{
    let one = row & 0x0f0f0f0f0f0f0f0f;
    let two = ((one << UP) | (one >> (UP + 4))) & 0x00ff00ff00ff00ff;
    let four = (two | (two >> 8)) & 0x0000ffff0000ffff;
    (four | (four >> 16)) & 0x00000000ffffffff
}

// Word b of a tile of nibbles: two rows, 0 and 1.
fn nibble_word<const UP: usize>(ws: &[u64; 8], b: usize) -> u64
    requires { T (one_of UP (0 ∷ 4 ∷ [])) × (b < 4) }
    ensures { result ≡ word_from (nibbles UP).bytes ws.now b }
{
    let at = b * 2;
    row_nibbles::<UP>(ws[at]) | (row_nibbles::<UP>(ws[at + 1]) << 32)
}

fn chunky_word(ws: &[u64; 8], p: Packing, b: usize) -> u64
    requires { T (is_chunky p) × (b * 8 < byte_count p) }
    ensures { result ≡ word_from (layout_in p).bytes ws.now b }
{
    match p {
        Packing::Ngp => ngp_word(ws, b),
        Packing::LowFirst => nibble_word::<0>(ws, b),
        _ => nibble_word::<4>(ws, b),
    }
}

// The bytes of a tile whose pixels stand one after the other, each with its bits together. The packings are told apart in each turn: with a loop for
// each, a word was made and stored byte by byte.
pub fn put_chunky(p: Packing, tile: &[u8], out: &mut [u8], at: usize)
    requires { T (is_chunky p) × PacksWhole p tile.now out.old at }
    ensures { out.new ≡ sets out.old at (packed_in p tile.now) }
{
    let ws = words_of(tile, 8);
    let n = byte_count(p) / 8;
    for b in 0..n {
        words::put_bytes(out, at + b * 8, chunky_word(&ws, p, b));
    }
}

// Pixels that stand as they are, eight at a time.
pub fn put_plain(tile: &[u8], out: &mut [u8], at: usize)
    requires { (length tile.now ≡ 64) × (at + 64 ≤ length out.old) }
    ensures { out.new ≡ sets out.old at tile.now }
{
    for r in 0..8 {
        words::put_eight(tile, r * 8, false, out, at + r * 8);
    }
}

// Row r of an ngp tile.
fn ngp_row(ws: &[u64; 8], r: usize) -> u64
    requires { r < 8 }
    ensures { result ≡ word_from (ngp 8 8).pixels ws.now r }
{
    let at = r / 4;
    let x = ws[at] >> (r % 4 * 16);
    let y = (((x >> 8) & 0x00000000000000ff) | (x << 32)) & 0x000000ff000000ff;
    let z = ((y >> 4) | (y << 16)) & 0x000f000f000f000f;
    ((z >> 2) | (z << 8)) & 0x0303030303030303
}

// Row r of a tile of nibbles.
fn nibble_row<const UP: usize>(ws: &[u64; 8], r: usize) -> u64
    requires { T (one_of UP (0 ∷ 4 ∷ [])) × (r < 8) }
    ensures { result ≡ word_from (nibbles UP).pixels ws.now r }
{
    let at = r / 2;
    let x = ws[at] >> (r % 2 * 32);
    let y = ((x & 0x00000000ffffffff) | (x << 16)) & 0x0000ffff0000ffff;
    let z = (y | (y << 8)) & 0x00ff00ff00ff00ff;
    ((z >> UP) | (z << (UP + 4))) & 0x0f0f0f0f0f0f0f0f
}

fn chunky_row(ws: &[u64; 8], p: Packing, r: usize) -> u64
    requires { T (is_chunky p) × (r < 8) }
    ensures { result ≡ word_from (layout_in p).pixels ws.now r }
{
    match p {
        Packing::Ngp => ngp_row(ws, r),
        Packing::LowFirst => nibble_row::<0>(ws, r),
        _ => nibble_row::<4>(ws, r),
    }
}

// The pixels of such a tile.
pub fn put_chunky_rows(p: Packing, bytes: &[u8], out: &mut [u8], at: usize)
    requires { T (is_chunky p) × UnpacksWhole p bytes.now out.old at }
    ensures { out.new ≡ sets out.old at (unpacked_in p bytes.now) }
{
    let ws = words_of(bytes, byte_count(p) / 8);
    for r in 0..8 {
        words::put_bytes(out, at + r * 8, chunky_row(&ws, p, r));
    }
}
