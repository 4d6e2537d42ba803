// The calls: what they refuse, and a native tile packed or unpacked.
ghost use Rattle.std.specs.Prelude.{◌≡◌, ◌≤◌, length, IfOk};
ghost use Rattle.words.specs.Answers.{Wrote};
ghost use Rattle.words.specs.Loops.{some};
ghost use Rattle.words.specs.InnerResults.{answered, written_by};
ghost use Rattle.tile.specs.Tile.{is_native, too_large, tile_says, pack_says, unpack_says, packed, unpacked};

use crate::layouts::{byte_count, packing_of, pixel_count};
use crate::tiles::{put_pixels, put_tile};
use mode::Mode;
use words::refusal::Refusal;

// Whether the native tiles of the mode of this number have this size. Any number is taken, also one that is no mode's: the size is checked beside
// the mode, for sets whose fields nothing was asked of.
pub fn is_native(mode: u32, width: u32, height: u32) -> bool
    ensures { result ≡ is_native mode width height }
{
    if mode == Mode::PCE_SPRITE.number() {
        return matches!(width, 16 | 32) && matches!(height, 16 | 32 | 64);
    }
    width == 8 && height == 8
}

// The mode, where it has such tiles.
#[tactic(auto, unfolding(crate::specs::Tile::tile_says))]
fn tile_says(mode: u32, depth: u32, width: u32, height: u32) -> Result<Mode, Refusal>
    ensures says { answered result ≡ tile_says mode depth width height }
    ensures mode { IfOk result (λ m. m ≡ mode) }
{
    let m = Mode::try_from(mode)?;
    if !m.has_depth(depth) {
        return Err(Refusal::Depth);
    }
    if !is_native(mode, width, height) {
        return Err(Refusal::Size);
    }
    Ok(m)
}

// Whether one of the pixels is of 2^depth or more.
pub fn some_too_large(depth: u32, pixels: &[u8]) -> bool
    requires { depth ≤ 8 }
    ensures { result ≡ some (length pixels.now) (too_large depth pixels.now) }
{
    // Every byte is a pixel of depth 8.
    if depth == 8 {
        return false;
    }
    // The bits of all: they reach the limit exactly where some pixel does.
    let mut bits: u8 = 0;
    for &pixel in pixels {
        bits |= pixel;
    }
    words::up(1, depth) <= u32::from(bits)
}

#[tactic(auto, using(crate::proofs::Checks::packing))]
fn pack_says(
    mode: u32,
    depth: u32,
    width: u32,
    height: u32,
    pixels: &[u8],
    space: usize,
) -> Result<Mode, Refusal>
    ensures says { answered result ≡ pack_says mode depth width height pixels.now space }
    ensures mode { IfOk result (λ m. m ≡ mode) }
{
    let m = tile_says(mode, depth, width, height)?;
    let size = width * height;
    if pixels.len() != size as usize {
        return Err(Refusal::Length);
    }
    if some_too_large(depth, pixels) {
        return Err(Refusal::Pixel);
    }
    if space < (size * depth / 8) as usize {
        return Err(Refusal::Output);
    }
    Ok(m)
}

// Packs a native tile, and answers how many bytes it wrote.
pub fn pack_tile(
    mode: u32,
    depth: u32,
    width: u32,
    height: u32,
    pixels: &[u8],
    out: &mut [u8],
) -> Result<usize, Refusal>
    ensures { Wrote (pack_says mode depth width height pixels.now (length out.old)) (packed mode depth width height pixels.now) out.old (written_by result) out.new }
{
    let m = pack_says(mode, depth, width, height, pixels, out.len())?;
    let p = packing_of(m, depth, width, height);
    put_tile(p, pixels, 0, out, 0);
    Ok(byte_count(p))
}

#[tactic(auto, using(crate::proofs::Checks::unpacking))]
fn unpack_says(
    mode: u32,
    depth: u32,
    width: u32,
    height: u32,
    len: usize,
    space: usize,
) -> Result<Mode, Refusal>
    ensures says { answered result ≡ unpack_says mode depth width height len space }
    ensures mode { IfOk result (λ m. m ≡ mode) }
{
    let m = tile_says(mode, depth, width, height)?;
    let size = width * height;
    if len != (size * depth / 8) as usize {
        return Err(Refusal::Length);
    }
    if space < size as usize {
        return Err(Refusal::Output);
    }
    Ok(m)
}

// Unpacks a native tile, and answers how many pixels it wrote.
pub fn unpack_tile(
    mode: u32,
    depth: u32,
    width: u32,
    height: u32,
    bytes: &[u8],
    out: &mut [u8],
) -> Result<usize, Refusal>
    ensures { Wrote (unpack_says mode depth width height (length bytes.now) (length out.old)) (unpacked mode depth width height bytes.now) out.old (written_by result) out.new }
{
    let m = unpack_says(mode, depth, width, height, bytes.len(), out.len())?;
    let p = packing_of(m, depth, width, height);
    put_pixels(p, bytes, 0, out, 0);
    Ok(pixel_count(p))
}
