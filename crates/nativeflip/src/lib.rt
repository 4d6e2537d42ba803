// Native tiles flipped straight on their bytes: a flipped tile's are the tile's own in another order, the pixels of each in another order.
#![tactic(auto)]

pub mod reversed;
pub mod turns;

ghost use Rattle.std.specs.Prelude.{◌≡◌, true, false, length, IfOk};
ghost use Rattle.std.proofs.lemmas.List.Edits.{sets};
ghost use Rattle.words.specs.Answers.{Wrote};
ghost use Rattle.words.specs.InnerResults.{answered, written_by};
ghost use Rattle.tile.specs.Inner.{packed_in, unpacked_in};
ghost use Rattle.tile.specs.Layout.{spread};
ghost use Rattle.tile.specs.Tile.{packing_of};
ghost use Rattle.flip.specs.Flips.{flip, flipped};
ghost use Rattle.nativeflip.specs.Flipping.{flip_says, flipped_bytes};
ghost use Rattle.nativeflip.specs.Inner.{planes_turned, pixels_turned, HasRows, HasTile};

use crate::reversed::REVERSED;
use crate::turns::{put_reversed, put_rows, put_turned};
use flip::Flip;
use mode::Mode;
use tile::Packing;
use words::refusal::Refusal;

// How the tile is packed, where a mode has such tiles.
#[tactic(auto, unfolding(crate::specs::Flipping::flip_says))]
fn flip_says(mode: u32, depth: u32, len: usize, space: usize) -> Result<Packing, Refusal>
    ensures says { answered result ≡ flip_says mode depth len space }
    ensures packing { IfOk result (λ p. p ≡ packing_of mode depth 8 8) }
{
    let m = Mode::try_from(mode)?;
    if m == Mode::PCE_SPRITE {
        return Err(Refusal::PceSprite);
    }
    if !m.has_depth(depth) {
        return Err(Refusal::Depth);
    }
    let size = depth as usize * 8;
    if len != size {
        return Err(Refusal::Length);
    }
    if space < size {
        return Err(Refusal::Output);
    }
    Ok(tile::packing_of(m, depth, 8, 8))
}

// Planes with each row in reverse order. The table is lent here, once a call: indexed where it is read, it would be written to the stack for each
// byte, and lent a function above, for tiles that have no use for it.
fn put_mirrored(group: usize, depth: usize, down: bool, bytes: &[u8], out: &mut [u8])
    requires { HasRows group depth false bytes.now out.old }
    ensures { out.new ≡ sets out.old 0 (spread (planes_turned group true down (length bytes.now)) bytes.now) }
{
    put_reversed(&REVERSED, group, depth, down, bytes, out);
}

fn put_planes(group: usize, depth: usize, f: Flip, bytes: &[u8], out: &mut [u8])
    requires { HasRows group depth false bytes.now out.old }
    ensures { out.new ≡ sets out.old 0 (spread (planes_turned group f.h f.v (length bytes.now)) bytes.now) }
{
    if f.h {
        put_mirrored(group, depth, f.v, bytes, out);
        return;
    }
    put_rows(group, depth, f.v, bytes, out);
}

// Pixels that stand one after the other, of so many bits: these are a number when it is compiled.
fn put_pixels<const BITS: usize>(f: Flip, bytes: &[u8], out: &mut [u8])
    requires { HasRows BITS BITS f.h bytes.now out.old }
    ensures { out.new ≡ sets out.old 0 (spread (pixels_turned BITS f.h f.v (length bytes.now)) bytes.now) }
{
    put_turned(BITS, BITS, f, bytes, out);
}

// The bytes of a flipped tile of any packing but a sprite's.
fn put_flipped(p: Packing, f: Flip, bytes: &[u8], out: &mut [u8])
    requires { HasTile p bytes.now out.old }
    ensures { out.new ≡ sets out.old 0 (packed_in p (flipped f 8 8 (unpacked_in p bytes.now))) }
{
    match p {
        Packing::Planar { group, depth } => put_planes(group, depth, f, bytes, out),
        Packing::Ngp => put_pixels::<2>(f, bytes, out),
        Packing::Plain => put_pixels::<8>(f, bytes, out),
        _ => put_pixels::<4>(f, bytes, out),
    }
}

// Flips a native 8x8 tile, and answers how many bytes it wrote.
pub fn flip_tile(
    mode: u32,
    depth: u32,
    flip_h: bool,
    flip_v: bool,
    bytes: &[u8],
    out: &mut [u8],
) -> Result<usize, Refusal>
    ensures { Wrote (flip_says mode depth (length bytes.now) (length out.old)) (flipped_bytes mode depth (flip flip_h flip_v) bytes.now) out.old (written_by result) out.new }
{
    let p = flip_says(mode, depth, bytes.len(), out.len())?;
    let f = Flip {
        h: flip_h,
        v: flip_v,
    };
    put_flipped(p, f, bytes, out);
    Ok(bytes.len())
}
