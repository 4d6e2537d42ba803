// A tile of any packing, at any place: its pixels to bytes, and its bytes to pixels.
ghost use Rattle.std.specs.Prelude.{◌≡◌, take, drop};
ghost use Rattle.std.proofs.lemmas.List.Edits.{sets};
ghost use Rattle.tile.specs.Inner.{pixel_count, byte_count, packed_in, unpacked_in, Packs, Unpacks};

use crate::Packing;
use crate::chunky::{put_chunky, put_chunky_rows, put_plain};
use crate::layouts::{byte_count, pixel_count};
use crate::planes::{put_plane_rows, put_planes};
use crate::sprites::{put_sprite, put_sprite_rows};

// The bytes, from place at of out on, of the tile whose pixels stand from place from on.
pub fn put_tile(p: Packing, pixels: &[u8], from: usize, out: &mut [u8], at: usize)
    requires { Packs p pixels.now from out.old at }
    ensures { out.new ≡ sets out.old at (packed_in p (take (pixel_count p) (drop from pixels.now))) }
{
    let end = from + pixel_count(p);
    let tile = &pixels[from..end];
    match p {
        Packing::Planar { group, depth } => put_planes(tile, group, depth, out, at),
        Packing::Plain => put_plain(tile, out, at),
        Packing::Sprite { width, height } => put_sprite(tile, width, height, out, at),
        _ => put_chunky(p, tile, out, at),
    }
}

// The pixels, from place at of out on, of the tile whose bytes stand from place from on.
pub fn put_pixels(p: Packing, bytes: &[u8], from: usize, out: &mut [u8], at: usize)
    requires { Unpacks p bytes.now from out.old at }
    ensures { out.new ≡ sets out.old at (unpacked_in p (take (byte_count p) (drop from bytes.now))) }
{
    let end = from + byte_count(p);
    let tile = &bytes[from..end];
    match p {
        Packing::Planar { group, depth } => put_plane_rows(tile, group, depth, out, at),
        Packing::Plain => put_plain(tile, out, at),
        Packing::Sprite { width, height } => put_sprite_rows(tile, width, height, out, at),
        _ => put_chunky_rows(p, tile, out, at),
    }
}
