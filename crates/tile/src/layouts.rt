// Which packing a mode's tiles have, and how many pixels and bytes a packing has.
ghost use Rattle.std.specs.Prelude.{◌≡◌, ◌<◌, T};
ghost use Rattle.tile.specs.Inner.{pixel_count, byte_count, is_packing};
ghost use Rattle.tile.specs.Tile.{pairs, fours, gba_packing, wsc_packing, packing_of};

use crate::Packing;
use mode::Mode;

// How many pixels a tile has.
pub fn pixel_count(p: Packing) -> usize
    requires { T (is_packing p) }
    ensures { result ≡ pixel_count p }
{
    match p {
        Packing::Planar { group: _, depth: _ } => 64,
        Packing::Ngp => 64,
        Packing::LowFirst => 64,
        Packing::HighFirst => 64,
        Packing::Plain => 64,
        Packing::Sprite { width, height } => width * height,
    }
}

// How many bytes a tile has.
pub fn byte_count(p: Packing) -> usize
    requires { T (is_packing p) }
    ensures { result ≡ byte_count p }
{
    match p {
        Packing::Planar { group: _, depth } => depth * 8,
        Packing::Ngp => 16,
        Packing::LowFirst => 32,
        Packing::HighFirst => 32,
        Packing::Plain => 64,
        Packing::Sprite { width, height } => width * height / 2,
    }
}

// Planes in pairs; a single plane stands alone.
fn pairs(depth: u32) -> Packing
    ensures { result ≡ pairs depth }
{
    if depth == 1 {
        return Packing::Planar { group: 1, depth: 1 };
    }
    Packing::Planar {
        group: 2,
        depth: depth as usize,
    }
}

fn fours() -> Packing
    ensures { result ≡ fours }
{
    Packing::Planar { group: 4, depth: 4 }
}

fn gba_packing(depth: u32) -> Packing
    ensures { result ≡ gba_packing depth }
{
    if depth == 4 {
        return Packing::LowFirst;
    }
    Packing::Plain
}

fn wsc_packing(depth: u32) -> Packing
    ensures { result ≡ wsc_packing depth }
{
    if depth == 2 {
        return pairs(depth);
    }
    fours()
}

fn sprite_packing(width: u32, height: u32) -> Packing
    ensures { result ≡ Packing.Sprite width height }
{
    Packing::Sprite {
        width: width as usize,
        height: height as usize,
    }
}

// How a mode packs its tiles.
#[tactic(auto, unfolding(crate::specs::Tile::packing_of))]
pub fn packing_of(m: Mode, depth: u32, width: u32, height: u32) -> Packing
    ensures { result ≡ packing_of m depth width height }
{
    match m {
        Mode::SNES => pairs(depth),
        Mode::SNES_MODE7 => Packing::Plain,
        Mode::GB => pairs(depth),
        Mode::GBC => pairs(depth),
        Mode::GBA => gba_packing(depth),
        Mode::GBA_AFFINE => Packing::Plain,
        Mode::MD => Packing::LowFirst,
        Mode::SMS => fours(),
        Mode::GG => fours(),
        Mode::PCE => pairs(depth),
        Mode::PCE_SPRITE => sprite_packing(width, height),
        Mode::NGP => Packing::Ngp,
        Mode::NGPC => Packing::Ngp,
        Mode::WS => pairs(depth),
        Mode::WSC => wsc_packing(depth),
        _ => Packing::HighFirst,
    }
}
