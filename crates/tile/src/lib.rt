// Native tiles: how each mode's pixels stand in bytes.
#![tactic(auto)]

pub mod calls;
pub mod chunky;
pub mod eights;
pub mod layouts;
pub mod planes;
pub mod sprites;
pub mod tiles;

pub use calls::{is_native, pack_tile, some_too_large, unpack_tile};
pub use layouts::{byte_count, packing_of, pixel_count};
pub use tiles::{put_pixels, put_tile};

// How the bits of a tile's pixels stand in its bytes.
#[derive(Clone, Copy, Debug, PartialEq, Eq)]
pub enum Packing {
    // Planes in groups: a byte of each plane of the group for each row.
    Planar { group: usize, depth: usize },
    Ngp,
    // Nibbles, the first pixel in the low one or in the high one.
    LowFirst,
    HighFirst,
    // A byte a pixel.
    Plain,
    Sprite { width: usize, height: usize },
}
