// The four flips of a tile, and whether one tile is another under a flip.
#![tactic(auto)]

ghost use Rattle.std.specs.Prelude.{◌≡◌, ◌+◌, ◌*◌, ◌<◌, ◌≤◌, take, drop};
ghost use Rattle.words.specs.Bytes.{same};
ghost use Rattle.flip.specs.Flips.{turned, flip_at, flipped};
ghost use Rattle.flip.specs.Matching.{match_flip};
ghost use Rattle.flip.specs.Inner.{RowAs, Compares, ComparesRow, eight_from};

// Which way a tile is turned: h reverses each row, v the order of rows.
#[derive(Clone, Copy, Debug, PartialEq, Eq)]
pub struct Flip {
    pub h: bool,
    pub v: bool,
}

impl Flip {
    pub const IDENTITY: Flip = Flip { h: false, v: false };

    pub const H: Flip = Flip { h: true, v: false };

    pub const V: Flip = Flip { h: false, v: true };

    pub const HV: Flip = Flip { h: true, v: true };
}

// Place x of n, counted from the other end where the flip is on.
pub fn turned(on: bool, n: usize, x: usize) -> usize
    requires { x < n }
    ensures { (result ≡ turned on n x) × (result < n) }
{
    if on {
        return n - 1 - x;
    }
    x
}

// Where the pixel at place i of a flipped 8x8 tile stands in the tile.
#[tactic(auto, unfolding(crate::specs::Flips::flip_at))]
pub fn flip_at(f: Flip, i: usize) -> usize
    requires { i < 64 }
    ensures { (result ≡ flip_at f 8 8 i) × (result < 64) }
{
    turned(f.v, 8, i / 8) * 8 + turned(f.h, 8, i % 8)
}

// Where the eight pixels at place x of a row of so many stand in the row, turned or not.
fn eight_from(across: bool, width: usize, x: usize) -> usize
    requires { x + 8 ≤ width }
    ensures { (result ≡ eight_from across width x) × (result + 8 ≤ width) }
{
    if across {
        return width - 8 - x;
    }
    x
}

// Whether a row of the tile, from place i on, is the store's row from place from on, turned or not: eight pixels at a time.
fn same_row(store: &[u8], from: usize, tile: &[u8], i: usize, width: usize, across: bool) -> bool
    requires { ComparesRow store.now from tile.now i width }
    ensures { RowAs across store.now from tile.now i width result }
{
    for k in 0..width / 8 {
        let x = k * 8;
        let stored = words::word_at(store, from + eight_from(across, width, x), across);
        if stored != words::word_at(tile, i + x, false) {
            return false;
        }
    }
    true
}

// Whether the tile that stands at place at of the store is the given tile under the flip: row by row, at flipped places. What is compared comes as
// plain parameters, here and below: callers pass them on as they have them, and a struct would be made for one call and taken apart in it.
pub fn same_flipped(
    store: &[u8],
    at: usize,
    tile: &[u8],
    width: usize,
    height: usize,
    f: Flip,
) -> bool
    requires { Compares store.now at tile.now width height }
    ensures { result ≡ same (flipped f width height (take (width * height) (drop at store.now))) tile.now }
{
    for y in 0..height {
        let from = at + turned(f.v, height, y) * width;
        if !same_row(store, from, tile, y * width, width, f.h) {
            return false;
        }
    }
    true
}

// The first of identity, h, v, hv under which the tile at place at of the store is the given tile; the identity alone with flips off. They are tried
// one after the other, and each comparison is compiled for its flip: a loop over the four takes twice as long, and a closure that compares, for it is
// called then, up to a third longer.
#[tactic(auto, unfolding(crate::specs::Matching::match_flip))]
pub fn match_flip(
    store: &[u8],
    at: usize,
    tile: &[u8],
    width: usize,
    height: usize,
    flips: bool,
) -> Option<Flip>
    requires { Compares store.now at tile.now width height }
    ensures { result ≡ match_flip flips width height (take (width * height) (drop at store.now)) tile.now }
{
    if same_flipped(store, at, tile, width, height, Flip::IDENTITY) {
        return Some(Flip::IDENTITY);
    }
    if !flips {
        return None;
    }
    if same_flipped(store, at, tile, width, height, Flip::H) {
        return Some(Flip::H);
    }
    if same_flipped(store, at, tile, width, height, Flip::V) {
        return Some(Flip::V);
    }
    if same_flipped(store, at, tile, width, height, Flip::HV) {
        return Some(Flip::HV);
    }
    None
}
