// Looking a tile up: the first stored tile that matches it, under a flip.
ghost use Rattle.std.specs.Prelude.{◌≡◌, ◌*◌, length};
ghost use Rattle.std.proofs.lemmas.List.Edits.{sets};
ghost use Rattle.tileset.specs.Sets.{look_says};
ghost use Rattle.tileset.specs.Finding.{cut_to, tiles_in, look_up, found_in, placed};
ghost use Rattle.tileset.specs.Inner.{Cuts, Finds, Looks};
ghost use Rattle.tileset.specs.InnerResults.{place_by};

use crate::sets::look_says;
use crate::{Found, Logical, Set};
use words::refusal::Refusal;

// The pixels, cut to their low depth bits, from place at of out on.
pub fn put_cut(depth: u32, pixels: &[u8], out: &mut [u8], at: usize)
    requires { Cuts depth pixels.now out.old at }
    ensures { out.new ≡ sets out.old at (cut_to depth pixels.now) }
{
    for i in 0..pixels.len() {
        out[at + i] = words::low(u32::from(pixels[i]), depth) as u8;
    }
}

// The first of so many tiles of the store that matches the tile.
pub fn find(
    store: &[u8],
    count: u32,
    tile: &[u8],
    width: usize,
    height: usize,
    flips: bool,
) -> Found
    requires { Finds store.now count tile.now width height }
    ensures { result ≡ look_up flips width height (tiles_in (width * height) store.now count) tile.now }
{
    let n = width * height;
    for k in 0..count {
        if let Some(f) = flip::match_flip(store, (k as usize) * n, tile, width, height, flips) {
            return Found::At(Logical(k), f);
        }
    }
    Found::Nothing
}

// What a look-up finds in a set.
pub fn found_in(set: Set, store: &[u8], pixels: &[u8]) -> Found
    requires { Looks set store.now pixels.now }
    ensures { result ≡ found_in set store.now pixels.now }
{
    let mut tile = [0u8; 4096];
    put_cut(set.depth, pixels, &mut tile, 0);
    let n = pixels.len();
    find(
        store,
        set.stored,
        &tile[..n],
        set.width as usize,
        set.height as usize,
        set.flips,
    )
}

// Looks a tile up.
#[tactic(auto, using(crate::proofs::Says::look_up_rules))]
pub fn look_up(set: Set, store: &[u8], pixels: &[u8]) -> Result<Found, Refusal>
    ensures { place_by result ≡ placed (look_says set (length store.now) (length pixels.now)) (found_in set store.now pixels.now) }
{
    look_says(set, store.len(), pixels.len())?;
    Ok(found_in(set, store, pixels))
}
