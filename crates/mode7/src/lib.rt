// The mode 7 block: a 128x128 map and 256 tiles of 64 pixels, byte beside byte, as the console holds them.
#![tactic(auto)]

ghost use Rattle.std.specs.Prelude.{◌≡◌, [], ◌∷◌, ◌+◌, ◌*◌, ◌≤◌, length};
ghost use Rattle.std.proofs.lemmas.List.Edits.{sets};
ghost use Rattle.words.specs.Answers.{Wrote, overwrite};
ghost use Rattle.words.specs.InnerResults.{answered, written_by};
ghost use Rattle.mode7.specs.Block.{block_of, tile_half, map_half, make_says, split_says, Splits};
ghost use Rattle.mode7.specs.Inner.{CanMake, CanSplit};

use words::refusal::Refusal;

// The pairs of a block, as many as either half has bytes: 128 x 128, and 256 x 64.
const PAIRS: usize = 16384;

// The bytes of a block.
const BLOCK: usize = 32768;

#[tactic(auto, unfolding(crate::specs::Block::make_says))]
fn make_says(tiles: usize, map: usize, space: usize) -> Result<(), Refusal>
    ensures { answered result ≡ make_says tiles map space }
{
    if PAIRS < tiles {
        return Err(Refusal::Length);
    }
    if PAIRS < map {
        return Err(Refusal::Length);
    }
    if space < BLOCK {
        return Err(Refusal::Output);
    }
    Ok(())
}

// Pair i: the map's byte, which is the even one, and the tiles'.
fn put_pair(out: &mut [u8], i: usize, of_map: u8, of_tiles: u8)
    requires { i * 2 + 2 ≤ length out.old }
    ensures { out.new ≡ sets out.old (i * 2) (of_map ∷ of_tiles ∷ []) }
{
    out[i * 2] = of_map;
    out[i * 2 + 1] = of_tiles;
}

// All pairs of a block: where both inputs have a byte, where one has, and where none has. Within a loop nothing asks whether an input has ended,
// so that the compiler moves many pairs at once; that is why they are four, and a call of a function for them all would be as long as each.
fn put_block(tiles: &[u8], map: &[u8], out: &mut [u8])
    requires { CanMake (length tiles.now) (length map.now) (length out.old) }
    ensures { out.new ≡ overwrite out.old (block_of tiles.now map.now) }
{
    let both = tiles.len().min(map.len());
    let either = tiles.len().max(map.len());
    for i in 0..both {
        put_pair(out, i, map[i], tiles[i]);
    }
    for i in both..map.len() {
        put_pair(out, i, map[i], 0);
    }
    for i in map.len()..either {
        put_pair(out, i, 0, tiles[i]);
    }
    for i in either..PAIRS {
        put_pair(out, i, 0, 0);
    }
}

// A block from tile bytes and map bytes.
pub fn make(tiles: &[u8], map: &[u8], out: &mut [u8]) -> Result<usize, Refusal>
    ensures { Wrote (make_says (length tiles.now) (length map.now) (length out.old)) (block_of tiles.now map.now) out.old (written_by result) out.new }
{
    make_says(tiles.len(), map.len(), out.len())?;
    put_block(tiles, map, out);
    Ok(BLOCK)
}

#[tactic(auto, unfolding(crate::specs::Block::split_says))]
fn split_says(block: usize, tile_space: usize, map_space: usize) -> Result<(), Refusal>
    ensures { answered result ≡ split_says block tile_space map_space }
{
    if block != BLOCK {
        return Err(Refusal::Length);
    }
    if tile_space < PAIRS {
        return Err(Refusal::Output);
    }
    if map_space < PAIRS {
        return Err(Refusal::Output);
    }
    Ok(())
}

// Both halves at once: a pair is read where it stands.
fn put_halves(block: &[u8], tiles: &mut [u8], map: &mut [u8])
    requires { CanSplit (length block.now) (length tiles.old) (length map.old) }
    ensures { (tiles.new ≡ overwrite tiles.old (tile_half block.now)) × (map.new ≡ overwrite map.old (map_half block.now)) }
{
    for i in 0..PAIRS {
        map[i] = block[i * 2];
        tiles[i] = block[i * 2 + 1];
    }
}

// A block's tile bytes and its map bytes.
pub fn split(block: &[u8], tiles: &mut [u8], map: &mut [u8]) -> Result<usize, Refusal>
    ensures { Splits (split_says (length block.now) (length tiles.old) (length map.old)) block.now tiles.old map.old (written_by result) tiles.new map.new }
{
    split_says(block.len(), tiles.len(), map.len())?;
    put_halves(block, tiles, map);
    Ok(PAIRS)
}
