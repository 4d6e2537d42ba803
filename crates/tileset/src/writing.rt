// Writing a set's tiles as bytes.
ghost use Rattle.std.specs.Prelude.{◌≡◌, ◌≤◌, IfOk, T, length};
ghost use Rattle.std.proofs.lemmas.List.Edits.{sets};
ghost use Rattle.words.specs.Answers.{overwrite, Wrote};
ghost use Rattle.words.specs.InnerResults.{answered, written_by};
ghost use Rattle.mode.specs.Table.{pce-sprite};
ghost use Rattle.tile.specs.Tile.{is_native};
ghost use Rattle.tileset.specs.Writing.{padded_cells, cells_of, corner_of, block, cell_bytes, set_bytes, write_size, write_says};
ghost use Rattle.tileset.specs.Inner.{PutsCell, HasCorner, HasBlock};

use crate::held::Held;
use crate::numbers::{Cells, tile_of};
use crate::{Logical, Native, Set};
use mode::Mode;
use words::refusal::Refusal;

// Whole rows of cells for so many tiles.
fn padded_cells(cells: Cells, stored: u32) -> u32
    requires { stored ≤ 65535 }
    ensures { (result ≡ padded_cells cells.row cells.across cells.down stored) × (result ≤ 8390400) }
{
    let tiles = cells.tiles();
    (stored + (tiles - 1)) / tiles * cells.down * cells.row
}

// How many cells a set writes.
#[tactic(auto, unfolding(crate::specs::Writing::cell_count))]
fn cell_count(held: &Held) -> u32
    requires { held.now.set.mode ≡ pce-sprite → ⊥ }
    ensures { (result ≡ cells_of held.now.set) × (result ≤ 8390400) }
{
    let set = held.set;
    if set.width == 8 && set.height == 8 {
        return set.stored;
    }
    padded_cells(Cells::of(set.mode, set.width, set.height), set.stored)
}

// Where the pixels of a cell of a tile start.
fn corner(set: Set, c: Native, tile: Logical) -> usize
    requires { HasCorner set c.0 tile.0 }
    ensures { result ≡ corner_of set.mode set.width set.height c.0 }
{
    let cells = Cells::of(set.mode, set.width, set.height);
    let down = c.0 / cells.row % cells.down * 8 * set.width;
    let across = c.0 % cells.row % cells.across * 8;
    (tile.0 * (set.width * set.height) + down + across) as usize
}

// The block of eight by eight pixels that starts at a corner, of a store with rows of so many pixels.
fn take_block(store: &[u8], corner: usize, width: usize, out: &mut [u8])
    requires { HasBlock store.now corner width out.old }
    ensures { out.new ≡ block store.now corner width }
{
    for y in 0..8 {
        words::put_eight(store, corner + y * width, false, out, y * 8);
    }
}

// The bytes of a cell, from place at of out on; a cell after the last tile is blank.
fn put_cell(held: &Held, c: Native, out: &mut [u8], at: usize)
    requires { PutsCell held.now.set out.old at }
    ensures { out.new ≡ sets out.old at (cell_bytes held.now.set held.now.store.now c.0) }
{
    let set = held.set;
    let p = tile::packing_of(Mode::at(set.mode), set.depth, 8, 8);
    let mut cell = [0u8; 64];
    let tile = tile_of(set.mode, set.width, set.height, c);
    if tile.0 < set.stored {
        take_block(
            held.store,
            corner(set, c, tile),
            set.width as usize,
            &mut cell,
        );
    }
    tile::put_tile(p, &cell, 0, out, at);
}

// The cells of a set, one after the other.
fn put_cells(held: &Held, out: &mut [u8])
    requires { (write_size held.now.set ≤ length out.old) × (held.now.set.mode ≡ pce-sprite → ⊥) }
    ensures { out.new ≡ overwrite out.old (set_bytes held.now.set held.now.store.now) }
{
    let size = (held.set.depth * 8) as usize;
    for c in 0..cell_count(held) {
        put_cell(held, Native(c), out, (c as usize) * size);
    }
}

// Tiles of a native size, one after the other, straight from the store.
fn put_tiles(held: &Held, out: &mut [u8])
    requires { (write_size held.now.set ≤ length out.old) × T (is_native held.now.set.mode held.now.set.width held.now.set.height) }
    ensures { out.new ≡ overwrite out.old (set_bytes held.now.set held.now.store.now) }
{
    let set = held.set;
    let p = tile::packing_of(Mode::at(set.mode), set.depth, set.width, set.height);
    let n = (set.width * set.height) as usize;
    let size = tile::byte_count(p);
    for i in 0..set.stored as usize {
        tile::put_tile(p, held.store, i * n, out, i * size);
    }
}

// How many bytes a set has.
fn write_size(held: &Held) -> usize
    ensures { result ≡ write_size held.now.set }
{
    let set = held.set;
    if set.mode == Mode::PCE_SPRITE.number() {
        let size = set.width * set.height * set.depth / 8;
        return (set.stored * size) as usize;
    }
    (cell_count(held) * (set.depth * 8)) as usize
}

// How many bytes are written, where there is room for so many.
fn size_written(held: &Held, space: usize) -> Result<usize, Refusal>
    ensures says { answered result ≡ write_says held.now.set held.now.store.now space }
    ensures size { IfOk result (λ n. n ≡ write_size held.now.set) }
{
    let set = held.set;
    let count = (set.stored * (set.width * set.height)) as usize;
    if tile::some_too_large(set.depth, &held.store[..count]) {
        return Err(Refusal::Pixel);
    }
    let size = write_size(held);
    if space < size {
        return Err(Refusal::Output);
    }
    Ok(size)
}

// Writes a set's tiles as bytes, and answers how many.
pub fn write(set: Set, store: &[u8], out: &mut [u8]) -> Result<usize, Refusal>
    ensures { Wrote (write_says set store.now (length out.old)) (set_bytes set store.now) out.old (written_by result) out.new }
{
    let held = Held::of(set, store)?;
    let size = size_written(&held, out.len())?;
    if tile::is_native(set.mode, set.width, set.height) {
        put_tiles(&held, out);
    } else {
        put_cells(&held, out);
    }
    Ok(size)
}
