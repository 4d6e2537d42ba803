// Reading a set's tiles from bytes.
ghost use Rattle.std.specs.Prelude.{◌≡◌, ◌<◌, IfOk, T};
ghost use Rattle.std.proofs.lemmas.List.Edits.{sets};
ghost use Rattle.words.specs.Answers.{overwrite};
ghost use Rattle.words.specs.InnerResults.{answered};
ghost use Rattle.words.specs.Loops.{each};
ghost use Rattle.mode.specs.Table.{pce-sprite};
ghost use Rattle.tile.specs.Tile.{is_native};
ghost use Rattle.tileset.specs.Sets.{no_set, set_says};
ghost use Rattle.tileset.specs.Reading.{whole_tiles, unit_bytes, read_count, read_says, read_pixels, Reads};
ghost use Rattle.tileset.specs.Inner.{ReadsAll, ReadsCells, ReadsRows, ReadsRow, cells_in, row_of};
ghost use Rattle.tileset.specs.InnerResults.{set_answer_by};

use crate::numbers::Cells;
use crate::shape::Shape;
use crate::{Logical, Native, Set};
use mode::Mode;
use words::refusal::Refusal;

// How many tiles come before the first incomplete one of so many cells.
fn whole_tiles(cells: Cells, count: usize) -> usize
    ensures { result ≡ whole_tiles cells.row cells.across cells.down count }
{
    let row = cells.row as usize;
    let strip = cells.down as usize * row;
    let above = (cells.down as usize - 1) * row;
    let whole = count / strip * cells.tiles() as usize;
    let rest = count % strip;
    if rest < above {
        return whole;
    }
    whole + (rest - above) / cells.across as usize
}

// What reading takes whole: the bytes of a sprite, or of a cell.
fn unit_bytes(shape: &Shape) -> usize
    ensures { (result ≡ unit_bytes shape.now.mode shape.now.depth shape.now.width shape.now.height) × (0 < result) }
{
    if shape.mode == Mode::PCE_SPRITE {
        return shape.area() * shape.depth as usize / 8;
    }
    (shape.depth * 8) as usize
}

// How many tiles so many bytes hold.
fn read_count(shape: &Shape, len: usize) -> usize
    ensures { result ≡ read_count shape.now.mode shape.now.depth shape.now.width shape.now.height len }
{
    let units = len / unit_bytes(shape);
    if shape.mode == Mode::PCE_SPRITE {
        return units;
    }
    whole_tiles(shape.cells(), units)
}

// How many tiles are read of so many bytes, into a store of so many pixels.
fn count_read(shape: &Shape, len: usize, space: usize) -> Result<u32, Refusal>
    ensures says { answered result ≡ read_says shape.now.mode shape.now.depth shape.now.width shape.now.height len space }
    ensures count { IfOk result (λ n. n ≡ read_count shape.now.mode shape.now.depth shape.now.width shape.now.height len) }
{
    if len % unit_bytes(shape) != 0 {
        return Err(Refusal::Length);
    }
    let count = read_count(shape, len);
    if space / shape.area() < count {
        return Err(Refusal::Output);
    }
    if 65535 < count {
        return Err(Refusal::Room);
    }
    Ok(count as u32)
}

// The pixels of a tile's cells, cell after cell.
fn unpack_cells(shape: &Shape, bytes: &[u8], n: Logical, out: &mut [u8])
    requires { ReadsCells shape.now bytes.now n.0 out.old }
    ensures { out.new ≡ overwrite out.old (cells_in shape.now.mode shape.now.depth shape.now.width shape.now.height bytes.now n.0) }
{
    let p = tile::packing_of(shape.mode, shape.depth, 8, 8);
    let size = (shape.depth * 8) as usize;
    let cells = shape.cells();
    let first = cells.starts_at(n);
    for i in 0..cells.across * cells.down {
        let cell = Native(first.0 + i / cells.across * cells.row + i % cells.across);
        tile::put_pixels(p, bytes, (cell.0 as usize) * size, out, (i as usize) * 64);
    }
}

// Row y of a tile, out of its cells' pixels, eight at a time.
fn put_row(cells: &[u8], width: usize, y: usize, out: &mut [u8], at: usize)
    requires { ReadsRow width y cells.now out.old at }
    ensures { out.new ≡ sets out.old at (row_of width cells.now y) }
{
    let above = y / 8 * (width / 8);
    let down = y % 8 * 8;
    for x in 0..width / 8 {
        words::put_eight(cells, (above + x) * 64 + down, false, out, at + x * 8);
    }
}

// The rows of a tile, one after the other.
fn put_rows(cells: &[u8], width: usize, height: usize, out: &mut [u8], at: usize)
    requires { ReadsRows width height cells.now out.old at }
    ensures { out.new ≡ sets out.old at (each height (row_of width cells.now)) }
{
    for y in 0..height {
        put_row(cells, width, y, out, at + y * width);
    }
}

// Tiles in rows of cells, one after the other, out of their cells.
fn put_cells(shape: &Shape, count: u32, bytes: &[u8], store: &mut [u8])
    requires { ReadsAll shape.now count bytes.now store.old × (shape.now.mode ≡ pce-sprite → ⊥) }
    ensures { store.new ≡ overwrite store.old (read_pixels shape.now.mode shape.now.depth shape.now.width shape.now.height bytes.now) }
{
    let mut cells = [0u8; 4096];
    let w = shape.width as usize;
    let h = shape.height as usize;
    for n in 0..count {
        unpack_cells(shape, bytes, Logical(n), &mut cells);
        put_rows(&cells, w, h, store, (n as usize) * (w * h));
    }
}

// Tiles of a native size, one after the other, straight into the store.
fn put_tiles(shape: &Shape, count: u32, bytes: &[u8], store: &mut [u8])
    requires { ReadsAll shape.now count bytes.now store.old × T (is_native shape.now.mode shape.now.width shape.now.height) }
    ensures { store.new ≡ overwrite store.old (read_pixels shape.now.mode shape.now.depth shape.now.width shape.now.height bytes.now) }
{
    let p = tile::packing_of(shape.mode, shape.depth, shape.width, shape.height);
    let n = shape.area();
    let size = tile::byte_count(p);
    for i in 0..count as usize {
        tile::put_pixels(p, bytes, i * size, store, i * n);
    }
}

// Reads a set's tiles from bytes.
pub fn read(
    mode: u32,
    depth: u32,
    width: u32,
    height: u32,
    flips: bool,
    bytes: &[u8],
    store: &mut [u8],
) -> Result<Set, Refusal>
    ensures { Reads mode depth width height flips bytes.now store.old (set_answer_by no_set result) store.new }
{
    let shape = Shape::of(mode, depth, width, height)?;
    let count = count_read(&shape, bytes.len(), store.len())?;
    if tile::is_native(mode, width, height) {
        put_tiles(&shape, count, bytes, store);
    } else {
        put_cells(&shape, count, bytes, store);
    }
    Ok(Set {
        mode,
        depth,
        width,
        height,
        flips,
        discarding: true,
        limit: 0,
        stored: count,
        discarded: 0,
    })
}
