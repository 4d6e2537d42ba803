// Pictures: conversion into tiles and a map, and redrawing.
#![tactic(auto)]

pub mod stored;

ghost use Rattle.std.specs.Prelude.{◌≡◌, false, ◌&&◌, [], ◌∷◌, ◌++◌, ◌+◌, ◌*◌, ◌%◌, ◌^◌, ◌<◌, ◌≤◌, leb, eqb, length, get_or};
ghost use Rattle.std.proofs.lemmas.List.Edits.{sets};
ghost use Rattle.words.specs.Answers.{overwrite, Wrote};
ghost use Rattle.words.specs.InnerResults.{answered, written_by};
ghost use Rattle.words.specs.Loops.{each, some};
ghost use Rattle.mode.specs.Table.{row};
ghost use Rattle.mapentry.specs.Entry.{misfit_of, misfit_says};
ghost use Rattle.flip.specs.Flips.{flipped};
ghost use Rattle.picture.specs.Cells.{cut_tile};
ghost use Rattle.picture.specs.Entries.{entry_as, tile_named};
ghost use Rattle.picture.specs.Converting.{is_span, size_says, picture_room, convert_says, Converts};
ghost use Rattle.picture.specs.Continuing.{unpacked_tiles, GoesOn};
ghost use Rattle.picture.specs.Redrawing.{entry_at, drawn_tile, drawn, redraw_says};
ghost use Rattle.picture.specs.Inner.{asked_says, CanGoOn, HasTile, code_of, entry_coded, PutsTiles, PutsMap, put_tiles, put_entries, PutsPicture, PutAs, HasEntries, DrawsTile, DrawsStrip, Draws, strip_of, pixel_line, PutsLines, goes_on_says};
ghost use Rattle.picture.specs.InnerResults.{picture_by};

use flip::Flip;
use index::Index;
use mapentry::Mapentry;
use mode::Mode;
use stored::{Source, Store, read_tile};
use tileset::{Found, Logical, Native};
use words::refusal::Refusal;

// What a picture is converted by. Its size is counted in tiles.
#[derive(Clone, Copy, Debug, PartialEq, Eq)]
pub struct Settings {
    pub mode: u32,
    pub depth: u32,
    pub flip: bool,
    pub discard: bool,
    pub limit: u32,
    pub palette: u32,
    pub columns: u32,
    pub rows: u32,
}

// What a conversion has done: how many tiles are stored and were discarded, and how many bytes of each buffer are written.
#[derive(Clone, Copy, Debug, PartialEq, Eq)]
pub struct Counts {
    pub tiles: u32,
    pub discarded: u32,
    pub tile_bytes: usize,
    pub map_bytes: usize,
}

// What a host is told of a conversion: document 01's number, and the counts.
#[repr(C)]
#[derive(Clone, Copy, Debug, PartialEq, Eq)]
pub struct Picture {
    pub refusal: u32,
    pub tiles: u32,
    pub discarded: u32,
    pub tile_bytes: usize,
    pub map_bytes: usize,
}

impl From<Result<Counts, Refusal>> for Picture {
    ghost from_gives = { λ r p. p ≡ picture_by r };

    fn from(answer: Result<Counts, Refusal>) -> Picture {
        match answer {
            Ok(counts) => Picture {
                refusal: 0,
                tiles: counts.tiles,
                discarded: counts.discarded,
                tile_bytes: counts.tile_bytes,
                map_bytes: counts.map_bytes,
            },
            Err(refusal) => Picture {
                refusal: refusal.number(),
                tiles: 0,
                discarded: 0,
                tile_bytes: 0,
                map_bytes: 0,
            },
        }
    }
}

fn is_span(n: u32) -> bool
    ensures { result ≡ is_span n }
{
    0 < n && n <= 64
}

// Whether a mode has maps of this size.
pub fn size_says(mode: u32, depth: u32, columns: u32, rows: u32) -> Result<(), Refusal>
    ensures { answered result ≡ size_says mode depth columns rows }
{
    let m = Mode::try_from(mode)?;
    if m == Mode::PCE_SPRITE {
        return Err(Refusal::PceSprite);
    }
    if !m.has_depth(depth) {
        return Err(Refusal::Depth);
    }
    if !is_span(columns) {
        return Err(Refusal::Size);
    }
    if !is_span(rows) {
        return Err(Refusal::Size);
    }
    Ok(())
}

// Whether flips are on where there are none.
pub fn lacks_flips(m: Mode, flip: bool) -> bool
    ensures { result ≡ (flip && eqb (row m).flips 0) }
{
    if !flip {
        return false;
    }
    m.flip_bits() == 0
}

// Whether the mode's entries can hold the palette index.
pub fn palette_says(m: Mode, palette: u32) -> Result<(), Refusal>
    ensures { answered result ≡ misfit_says (misfit_of m (entry_as 0 palette false false)) }
{
    let e = Mapentry {
        tile: 0,
        palette,
        flip_h: false,
        flip_v: false,
        priority: false,
    };
    match mapentry::first_misfit(m, e) {
        Some(misfit) => Err(Refusal::from(misfit)),
        None => Ok(()),
    }
}

// Every check of a conversion that counts no tiles.
fn asked_says(settings: Settings, len: usize, space: usize) -> Result<(), Refusal>
    ensures { answered result ≡ asked_says settings len space }
{
    size_says(
        settings.mode,
        settings.depth,
        settings.columns,
        settings.rows,
    )?;
    let m = Mode::at(settings.mode);
    if lacks_flips(m, settings.flip) {
        return Err(Refusal::Flips);
    }
    let count = (settings.columns * settings.rows) as usize;
    if len != 64 * count {
        return Err(Refusal::Length);
    }
    palette_says(m, settings.palette)?;
    if space < count * mapentry::mapentry_size(m) {
        return Err(Refusal::Output);
    }
    Ok(())
}

// The most tiles that a mode's entries can name.
pub fn most_tiles(m: Mode) -> usize
    ensures { result ≡ 2 ^ (row m).tile }
{
    words::up(1, m.tile_bits()) as usize
}

// How many tiles a picture may have, in a tile buffer of so many bytes.
pub fn picture_room(settings: Settings, len: usize) -> usize
    requires { (settings.mode < 16) × (0 < settings.depth) × (settings.depth ≤ 8) }
    ensures { result ≡ picture_room settings len }
{
    let whole = len / (settings.depth * 8) as usize;
    let most = most_tiles(Mode::at(settings.mode)).min(whole);
    tileset::room(settings.limit, most)
}

// Eight pixels, from place from on, cut to the depth, from place at of out on.
fn cut_eight(depth: u32, pixels: &[u8], from: usize, out: &mut [u8], at: usize)
    requires { (depth ≤ 8) × (from + 8 ≤ length pixels.now) × (at + 8 ≤ length out.old) }
    ensures { out.new ≡ sets out.old at (each 8 (λ x. get_or pixels.now (from + x) 0 % 2 ^ depth ∷ [])) }
{
    for x in 0..8 {
        out[at + x] = words::low(u32::from(pixels[from + x]), depth) as u8;
    }
}

// Tile i of a picture.
pub fn take_tile(depth: u32, pixels: &[u8], columns: usize, i: usize) -> [u8; 64]
    requires { HasTile depth pixels.now columns i }
    ensures { result ≡ cut_tile depth 8 8 columns pixels.now i }
{
    let mut tile = [0u8; 64];
    let line = columns * 8;
    let corner = i / columns * 8 * line + i % columns * 8;
    for y in 0..8 {
        cut_eight(depth, pixels, corner + y * line, &mut tile, y * 8);
    }
    tile
}

// A place with its flip as one number.
fn code(tile: Logical, f: Flip) -> u16
    requires { tile.0 ≤ 4096 }
    ensures { result ≡ code_of (Found.At tile f) }
{
    (tile.0 * 4 + u32::from(f.h) + 2 * u32::from(f.v)) as u16
}

// The bytes of the stored tiles that are not written, after those that are.
fn put_tiles(settings: Settings, pixels: &[u8], store: &Store, tiles: &mut [u8])
    requires { PutsTiles settings pixels.now store.now tiles.old }
    ensures { tiles.new ≡ sets tiles.old (store.now.held * (settings.depth * 8)) (put_tiles settings pixels.now store.now) }
{
    let p = tile::packing_of(Mode::at(settings.mode), settings.depth, 8, 8);
    let size = (settings.depth * 8) as usize;
    let columns = settings.columns as usize;
    for k in store.held..store.count {
        let tile = take_tile(settings.depth, pixels, columns, usize::from(store.from[k]));
        tile::put_tile(p, &tile, 0, tiles, k * size);
    }
}

// The entry of a coded place: it names the tile by its native number.
fn entry_coded(m: Mode, palette: u32, code: u16) -> Mapentry
    ensures { result ≡ entry_coded m palette code }
{
    let number = code as u32;
    let cell = tileset::numbers::first_cell(m.number(), 8, 8, Logical(number / 4));
    Mapentry {
        tile: cell.0,
        palette,
        flip_h: number % 2 == 1,
        flip_v: number / 2 % 2 == 1,
        priority: false,
    }
}

// And back: the tile that an entry names.
fn tile_named(m: Mode, e: Mapentry) -> Logical
    ensures { result.0 ≡ tile_named m 8 8 e }
{
    tileset::numbers::tile_of(m.number(), 8, 8, Native(e.tile))
}

// The bytes of so many entries, from entry first of the map on.
fn put_map(m: Mode, palette: u32, codes: &[u16; 4096], first: usize, count: usize, map: &mut [u8])
    requires { PutsMap m palette first count codes.now map.old }
    ensures { map.new ≡ sets map.old (first * (row m).entry) (put_entries m palette codes.now count) }
{
    let size = mapentry::mapentry_size(m);
    for i in 0..count {
        mapentry::put_entry(
            m,
            entry_coded(m, palette, codes[i]),
            map,
            (first + i) * size,
        );
    }
}

// Both buffers, and the answer: the tiles from tile held on, the entries from entry first on, and the counts so far.
fn put_picture(
    settings: Settings,
    pixels: &[u8],
    store: &Store,
    codes: &[u16; 4096],
    discarded: usize,
    first: usize,
    tiles: &mut [u8],
    map: &mut [u8],
) -> Counts
    requires { PutsPicture settings pixels.now store.now codes.now discarded first tiles.old map.old }
    ensures { PutAs settings pixels.now store.now codes.now discarded first tiles.old map.old result tiles.new map.new }
{
    let places = (settings.columns * settings.rows) as usize;
    let size = (settings.depth * 8) as usize;
    let m = Mode::at(settings.mode);
    let entry = mapentry::mapentry_size(m);
    put_tiles(settings, pixels, store, tiles);
    put_map(m, settings.palette, codes, first, places, map);
    Counts {
        tiles: store.count as u32,
        discarded: discarded as u32,
        tile_bytes: store.count * size,
        map_bytes: (first + places) * entry,
    }
}

// Goes on with a picture: held tiles and first entries are written already, and so many tiles were discarded. The checks that count no tiles
// have passed. Its own tiles are gathered before a lent byte is written, so that a refusal leaves all as it was: 48 KiB of stack.
pub fn go_on(
    settings: Settings,
    pixels: &[u8],
    held: usize,
    discarded: u32,
    first: usize,
    tiles: &mut [u8],
    map: &mut [u8],
) -> Result<Counts, Refusal>
    requires { CanGoOn settings held first (length pixels.now) (length tiles.old) (length map.old) }
    ensures { GoesOn (goes_on_says settings pixels.now (unpacked_tiles settings tiles.old held) discarded (length tiles.old)) settings pixels.now (unpacked_tiles settings tiles.old held) discarded first tiles.old map.old (picture_by result) tiles.new map.new }
{
    let mut store = Store {
        held,
        count: 0,
        from: [0; 4096],
        index: Index::new(),
    };
    let mut codes = [0u16; 4096];
    let room = picture_room(settings, tiles.len());
    let source = Source {
        settings,
        pixels,
        tiles,
    };
    store.index_written(&source);
    store.gather(&source, room, &mut codes)?;
    let places = (settings.columns * settings.rows) as usize;
    let total = discarded as usize + (held + places - store.count);
    if 4294967295 < total {
        return Err(Refusal::Discarded);
    }
    Ok(put_picture(settings, pixels, &store, &codes, total, first, tiles, map))
}

// Converts a picture: it goes on after nothing. What is refused by its settings and lengths takes none of that stack.
pub fn convert(
    settings: Settings,
    pixels: &[u8],
    tiles: &mut [u8],
    map: &mut [u8],
) -> Result<Counts, Refusal>
    ensures { Converts (convert_says settings pixels.now (length tiles.old) (length map.old)) settings pixels.now tiles.old map.old (picture_by result) tiles.new map.new }
{
    asked_says(settings, pixels.len(), map.len())?;
    go_on(settings, pixels, 0, 0, 0, tiles, map)
}

// Whether one of so many entries names a tile that is not among so many.
fn names_more(m: Mode, map: &[u8], count: usize, tiles: usize) -> bool
    requires { HasEntries m count map.now }
    ensures { result ≡ some count (λ i. leb tiles (tile_named m 8 8 (entry_at m map.now i))) }
{
    let size = mapentry::mapentry_size(m);
    for i in 0..count {
        let e = mapentry::get_entry(m, map, i * size);
        if tiles <= tile_named(m, e).0 as usize {
            return true;
        }
    }
    false
}

fn redraw_says(
    mode: u32,
    depth: u32,
    columns: u32,
    rows: u32,
    tiles: &[u8],
    map: &[u8],
    space: usize,
) -> Result<(), Refusal>
    ensures { answered result ≡ redraw_says mode depth columns rows tiles.now map.now space }
{
    size_says(mode, depth, columns, rows)?;
    let size = (depth * 8) as usize;
    if tiles.len() % size != 0 {
        return Err(Refusal::Length);
    }
    let count = (columns * rows) as usize;
    let m = Mode::at(mode);
    if map.len() != count * mapentry::mapentry_size(m) {
        return Err(Refusal::Length);
    }
    if names_more(m, map, count, tiles.len() / size) {
        return Err(Refusal::Length);
    }
    if space < 64 * count {
        return Err(Refusal::Output);
    }
    Ok(())
}

// The tile under a flip, from place at of out on: a row is moved as one word, back from its end under h.
fn put_flipped(tile: &[u8], f: Flip, out: &mut [u8], at: usize)
    requires { (length tile.now ≡ 64) × (at + 64 ≤ length out.old) }
    ensures { out.new ≡ sets out.old at (flipped f 8 8 tile.now) }
{
    for y in 0..8 {
        let row = flip::turned(f.v, 8, y) * 8;
        words::put_eight(tile, row, f.h, out, at + y * 8);
    }
}

// The tile that an entry draws, from place at of out on.
fn draw_tile(m: Mode, depth: u32, tiles: &[u8], e: Mapentry, out: &mut [u8], at: usize)
    requires { DrawsTile m depth tiles.now e out.old at }
    ensures { out.new ≡ sets out.old at (drawn_tile m depth tiles.now e) }
{
    let mut tile = [0u8; 64];
    read_tile(m, depth, tiles, tile_named(m, e).0 as usize, &mut tile);
    put_flipped(
        &tile,
        Flip {
            h: e.flip_h,
            v: e.flip_v,
        },
        out,
        at,
    );
}

// A row of tiles, from entry first of the map on, one after the other.
fn draw_strip(
    m: Mode,
    depth: u32,
    columns: usize,
    first: usize,
    tiles: &[u8],
    map: &[u8],
    out: &mut [u8],
)
    requires { DrawsStrip m depth columns first tiles.now map.now out.old }
    ensures { out.new ≡ sets out.old 0 (strip_of m depth columns first tiles.now map.now) }
{
    let size = mapentry::mapentry_size(m);
    for x in 0..columns {
        let e = mapentry::get_entry(m, map, (first + x) * size);
        draw_tile(m, depth, tiles, e, out, x * 64);
    }
}

// One line of the pixels of a row of tiles.
fn put_line(strip: &[u8], columns: usize, y: usize, out: &mut [u8], at: usize)
    requires { (y < 8) × PutsLines strip.now columns 1 out.old at }
    ensures { out.new ≡ sets out.old at (pixel_line strip.now columns y) }
{
    for x in 0..columns {
        words::put_eight(strip, x * 64 + y * 8, false, out, at + x * 8);
    }
}

// Its eight lines.
fn put_lines(strip: &[u8], columns: usize, out: &mut [u8], at: usize)
    requires { PutsLines strip.now columns 8 out.old at }
    ensures { out.new ≡ sets out.old at (each 8 (pixel_line strip.now columns)) }
{
    for y in 0..8 {
        put_line(strip, columns, y, out, at + y * (columns * 8));
    }
}

// Every pixel of the picture, a row of tiles at a time.
fn draw(m: Mode, depth: u32, columns: usize, rows: usize, tiles: &[u8], map: &[u8], out: &mut [u8])
    requires { Draws m depth columns rows tiles.now map.now out.old }
    ensures { out.new ≡ overwrite out.old (drawn m depth columns rows tiles.now map.now) }
{
    let mut strip = [0u8; 4096];
    for y in 0..rows {
        draw_strip(m, depth, columns, y * columns, tiles, map, &mut strip);
        put_lines(&strip, columns, out, y * (8 * (columns * 8)));
    }
}

// Redraws a picture.
pub fn redraw(
    mode: u32,
    depth: u32,
    columns: u32,
    rows: u32,
    tiles: &[u8],
    map: &[u8],
    out: &mut [u8],
) -> Result<usize, Refusal>
    ensures { Wrote (redraw_says mode depth columns rows tiles.now map.now (length out.old)) (drawn mode depth columns rows tiles.now map.now) out.old (written_by result) out.new }
{
    redraw_says(mode, depth, columns, rows, tiles, map, out.len())?;
    draw(
        Mode::at(mode),
        depth,
        columns as usize,
        rows as usize,
        tiles,
        map,
        out,
    );
    Ok((64 * (columns * rows)) as usize)
}
