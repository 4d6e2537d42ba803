// The station's interface: what a host calls, with plain numbers and byte slices. Each function asks nothing of its caller.
#![tactic(auto)]

ghost use Rattle.std.specs.Prelude.{◌≡◌, length};
ghost use Rattle.words.specs.Answers.{numbered, Wrote};
ghost use Rattle.mode.specs.Table.{row};
ghost use Rattle.color.specs.Color.{pack_says, packed, unpack_says, unpacked};
ghost use Rattle.color.specs.Channel.{mode_says, reduced, scale_says, scaled_up};
ghost use Rattle.mapentry.specs.Entry as entry;
ghost use Rattle.tile.specs.Tile as tile;
ghost use Rattle.tileset.specs.Sets.{set_says, look_says, answered_set, new_set, no_set, emptied};
ghost use Rattle.tileset.specs.Finding.{placed, found_in};
ghost use Rattle.tileset.specs.Adding.{add_says, added, store_with, Adds};
ghost use Rattle.tileset.specs.Writing.{write_says, set_bytes};
ghost use Rattle.tileset.specs.Reading.{Reads};
ghost use Rattle.tileset.specs.Numbers.{native_says, first_cell, logical_says, tile_of};
ghost use Rattle.title.specs.Titles.{title_held, AddsToTitle};
ghost use Rattle.picture.specs.Converting.{convert_says, Converts};
ghost use Rattle.picture.specs.Redrawing.{redraw_says, drawn};
ghost use Rattle.mode7.specs.Block.{make_says, block_of, split_says, Splits};
ghost use Rattle.flip.specs.Flips.{flip};
ghost use Rattle.nativeflip.specs.Flipping.{flip_says, flipped_bytes};
ghost use Rattle.strip.specs.Strips.{started, start_says, take_says, Takes, stepped, end_says, ended};
ghost use Rattle.sheet.specs.Program.{number_of, text_of, Ran};
ghost use Rattle.rumchivoat.specs.Station.{interface, rounding_of, entry_from, settings_from};

use color::Rounding;
use mapentry::{Entry, Mapentry};
use picture::{Picture, Settings};
use strip::{Run, RunAnswer};
use tileset::{Logical, Native, Place, Set, SetAnswer};
use title::Held;
use words::{Number, Written};

// The number of this interface, for a host to compare with the one that it was written for.
#[unsafe(no_mangle)]
pub extern "C" fn rumchivoat_interface() -> u32
    ensures { result ≡ interface }
{
    7
}

// A native tile: pixels to the mode's bytes.
#[unsafe(no_mangle)]
pub extern "C" fn rumchivoat_pack_tile(
    mode: u32,
    depth: u32,
    width: u32,
    height: u32,
    pixels: &[u8],
    out: &mut [u8],
) -> Written
    ensures { Wrote (tile.pack_says mode depth width height pixels.now (length out.old)) (tile.packed mode depth width height pixels.now) out.old result out.new }
{
    tile::pack_tile(mode, depth, width, height, pixels, out).into()
}

// And back.
#[unsafe(no_mangle)]
pub extern "C" fn rumchivoat_unpack_tile(
    mode: u32,
    depth: u32,
    width: u32,
    height: u32,
    bytes: &[u8],
    out: &mut [u8],
) -> Written
    ensures { Wrote (tile.unpack_says mode depth width height (length bytes.now) (length out.old)) (tile.unpacked mode depth width height bytes.now) out.old result out.new }
{
    tile::unpack_tile(mode, depth, width, height, bytes, out).into()
}

// A native 8x8 tile flipped, as its bytes are: h, v or both.
#[unsafe(no_mangle)]
pub extern "C" fn rumchivoat_flip_tile(
    mode: u32,
    depth: u32,
    flip_h: bool,
    flip_v: bool,
    bytes: &[u8],
    out: &mut [u8],
) -> Written
    ensures { Wrote (flip_says mode depth (length bytes.now) (length out.old)) (flipped_bytes mode depth (flip flip_h flip_v) bytes.now) out.old result out.new }
{
    nativeflip::flip_tile(mode, depth, flip_h, flip_v, bytes, out).into()
}

// Colours of four bytes each, r, g, b, a, to the mode's bytes.
#[unsafe(no_mangle)]
pub extern "C" fn rumchivoat_pack_colors(mode: u32, colors: &[u8], out: &mut [u8]) -> Written
    ensures { Wrote (pack_says mode colors.now (length out.old)) (packed mode colors.now) out.old result out.new }
{
    color::pack_colors(mode, colors, out).into()
}

// And back, with alpha 255.
#[unsafe(no_mangle)]
pub extern "C" fn rumchivoat_unpack_colors(mode: u32, bytes: &[u8], out: &mut [u8]) -> Written
    ensures { Wrote (unpack_says mode (length bytes.now) (length out.old)) (unpacked mode bytes.now) out.old result out.new }
{
    color::unpack_colors(mode, bytes, out).into()
}

// The station's bool as the kind of rounding.
fn rounding_of(nearest: bool) -> Rounding
    ensures { result ≡ rounding_of nearest }
{
    if nearest {
        Rounding::Nearest
    } else {
        Rounding::Truncate
    }
}

// A channel of 0 to 255 to the mode's components, nearest or cut.
#[unsafe(no_mangle)]
pub extern "C" fn rumchivoat_reduce_channel(mode: u32, value: u8, nearest: bool) -> Number
    ensures { result ≡ numbered (mode_says mode) (reduced (rounding_of nearest) (row mode).top value) }
{
    color::reduce_channel(mode, value, rounding_of(nearest)).into()
}

// A component to a channel of 0 to 255.
#[unsafe(no_mangle)]
pub extern "C" fn rumchivoat_scale_up(mode: u32, component: u32) -> Number
    ensures { result ≡ numbered (scale_says mode component) (scaled_up (row mode).top component) }
{
    color::scale_up(mode, component).into()
}

// The station's numbers as an entry.
fn entry_from(tile: u32, palette: u32, flip_h: bool, flip_v: bool, priority: bool) -> Mapentry
    ensures { result ≡ entry_from tile palette flip_h flip_v priority }
{
    Mapentry {
        tile,
        palette,
        flip_h,
        flip_v,
        priority,
    }
}

// A map entry to the mode's bytes.
#[unsafe(no_mangle)]
pub extern "C" fn rumchivoat_pack_entry(
    mode: u32,
    tile: u32,
    palette: u32,
    flip_h: bool,
    flip_v: bool,
    priority: bool,
    out: &mut [u8],
) -> Written
    ensures { Wrote (entry.pack_says mode (entry_from tile palette flip_h flip_v priority) (length out.old)) (entry.entry_bytes mode (entry_from tile palette flip_h flip_v priority)) out.old result out.new }
{
    let entry = entry_from(tile, palette, flip_h, flip_v, priority);
    mapentry::pack_mapentry(mode, entry, out).into()
}

// And back.
#[unsafe(no_mangle)]
pub extern "C" fn rumchivoat_unpack_entry(mode: u32, bytes: &[u8]) -> Entry
    ensures { result ≡ entry.entered (entry.read_says mode (length bytes.now)) (entry.entry_of mode bytes.now) }
{
    mapentry::unpack_mapentry(mode, bytes).into()
}

// An entry's tile index by itself, as bytes.
#[unsafe(no_mangle)]
pub extern "C" fn rumchivoat_tile_index(
    mode: u32,
    tile: u32,
    palette: u32,
    flip_h: bool,
    flip_v: bool,
    priority: bool,
    out: &mut [u8],
) -> Written
    ensures { Wrote (entry.index_says mode (entry_from tile palette flip_h flip_v priority) (length out.old)) (entry.index_bytes mode (entry_from tile palette flip_h flip_v priority)) out.old result out.new }
{
    let entry = entry_from(tile, palette, flip_h, flip_v, priority);
    mapentry::get_tile_index(mode, entry, out).into()
}

// What is left of an entry beside its tile index.
#[unsafe(no_mangle)]
pub extern "C" fn rumchivoat_attribute(
    mode: u32,
    tile: u32,
    palette: u32,
    flip_h: bool,
    flip_v: bool,
    priority: bool,
) -> Number
    ensures { result ≡ numbered (entry.entry_says mode (entry_from tile palette flip_h flip_v priority)) (entry.attribute_of mode (entry_from tile palette flip_h flip_v priority)) }
{
    let entry = entry_from(tile, palette, flip_h, flip_v, priority);
    mapentry::get_attribute(mode, entry).into()
}

// A set of no tiles.
#[unsafe(no_mangle)]
pub extern "C" fn rumchivoat_set_new(
    mode: u32,
    depth: u32,
    width: u32,
    height: u32,
    flips: bool,
    discarding: bool,
    limit: u32,
) -> SetAnswer
    ensures { result ≡ answered_set (set_says mode depth width height) (new_set mode depth width height flips discarding limit) no_set }
{
    let set = tileset::set_new(mode, depth, width, height, flips, discarding, limit);
    SetAnswer::new(Set::NONE, set)
}

// A set with both counts 0.
#[unsafe(no_mangle)]
pub extern "C" fn rumchivoat_set_reset(set: Set) -> SetAnswer
    ensures { result ≡ answered_set (set_says set.mode set.depth set.width set.height) (emptied set) set }
{
    SetAnswer::new(set, tileset::set_reset(set))
}

// The first tile of a set that matches, and its flip.
#[unsafe(no_mangle)]
pub extern "C" fn rumchivoat_set_look_up(set: Set, store: &[u8], pixels: &[u8]) -> Place
    ensures { result ≡ placed (look_says set (length store.now) (length pixels.now)) (found_in set store.now pixels.now) }
{
    tileset::look_up(set, store, pixels).into()
}

// A set with one tile more: stored, or discarded where it matches.
#[unsafe(no_mangle)]
pub extern "C" fn rumchivoat_set_add(set: Set, store: &mut [u8], pixels: &[u8]) -> SetAnswer
    ensures { Adds (add_says set store.old pixels.now) set (added set store.old pixels.now) store.old (store_with set store.old pixels.now) result store.new }
{
    SetAnswer::new(set, tileset::add(set, store, pixels))
}

// A set's tiles as the mode's bytes.
#[unsafe(no_mangle)]
pub extern "C" fn rumchivoat_set_write(set: Set, store: &[u8], out: &mut [u8]) -> Written
    ensures { Wrote (write_says set store.now (length out.old)) (set_bytes set store.now) out.old result out.new }
{
    tileset::write(set, store, out).into()
}

// A set from the mode's bytes.
#[unsafe(no_mangle)]
pub extern "C" fn rumchivoat_set_read(
    mode: u32,
    depth: u32,
    width: u32,
    height: u32,
    flips: bool,
    bytes: &[u8],
    store: &mut [u8],
) -> SetAnswer
    ensures { Reads mode depth width height flips bytes.now store.old result store.new }
{
    let set = tileset::read(mode, depth, width, height, flips, bytes, store);
    SetAnswer::new(Set::NONE, set)
}

// The cell at which a tile starts.
#[unsafe(no_mangle)]
pub extern "C" fn rumchivoat_native_number(
    mode: u32,
    width: u32,
    height: u32,
    logical: u32,
) -> Number
    ensures { result ≡ numbered (native_says mode width height logical) (first_cell mode width height logical) }
{
    tileset::native_number(mode, width, height, Logical(logical))
        .map(|cell| cell.0)
        .into()
}

// The tile that a cell belongs to.
#[unsafe(no_mangle)]
pub extern "C" fn rumchivoat_logical_number(
    mode: u32,
    width: u32,
    height: u32,
    native: u32,
) -> Number
    ensures { result ≡ numbered (logical_says mode width height native) (tile_of mode width height native) }
{
    tileset::logical_number(mode, width, height, Native(native))
        .map(|tile| tile.0)
        .into()
}

// The first tile of a title that matches, among the common ones and then its own: its flip, and its part of the store that has it.
#[unsafe(no_mangle)]
pub extern "C" fn rumchivoat_title_look_up<'a>(
    set: Set,
    common_count: u32,
    common: &'a [u8],
    store: &'a [u8],
    pixels: &[u8],
) -> Held
    ensures { result ≡ title_held set common_count common.now store.now pixels.now }
{
    title::look_up(set, common_count, common, store, pixels).into()
}

// A title's own set with one tile more: stored, or discarded where it matches a common or an own one.
#[unsafe(no_mangle)]
pub extern "C" fn rumchivoat_title_add(
    set: Set,
    common_count: u32,
    common: &[u8],
    store: &mut [u8],
    pixels: &[u8],
) -> SetAnswer
    ensures { AddsToTitle set common_count common.now store.old pixels.now result store.new }
{
    SetAnswer::new(set, title::add(set, common_count, common, store, pixels))
}

// The station's numbers as settings.
fn settings_from(
    mode: u32,
    depth: u32,
    flip: bool,
    discard: bool,
    limit: u32,
    palette: u32,
    columns: u32,
    rows: u32,
) -> Settings
    ensures { result ≡ settings_from mode depth flip discard limit palette columns rows }
{
    Settings {
        mode,
        depth,
        flip,
        discard,
        limit,
        palette,
        columns,
        rows,
    }
}

// A picture to tiles and a map.
#[unsafe(no_mangle)]
pub extern "C" fn rumchivoat_convert(
    mode: u32,
    depth: u32,
    flip: bool,
    discard: bool,
    limit: u32,
    palette: u32,
    columns: u32,
    rows: u32,
    pixels: &[u8],
    tiles: &mut [u8],
    map: &mut [u8],
) -> Picture
    ensures { Converts (convert_says (settings_from mode depth flip discard limit palette columns rows) pixels.now (length tiles.old) (length map.old)) (settings_from mode depth flip discard limit palette columns rows) pixels.now tiles.old map.old result tiles.new map.new }
{
    let settings = settings_from(mode, depth, flip, discard, limit, palette, columns, rows);
    picture::convert(settings, pixels, tiles, map).into()
}

// And back.
#[unsafe(no_mangle)]
pub extern "C" fn rumchivoat_redraw(
    mode: u32,
    depth: u32,
    columns: u32,
    rows: u32,
    tiles: &[u8],
    map: &[u8],
    out: &mut [u8],
) -> Written
    ensures { Wrote (redraw_says mode depth columns rows tiles.now map.now (length out.old)) (drawn mode depth columns rows tiles.now map.now) out.old result out.new }
{
    picture::redraw(mode, depth, columns, rows, tiles, map, out).into()
}

// A picture that comes in strips: a run starts with the settings.
#[unsafe(no_mangle)]
pub extern "C" fn rumchivoat_strip_start(
    mode: u32,
    depth: u32,
    flip: bool,
    discard: bool,
    limit: u32,
    palette: u32,
    columns: u32,
    rows: u32,
) -> RunAnswer
    ensures { result ≡ started (start_says (settings_from mode depth flip discard limit palette columns rows)) (settings_from mode depth flip discard limit palette columns rows) }
{
    let settings = settings_from(mode, depth, flip, discard, limit, palette, columns, rows);
    strip::start(settings).into()
}

// A strip of its tile rows, one or more: the record is updated in place.
#[unsafe(no_mangle)]
pub extern "C" fn rumchivoat_strip_take(
    run: &mut Run,
    pixels: &[u8],
    tiles: &mut [u8],
    map: &mut [u8],
) -> Picture
    ensures { Takes (take_says run.old pixels.now tiles.old (length map.old)) run.old pixels.now tiles.old map.old (stepped result run.new) tiles.new map.new }
{
    match strip::take(*run, pixels, tiles, map) {
        Ok(step) => {
            *run = step.run;
            Picture::from(Ok(step.counts))
        }
        Err(refusal) => Picture::from(Err(refusal)),
    }
}

// Its end, when all rows have come.
#[unsafe(no_mangle)]
pub extern "C" fn rumchivoat_strip_end(run: Run) -> Picture
    ensures { result ≡ ended (end_says run) run }
{
    strip::end(run).into()
}

// The mode 7 block, from tile bytes and map bytes.
#[unsafe(no_mangle)]
pub extern "C" fn rumchivoat_mode7_make(tiles: &[u8], map: &[u8], out: &mut [u8]) -> Written
    ensures { Wrote (make_says (length tiles.now) (length map.now) (length out.old)) (block_of tiles.now map.now) out.old result out.new }
{
    mode7::make(tiles, map, out).into()
}

// And back: its two halves.
#[unsafe(no_mangle)]
pub extern "C" fn rumchivoat_mode7_split(block: &[u8], tiles: &mut [u8], map: &mut [u8]) -> Written
    ensures { Splits (split_says (length block.now) (length tiles.old) (length map.old)) block.now tiles.old map.old result tiles.new map.new }
{
    mode7::split(block, tiles, map).into()
}

// The program on slices: all that it would write for an input.
#[unsafe(no_mangle)]
pub extern "C" fn rumchivoat_run(input: &[u8], out: &mut [u8]) -> Written
    ensures { Ran (number_of input.now) (text_of input.now) out.old result out.new }
{
    sheet::run(input, out)
}
