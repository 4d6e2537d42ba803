// Replays a sample of the Rust's answers: each line of the list is a call, what it was given and what the Rust answered.
// host/sample made the list and says what its lines are.
#![tactic(auto)]

mod kinds;

ghost use Rattle.std.specs.Prelude.{◌<◌, ◌≤◌, length};
ghost use Rattle.replay.specs.Inner.{list_space};

use color::Rounding;
use fill::read_full;
use flip::Flip;
use kinds::{KINDS, Kind};
use mapentry::Mapentry;
use std::io;
use tileset::{Found, Logical, Native, Set};
use words::refusal::Refusal;

// What no call writes.
const NOISE: u8 = 0xa5;

// The most bytes of the list.
const LIST_SPACE: usize = 262144;

// Field n of a line; empty where there are fewer.
fn field(line: &[u8], n: usize) -> &[u8]
    ensures { length result.now ≤ length line.now }
{
    line.split(|b| *b == b' ').nth(n).unwrap_or(b"")
}

// The decimal number that the bytes are.
fn number(s: &[u8]) -> u32 {
    let mut value: u32 = 0;
    for b in s {
        if 429496728 < value {
            return value;
        }
        value = value * 10 + digit(*b) % 10;
    }
    value
}

// What a digit stands for, of ten or of sixteen.
fn digit(b: u8) -> u32
    ensures { result ≤ 15 }
{
    match b {
        b'0'..=b'9' => u32::from(b - b'0'),
        b'a'..=b'f' => u32::from(b - b'a') + 10,
        _ => 0,
    }
}

fn number_field(line: &[u8], n: usize) -> u32 {
    number(field(line, n))
}

fn flag_field(line: &[u8], n: usize) -> bool {
    number_field(line, n) == 1
}

// The bytes that a field has in hexadecimal, as many as out has space for; none where it is `-`.
fn bytes_field<'a>(line: &[u8], n: usize, out: &'a mut [u8]) -> &'a [u8]
    ensures { length result.now ≤ length out.old }
{
    let s = field(line, n);
    let count = (s.len() / 2).min(out.len());
    for i in 0..count {
        out[i] = (digit(s[2 * i]) * 16 + digit(s[2 * i + 1])) as u8;
    }
    &out[..count]
}

// Whether a call wrote these bytes, and left what stands after them.
fn wrote(answer: Result<usize, Refusal>, out: &[u8], expected: &[u8]) -> bool {
    let Ok(n) = answer else {
        return false;
    };
    if out.get(n) != Some(&NOISE) {
        return false;
    }
    &out[..n] == expected
}

// The entry that five fields from field n on tell.
fn entry_fields(line: &[u8], n: usize) -> Mapentry
    requires { n ≤ 8 }
{
    Mapentry {
        tile: number_field(line, n),
        palette: number_field(line, n + 1),
        flip_h: flag_field(line, n + 2),
        flip_v: flag_field(line, n + 3),
        priority: flag_field(line, n + 4),
    }
}

// A function for each kind, since each has its own call, fields and sizes: one for two kinds would take these and a closure, and be no shorter.
fn tile_agrees(line: &[u8]) -> bool {
    let mut given = [0u8; 256];
    let mut expected = [0u8; 256];
    let mut out = [NOISE; 512];
    let answer = tile::pack_tile(
        number_field(line, 1),
        number_field(line, 2),
        number_field(line, 3),
        number_field(line, 4),
        bytes_field(line, 5, &mut given),
        &mut out,
    );
    wrote(answer, &out, bytes_field(line, 6, &mut expected))
}

fn pixels_agree(line: &[u8]) -> bool {
    let mut given = [0u8; 256];
    let mut expected = [0u8; 256];
    let mut out = [NOISE; 512];
    let answer = tile::unpack_tile(
        number_field(line, 1),
        number_field(line, 2),
        number_field(line, 3),
        number_field(line, 4),
        bytes_field(line, 5, &mut given),
        &mut out,
    );
    wrote(answer, &out, bytes_field(line, 6, &mut expected))
}

fn colors_agree(line: &[u8]) -> bool {
    let mut given = [0u8; 256];
    let mut expected = [0u8; 256];
    let mut out = [NOISE; 512];
    let colors = bytes_field(line, 2, &mut given);
    let answer = color::pack_colors(number_field(line, 1), colors, &mut out);
    wrote(answer, &out, bytes_field(line, 3, &mut expected))
}

fn palette_agrees(line: &[u8]) -> bool {
    let mut given = [0u8; 256];
    let mut expected = [0u8; 512];
    let mut out = [NOISE; 1024];
    let bytes = bytes_field(line, 2, &mut given);
    let answer = color::unpack_colors(number_field(line, 1), bytes, &mut out);
    wrote(answer, &out, bytes_field(line, 3, &mut expected))
}

fn reduce_agrees(line: &[u8]) -> bool {
    let how = if flag_field(line, 3) {
        Rounding::Nearest
    } else {
        Rounding::Truncate
    };
    let value = (number_field(line, 2) % 256) as u8;
    let answer = color::reduce_channel(number_field(line, 1), value, how);
    answer == Ok(number_field(line, 4))
}

fn scale_agrees(line: &[u8]) -> bool {
    let answer = color::scale_up(number_field(line, 1), number_field(line, 2));
    answer == Ok(number_field(line, 3))
}

fn entry_agrees(line: &[u8]) -> bool {
    let mut expected = [0u8; 8];
    let mut out = [NOISE; 8];
    let answer = mapentry::pack_mapentry(number_field(line, 1), entry_fields(line, 2), &mut out);
    wrote(answer, &out, bytes_field(line, 7, &mut expected))
}

fn index_agrees(line: &[u8]) -> bool {
    let mut expected = [0u8; 8];
    let mut out = [NOISE; 8];
    let answer = mapentry::get_tile_index(number_field(line, 1), entry_fields(line, 2), &mut out);
    wrote(answer, &out, bytes_field(line, 7, &mut expected))
}

fn attribute_agrees(line: &[u8]) -> bool {
    let answer = mapentry::get_attribute(number_field(line, 1), entry_fields(line, 2));
    answer == Ok(number_field(line, 7))
}

fn read_agrees(line: &[u8]) -> bool {
    let mut given = [0u8; 8];
    let bytes = bytes_field(line, 2, &mut given);
    let answer = mapentry::unpack_mapentry(number_field(line, 1), bytes);
    answer == Ok(entry_fields(line, 3))
}

// Whether what was found is the Rust's answer: a place, 255 for nothing, and 1 for h, 2 for v.
fn is_place(found: Found, place: u8, flip: u8) -> bool {
    let Found::At(tile, by) = found else {
        return place == 255;
    };
    let expected = Flip {
        h: flip % 2 == 1,
        v: 1 < flip,
    };
    tile == Logical(u32::from(place)) && by == expected
}

// The set with one tile more, looked up and added, where this is the Rust's answer: its three bytes are a place, a flip and how many tiles are stored
// then.
fn one_more(set: Set, store: &mut [u8], tile: &[u8], answer: &[u8]) -> Option<Set> {
    let &[place, flip, stored] = answer else {
        return None;
    };
    let found = tileset::look_up(set, store, tile).ok()?;
    let after = tileset::add(set, store, tile).ok()?;
    if after.stored == u32::from(stored) && is_place(found, place, flip) {
        Some(after)
    } else {
        None
    }
}

// The set after the run of tiles of n pixels, where each is answered by its three bytes.
fn run_of(set: Set, store: &mut [u8], tiles: &[u8], n: usize, answers: &[u8]) -> Option<Set>
    requires { 0 < n }
{
    let mut after = set;
    for (tile, answer) in tiles.chunks_exact(n).zip(answers.chunks_exact(3)) {
        after = one_more(after, store, tile, answer)?;
    }
    Some(after)
}

// Every tile that was given is stored or discarded.
fn all_counted(set: Set, tiles: usize) -> bool {
    set.stored as usize + set.discarded as usize == tiles
}

// Whether the set that a line tells of gives these answers to the tiles, and then these bytes; none where it is refused or a tile is answered otherwise.
fn run_agrees(line: &[u8], answers: &[u8], tiles: &[u8], expected: &[u8]) -> Option<bool> {
    let count = answers.len() / 3;
    let n = tiles.len().checked_div(count)?;
    if n == 0 {
        return None;
    }
    if tiles.len() / n != count {
        return None;
    }
    let set = tileset::set_new(
        number_field(line, 1),
        number_field(line, 2),
        number_field(line, 3),
        number_field(line, 4),
        flag_field(line, 5),
        flag_field(line, 6),
        0,
    )
    .ok()?;
    let mut store = [NOISE; 4096];
    let set = run_of(set, &mut store, tiles, n, answers)?;
    if !all_counted(set, count) {
        return None;
    }
    let mut out = [NOISE; 4096];
    let answer = tileset::write(set, &store, &mut out);
    Some(wrote(answer, &out, expected))
}

fn set_agrees(line: &[u8]) -> bool {
    let mut answers = [0u8; 64];
    let mut tiles = [0u8; 4096];
    let mut expected = [0u8; 2048];
    let agrees = run_agrees(
        line,
        bytes_field(line, 7, &mut answers),
        bytes_field(line, 8, &mut tiles),
        bytes_field(line, 9, &mut expected),
    );
    agrees.unwrap_or(false)
}

fn cells_agree(line: &[u8]) -> bool {
    let mut given = [0u8; 512];
    let mut expected = [0u8; 1024];
    let mut store = [NOISE; 2048];
    let answer = tileset::read(
        number_field(line, 1),
        number_field(line, 2),
        number_field(line, 3),
        number_field(line, 4),
        true,
        bytes_field(line, 5, &mut given),
        &mut store,
    );
    let Ok(set) = answer else {
        return false;
    };
    if set.stored != number_field(line, 6) {
        return false;
    }
    let expected = bytes_field(line, 7, &mut expected);
    wrote(Ok(expected.len()), &store, expected)
}

fn native_agrees(line: &[u8]) -> bool {
    let answer = tileset::native_number(
        number_field(line, 1),
        number_field(line, 2),
        number_field(line, 3),
        Logical(number_field(line, 4)),
    );
    answer == Ok(Native(number_field(line, 5)))
}

fn logical_agrees(line: &[u8]) -> bool {
    let answer = tileset::logical_number(
        number_field(line, 1),
        number_field(line, 2),
        number_field(line, 3),
        Native(number_field(line, 4)),
    );
    answer == Ok(Logical(number_field(line, 5)))
}

// Whether a line of the kind is answered as the Rust answered it.
fn agrees(kind: Kind, line: &[u8]) -> bool {
    match kind {
        Kind::Colors => colors_agree(line),
        Kind::Palette => palette_agrees(line),
        Kind::Reduce => reduce_agrees(line),
        Kind::Scale => scale_agrees(line),
        Kind::Entry => entry_agrees(line),
        Kind::Read => read_agrees(line),
        Kind::Index => index_agrees(line),
        Kind::Attribute => attribute_agrees(line),
        Kind::Tile => tile_agrees(line),
        Kind::Pixels => pixels_agree(line),
        Kind::Set => set_agrees(line),
        Kind::Cells => cells_agree(line),
        Kind::Native => native_agrees(line),
        Kind::Logical => logical_agrees(line),
        Kind::Comment => true,
    }
}

// The lines of a kind, and how many of them do not agree.
#[derive(Clone, Copy, Debug, PartialEq, Eq)]
struct Tally {
    lines: usize,
    different: usize,
}

fn replay(list: &[u8], kind: Kind) -> Tally
    requires { length list.now ≤ list_space }
{
    let mut lines: usize = 0;
    let mut different: usize = 0;
    for ended in list.split_inclusive(|b| *b == b'\n') {
        let line = ended.strip_suffix(b"\n").unwrap_or(ended);
        if field(line, 0) == kind.word().as_bytes() {
            lines += 1;
            if !agrees(kind, line) {
                different += 1;
            }
        }
    }
    Tally { lines, different }
}

// A line for each kind; the comments; and the number of all lines, so that none is passed over unseen.
fn report(rt: &impl Print, list: &[u8]) -> io::Result<()>
    requires { length list.now ≤ list_space }
{
    for kind in KINDS {
        let Tally { lines, different } = replay(list, kind);
        println!(rt; "{kind}: {lines} lines, {different} different")?;
    }
    let lines = list.split_inclusive(|b| *b == b'\n').count();
    println!(rt; "all: {lines} lines")
}

fn main(rt: HostRuntime) -> io::Result<()> {
    let mut list = [0u8; LIST_SPACE];
    let n = read_full(&mut rt.stdin(), &mut list)?;
    report(&rt, &list[..n])
}
