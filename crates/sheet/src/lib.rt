// The program on slices: reads a sheet of settings with a picture's pixels, and writes the report.
#![tactic(auto)]

mod keys;
mod text;

ghost use Rattle.std.specs.Prelude.{◌≡◌, ◌++◌, ◌≤◌, ◌<◌, length, Ok};
ghost use Rattle.words.specs.InnerResults.{refusal_number};
ghost use Rattle.mode.specs.Names.{mode_named};
ghost use Rattle.picture.specs.InnerResults.{picture_by};
ghost use Rattle.sheet.specs.Numbers.{digits_from, number_in, at_most};
ghost use Rattle.sheet.specs.Sheet.{mode_told, text_says, line_says, line_length, settings_of, lines_in, sheet_in};
ghost use Rattle.sheet.specs.Report.{report_text, refused_text};
ghost use Rattle.sheet.specs.Inner.{Tellable};
ghost use Rattle.sheet.specs.Program.{tile_space, map_space, picture_says, picture_tells, number_of, text_of, Ran};

use keys::Key;
use mode::Mode;
use picture::{Counts, Settings};
use text::Text;
use words::Written;
use words::refusal::Refusal;

// The most columns and rows.
const COLUMNS_MOST: u32 = 32;

const ROWS_MOST: u32 = 32;

// A line of a sheet: its key, and the largest number that it tells. The text of the mode's line is a name.
#[derive(Clone, Copy, Debug, PartialEq, Eq)]
struct Line {
    key: Key,
    top: u32,
}

const LINE_COUNT: usize = 8;

const LINES: [Line; LINE_COUNT] = [
    Line {
        key: Key::Mode,
        top: 15,
    },
    Line {
        key: Key::Depth,
        top: u32::MAX,
    },
    Line {
        key: Key::Flip,
        top: 1,
    },
    Line {
        key: Key::Discard,
        top: 1,
    },
    Line {
        key: Key::Limit,
        top: u32::MAX,
    },
    Line {
        key: Key::Palette,
        top: u32::MAX,
    },
    Line {
        key: Key::Columns,
        top: COLUMNS_MOST,
    },
    Line {
        key: Key::Rows,
        top: ROWS_MOST,
    },
];

// The space for a picture's tiles and for its map.
const TILE_SPACE: usize = 65536;

const MAP_SPACE: usize = 2048;

// One byte more than the longest sheet with the most pixels, 105 + 65,536: what is longer shows.
pub const INPUT_SPACE: usize = 65642;

// Enough for the report's lines, all tile bytes and all map bytes.
pub const OUT_SPACE: usize = 67840;

// What an input holds: the settings, and where the pixels start.
#[derive(Clone, Copy, Debug, PartialEq, Eq)]
pub struct Sheet {
    pub settings: Settings,
    pub start: usize,
}

// How many bytes stand before the first newline.
pub fn line_length(s: &[u8]) -> usize
    ensures { (result ≡ line_length s.now) × (result ≤ length s.now) }
{
    for i in 0..s.len() {
        if s[i] == b'\n' {
            return i;
        }
    }
    s.len()
}

// The number that digits give, a leading zero let through.
fn digits(s: &[u8]) -> Option<u32>
    ensures { result ≡ digits_from s.now 0 }
{
    let mut n: u32 = 0;
    for b in s {
        let digit = char::from(*b).to_digit(10)?;
        n = n.checked_mul(10)?.checked_add(digit)?;
    }
    Some(n)
}

const ZERO: u8 = b'0';

// "No leading zero, 0 as `0`."
pub fn number(s: &[u8]) -> Option<u32>
    ensures { result ≡ number_in s.now }
{
    match s {
        [] => None,
        [first, ..] if *first != ZERO => digits(s),
        [_] => Some(0),
        _ => None,
    }
}

fn at_most(top: u32, told: Option<u32>) -> Option<u32>
    ensures { result ≡ at_most top told }
{
    told.filter(|n| *n <= top)
}

fn mode_told(s: &[u8]) -> Option<u32>
    ensures { result ≡ mode_told (mode_named s.now) }
{
    Mode::named(s).map(|mode| mode.number())
}

// What the text of a line tells.
fn text_says(line: Line, text: &[u8]) -> Option<u32>
    ensures { result ≡ text_says line text.now }
{
    match line.key {
        Key::Mode => mode_told(text),
        _ => at_most(line.top, number(text)),
    }
}

// What a line tells, its newline left out.
fn line_says(line: Line, bytes: &[u8]) -> Option<u32>
    ensures { result ≡ line_says line bytes.now }
{
    let text = bytes.strip_prefix(line.key.text())?;
    text_says(line, text)
}

#[tactic(auto, unfolding(crate::specs::Sheet::settings_of))]
fn settings(values: [u32; LINE_COUNT]) -> Settings
    ensures { result ≡ settings_of values }
{
    let [mode, depth, flip, discard, limit, palette, columns, rows] = values;
    Settings {
        mode,
        depth,
        flip: flip == 1,
        discard: discard == 1,
        limit,
        palette,
        columns,
        rows,
    }
}

// The eight lines.
fn read_lines(s: &[u8]) -> Option<Sheet>
    ensures { result ≡ lines_in s.now }
{
    let mut values = [0u32; LINE_COUNT];
    let mut start: usize = 0;
    for k in 0..LINE_COUNT {
        let rest = &s[start..];
        let end = line_length(rest);
        if rest.len() <= end {
            return None;
        }
        values[k] = line_says(LINES[k], &rest[..end])?;
        start += end + 1;
    }
    Some(Sheet {
        settings: settings(values),
        start,
    })
}

// The eight lines, and exactly the pixels.
pub fn read_sheet(s: &[u8]) -> Option<Sheet>
    ensures { result ≡ sheet_in s.now }
{
    let sheet = read_lines(s)?;
    let z = sheet.settings;
    let pixels = 64 * (z.columns as usize * z.rows as usize);
    if s.len() - sheet.start == pixels {
        Some(sheet)
    } else {
        None
    }
}

// All the lines of the report.
fn report_lines(z: Settings, counts: Counts) -> Text
    requires { Tellable z counts }
    ensures { result ≡ report_text z (picture_by (Ok counts)) }
{
    let mut text = Text::new();
    text.line(Key::Mode, Mode::at(z.mode).name());
    text.number(Key::Depth, z.depth);
    text.number(Key::Flip, u32::from(z.flip));
    text.number(Key::Discard, u32::from(z.discard));
    text.number(Key::Columns, z.columns);
    text.number(Key::Rows, z.rows);
    text.number(Key::Tiles, counts.tiles);
    text.number(Key::Discarded, counts.discarded);
    text.number(Key::TileBytes, counts.tile_bytes as u32);
    text.number(Key::MapBytes, counts.map_bytes as u32);
    text
}

// The whole text, where out has space for it: the lines, then the tile bytes and the map bytes.
fn tell(number: u32, text: &Text, tiles: &[u8], map: &[u8], out: &mut [u8]) -> Written
    requires { (length tiles.now ≤ tile_space) × (length map.now ≤ map_space) }
    ensures { Ran number (text.now ++ tiles.now ++ map.now) out.old result out.new }
{
    let lines = text.bytes();
    let tiles_at = lines.len();
    let map_at = tiles_at + tiles.len();
    let written = map_at + map.len();
    if out.len() < written {
        return Written::from(Err(Refusal::Output));
    }
    words::put(out, 0, lines);
    words::put(out, tiles_at, tiles);
    words::put(out, map_at, map);
    Written {
        refusal: number,
        written,
    }
}

fn refuse(refusal: Refusal, out: &mut [u8]) -> Written
    ensures { Ran (refusal_number refusal) (refused_text (refusal_number refusal)) out.old result out.new }
{
    let number = refusal.number();
    let mut text = Text::new();
    text.number(Key::Refused, number);
    tell(number, &text, &[], &[], out)
}

// What a picture comes to: the report with its bytes, or the refusal.
fn answer(z: Settings, pixels: &[u8], out: &mut [u8]) -> Written
    requires { z.mode < 16 }
    ensures { Ran (picture_says z pixels.now) (picture_tells z pixels.now) out.old result out.new }
{
    let mut tiles = [0u8; TILE_SPACE];
    let mut map = [0u8; MAP_SPACE];
    match picture::convert(z, pixels, &mut tiles, &mut map) {
        Ok(counts) => {
            let text = report_lines(z, counts);
            let tiles = &tiles[..counts.tile_bytes];
            let map = &map[..counts.map_bytes];
            tell(0, &text, tiles, map, out)
        }
        Err(refusal) => refuse(refusal, out),
    }
}

// The program on slices: out gets all that the program writes for an input. The C record, for it tells a number and a written text both, of a refusal too.
pub fn run(input: &[u8], out: &mut [u8]) -> Written
    ensures { Ran (number_of input.now) (text_of input.now) out.old result out.new }
{
    match read_sheet(input) {
        Some(sheet) => answer(sheet.settings, &input[sheet.start..], out),
        None => refuse(Refusal::Settings, out),
    }
}
