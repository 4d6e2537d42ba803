// Colours: how each console packs them, and one channel of a colour.
#![tactic(auto)]

mod color_places;

ghost use Rattle.std.specs.Prelude.{◌≡◌, ◌+◌, ◌*◌, ◌-◌, ◌/◌, ◌^◌, ◌<◌, ◌≤◌, length};
ghost use Rattle.std.proofs.lemmas.List.Edits.{sets};
ghost use Rattle.words.specs.Answers.{numbered, Wrote};
ghost use Rattle.words.specs.Loops.{some};
ghost use Rattle.words.specs.InnerResults.{written_by, numbered_by};
ghost use Rattle.mode.specs.Table.{row};
ghost use Rattle.color.specs.Color.{above, pack_says, packed, unpack_says, unpacked, packable, opaque};
ghost use Rattle.color.specs.Inner.{value_at, copies};
ghost use Rattle.color.specs.Channel.{bits_up_to, mode_says, reduced, scale_says, scaled_up};

use crate::color_places::ColorPlaces;
use mode::Mode;
use words::refusal::Refusal;

// Read once a call. A match, for a const table would be copied to the stack at each use: more than four grays cost. It names each mode, so that the
// compiler needs no test for others. What a word has no field for stands at 16, above every word.
fn color_places_of(m: Mode) -> ColorPlaces
    ensures { result.mode ≡ m }
{
    let (gray, four, size, most, bits, first, second, third, fourth) = match m {
        Mode::SNES => (false, false, 2, false, 5, 0, 5, 10, 16),
        Mode::SNES_MODE7 => (false, false, 2, false, 5, 0, 5, 10, 16),
        Mode::GB => (true, true, 1, false, 2, 0, 2, 4, 6),
        Mode::GBC => (false, false, 2, false, 5, 0, 5, 10, 16),
        Mode::GBA => (false, false, 2, false, 5, 0, 5, 10, 16),
        Mode::GBA_AFFINE => (false, false, 2, false, 5, 0, 5, 10, 16),
        Mode::MD => (false, false, 2, true, 3, 1, 5, 9, 16),
        Mode::SMS => (false, false, 1, false, 2, 0, 2, 4, 16),
        Mode::GG => (false, false, 2, false, 4, 8, 4, 0, 16),
        Mode::PCE => (false, false, 2, false, 3, 3, 6, 0, 16),
        Mode::PCE_SPRITE => (false, false, 2, false, 3, 3, 6, 0, 16),
        Mode::NGP => (true, false, 1, false, 3, 0, 16, 16, 16),
        Mode::NGPC => (false, false, 2, false, 4, 0, 4, 8, 16),
        Mode::WS => (true, true, 2, false, 3, 0, 4, 8, 12),
        Mode::WSC => (false, false, 2, false, 4, 8, 4, 0, 16),
        Mode::WSC_PACKED => (false, false, 2, false, 4, 8, 4, 0, 16),
        _ => unreachable!(),
    };
    ColorPlaces {
        mode: m.number(),
        gray,
        four,
        size,
        most,
        top: m.top(),
        bits,
        first,
        second,
        third,
        fourth,
    }
}

// Whether colour i has a component above the top, whose bits are all ones: then one of the three has a bit above them. One branch a colour: with one
// for each component, packing took up to a third longer, as its machine code happened to lie.
fn is_above(top: u32, colors: &[u8], i: usize) -> bool
    requires there { 4 * i + 3 < length colors.now }
    requires whole { 2 ^ bits_up_to top ≡ top + 1 }
    ensures { result ≡ above top colors.now i }
{
    top < u32::from(colors[4 * i] | colors[4 * i + 1] | colors[4 * i + 2])
}

fn some_above(top: u32, colors: &[u8]) -> bool
    requires { 2 ^ bits_up_to top ≡ top + 1 }
    ensures { result ≡ some (length colors.now / 4) (above top colors.now) }
{
    for i in 0..colors.len() / 4 {
        if is_above(top, colors, i) {
            return true;
        }
    }
    false
}

// Whole colours; exactly four where a word has four.
fn can_pack(four: bool, len: usize) -> bool
    ensures { result ≡ packable four len }
{
    if four { len == 16 } else { len % 4 == 0 }
}

// Packs colours.
pub fn pack_colors(mode: u32, colors: &[u8], out: &mut [u8]) -> Result<usize, Refusal>
    ensures { Wrote (pack_says mode colors.now (length out.old)) (packed mode colors.now) out.old (written_by result) out.new }
{
    let places = color_places_of(Mode::try_from(mode)?);
    let size = places.pack_says(colors, out.len())?;
    if places.four {
        words::put_word(out, 0, places.size, places.most, places.four_word(colors));
    } else {
        places.put_words(colors, out);
    }
    Ok(size)
}

// One opaque colour, at place at.
fn put_color(out: &mut [u8], at: usize, r: u32, g: u32, b: u32)
    requires { (at + 4 ≤ length out.old) × (r < 256) × (g < 256) × (b < 256) }
    ensures { out.new ≡ sets out.old at (opaque r g b) }
{
    out[at] = r as u8;
    out[at + 1] = g as u8;
    out[at + 2] = b as u8;
    out[at + 3] = 255;
}

// The value of some bits of a word at a place.
fn value_at(word: u32, place: u32, bits: u32) -> u32
    requires { (place < 32) × (bits < 32) }
    ensures { (result ≡ value_at word place bits) × (result < 2 ^ bits) }
{
    words::low(words::down(word, place), bits)
}

// Unpacks colours.
pub fn unpack_colors(mode: u32, bytes: &[u8], out: &mut [u8]) -> Result<usize, Refusal>
    ensures { Wrote (unpack_says mode (length bytes.now) (length out.old)) (unpacked mode bytes.now) out.old (written_by result) out.new }
{
    let places = color_places_of(Mode::try_from(mode)?);
    let n = places.unpack_says(bytes.len(), out.len())?;
    if places.four {
        let word = words::get_word(bytes, 0, places.size, places.most);
        places.put_four(word, out);
    } else {
        places.put_colors(bytes, n, out);
    }
    Ok(n * 4)
}

// How a channel of eight bits becomes a component.
#[derive(Clone, Copy, Debug, PartialEq, Eq)]
pub enum Rounding {
    Truncate,
    Nearest,
}

// The top of a mode's components and how many bits they have, for a call that needs no more. Each becomes one look into a table; of all the places
// the compiler makes jumps and tests, and such a call took up to twice as long.
#[tactic(auto, unfolding(mode::specs::Table::row))]
fn component_of(m: Mode) -> (u32, u32)
    ensures top { (result.0 ≡ (row m).top) × (result.0 ≤ 31) }
    ensures bits { (result.1 ≡ bits_up_to (row m).top) × (result.1 ≤ 5) }
{
    match m {
        Mode::SNES => (31, 5),
        Mode::SNES_MODE7 => (31, 5),
        Mode::GB => (3, 2),
        Mode::GBC => (31, 5),
        Mode::GBA => (31, 5),
        Mode::GBA_AFFINE => (31, 5),
        Mode::MD => (7, 3),
        Mode::SMS => (3, 2),
        Mode::GG => (15, 4),
        Mode::PCE => (7, 3),
        Mode::PCE_SPRITE => (7, 3),
        Mode::NGP => (7, 3),
        Mode::NGPC => (15, 4),
        Mode::WS => (7, 3),
        Mode::WSC => (15, 4),
        Mode::WSC_PACKED => (15, 4),
        _ => unreachable!(),
    }
}

// One channel, as a component.
fn reduced_to(top: u32, bits: u32, value: u32, how: Rounding) -> u32
    requires { (top ≤ 31) × (bits ≤ 5) × (bits ≡ bits_up_to top) × (value < 256) }
    ensures { result ≡ reduced how top value }
{
    match how {
        Rounding::Truncate => words::down(value, 8 - bits),
        Rounding::Nearest => (value * top + 127) / 255,
    }
}

// One channel of a colour, as the mode keeps it.
pub fn reduce_channel(mode: u32, value: u8, how: Rounding) -> Result<u32, Refusal>
    ensures { numbered_by result ≡ numbered (mode_says mode) (reduced how (row mode).top value) }
{
    let (top, bits) = component_of(Mode::try_from(mode)?);
    Ok(reduced_to(top, bits, u32::from(value), how))
}

// The bits of a component, repeated to eight.
fn repeated(bits: u32, component: u32) -> u32
    requires { (bits ≤ 5) × (component < 256) }
    ensures { result ≡ copies bits (component * 2 ^ (8 - bits)) }
{
    let x = words::up(component, 8 - bits);
    x + words::down(x, bits) + words::down(x, bits + bits) + words::down(x, bits + bits + bits)
}

// A component as a channel of eight bits.
pub fn scale_up(mode: u32, component: u32) -> Result<u32, Refusal>
    ensures { numbered_by result ≡ numbered (scale_says mode component) (scaled_up (row mode).top component) }
{
    let (top, bits) = component_of(Mode::try_from(mode)?);
    if top < component {
        return Err(Refusal::Component);
    }
    Ok(repeated(bits, component))
}
