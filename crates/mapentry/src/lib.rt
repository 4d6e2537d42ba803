// Map entries: the words that say which tile is drawn, with which palette and how.
#![tactic(auto)]

ghost use Rattle.std.specs.Prelude.{◌≡◌, ◌+◌, ◌<◌, ◌≤◌, length, take, drop, Some, IfOk};
ghost use Rattle.std.proofs.lemmas.List.Edits.{sets};
ghost use Rattle.words.specs.Answers.{numbered, Wrote};
ghost use Rattle.words.specs.InnerResults.{refusal_number, answered, written_by, numbered_by};
ghost use Rattle.mode.specs.Table.{row};
ghost use Rattle.mapentry.specs.Entry.{misfit_of, misfit_says, entry_says, entry_word, entry_bytes, pack_says, entry_in, entry_of, read_says, entered, IsEntry, layout, most_first, without_tile, index_size, index_says, index_bytes, attribute_of};
ghost use Rattle.mapentry.specs.Inner.{places_in, Near};
ghost use Rattle.mapentry.specs.InnerResults.{entry_by};

use mode::Mode;
use words::refusal::Refusal;

// "An entry is tile index, palette index (32 bits each), flip h, flip v, priority."
#[derive(Clone, Copy, Debug, PartialEq, Eq)]
pub struct Mapentry {
    pub tile: u32,
    pub palette: u32,
    pub flip_h: bool,
    pub flip_v: bool,
    pub priority: bool,
}

// What reading an entry answers a host.
#[repr(C)]
#[derive(Clone, Copy)]
pub struct Entry {
    pub refusal: u32,
    pub tile: u32,
    pub palette: u32,
    pub flip_h: bool,
    pub flip_v: bool,
    pub priority: bool,
}

impl From<Result<Mapentry, Refusal>> for Entry {
    ghost from_gives = { λ r e. e ≡ entry_by r };

    fn from(answer: Result<Mapentry, Refusal>) -> Entry {
        match answer {
            Ok(e) => Entry {
                refusal: 0,
                tile: e.tile,
                palette: e.palette,
                flip_h: e.flip_h,
                flip_v: e.flip_v,
                priority: e.priority,
            },
            Err(refusal) => Entry {
                refusal: refusal.number(),
                tile: 0,
                palette: 0,
                flip_h: false,
                flip_v: false,
                priority: false,
            },
        }
    }
}

// A field of an entry that the mode's bits cannot hold.
#[derive(Clone, Copy, Debug, PartialEq, Eq)]
pub enum Misfit {
    Tile,
    Palette,
    Flip,
    Priority,
}

impl From<Misfit> for Refusal {
    ghost from_gives = { λ f r. refusal_number r ≡ misfit_says (Some f) };

    fn from(f: Misfit) -> Refusal {
        match f {
            Misfit::Tile => Refusal::EntryTile,
            Misfit::Palette => Refusal::EntryPalette,
            Misfit::Flip => Refusal::EntryFlip,
            Misfit::Priority => Refusal::EntryPriority,
        }
    }
}

// The mode, where it has entries and this is one of them.
pub fn entry_says(mode: u32, e: Mapentry) -> Result<Mode, Refusal>
    ensures says { answered result ≡ entry_says mode e }
    ensures mode { IfOk result (λ m. m ≡ mode) }
{
    let m = Mode::try_from(mode)?;
    if m == Mode::PCE_SPRITE {
        return Err(Refusal::PceSprite);
    }
    match first_misfit(m, e) {
        Some(misfit) => Err(Refusal::from(misfit)),
        None => Ok(m),
    }
}

// Where the values of an entry stand in its word: the tile index in the low bits, but for one bit that may stand apart, high; the
// palette index with its bits; the flips; priority. What the mode has no bits for stands at 16, above every word. That no place is above
// it stands in one contract: as a ghost field it would have to be given with each `Places` of the definitions too.
#[derive(Clone, Copy, Debug, PartialEq, Eq)]
pub struct Places {
    pub low: u32,
    pub high: u32,
    pub palette: u32,
    pub bits: u32,
    pub h: u32,
    pub v: u32,
    pub priority: u32,
}

#[tactic(auto, unfolding(crate::specs::Entry::layout, crate::specs::Inner::places_in))]
pub fn places_of(m: Mode) -> Places
    ensures places { result ≡ places_in (layout m) }
    ensures near { Near result }
    ensures mode { m < 16 }
{
    let (low, high, palette, bits, h, v, priority) = match m {
        Mode::SNES => (10, 16, 10, 3, 14, 15, 13),
        Mode::SNES_MODE7 => (8, 16, 16, 0, 16, 16, 16),
        Mode::GB => (8, 16, 16, 0, 16, 16, 16),
        Mode::GBC => (8, 11, 8, 3, 13, 14, 15),
        Mode::GBA => (10, 16, 12, 4, 10, 11, 16),
        Mode::GBA_AFFINE => (8, 16, 16, 0, 16, 16, 16),
        Mode::MD => (11, 16, 13, 2, 11, 12, 15),
        Mode::SMS => (9, 16, 11, 1, 9, 10, 12),
        Mode::GG => (9, 16, 11, 1, 9, 10, 12),
        Mode::PCE => (12, 16, 12, 4, 16, 16, 16),
        Mode::PCE_SPRITE => (0, 16, 16, 0, 16, 16, 16),
        Mode::NGP => (9, 16, 13, 1, 15, 14, 16),
        Mode::NGPC => (9, 16, 9, 4, 15, 14, 16),
        Mode::WS => (9, 16, 9, 4, 14, 15, 16),
        Mode::WSC => (9, 13, 9, 4, 14, 15, 16),
        _ => (9, 13, 9, 4, 14, 15, 16),
    };
    Places {
        low,
        high,
        palette,
        bits,
        h,
        v,
        priority,
    }
}

// The bits that the mode has for each field are its row's.
pub fn first_misfit(m: Mode, e: Mapentry) -> Option<Misfit>
    ensures { result ≡ misfit_of m e }
{
    let bits = m.entry_bits();
    if !words::holds(bits.tile, e.tile) {
        return Some(Misfit::Tile);
    }
    if !words::holds(bits.palette, e.palette) {
        return Some(Misfit::Palette);
    }
    if !words::holds(bits.flips, u32::from(e.flip_h))
        || !words::holds(bits.flips, u32::from(e.flip_v))
    {
        return Some(Misfit::Flip);
    }
    if !words::holds(bits.priority, u32::from(e.priority)) {
        return Some(Misfit::Priority);
    }
    None
}

// The word of an entry that fits.
pub fn entry_word(m: Mode, e: Mapentry) -> u32
    requires { IsEntry m e }
    ensures { (result ≡ entry_word m e) × (result < 65536) }
{
    let p = places_of(m);
    let low = words::low(e.tile, p.low);
    let high = words::up(words::down(e.tile, p.low), p.high);
    let palette = words::up(e.palette, p.palette);
    let h = words::up(u32::from(e.flip_h), p.h);
    let v = words::up(u32::from(e.flip_v), p.v);
    let priority = words::up(u32::from(e.priority), p.priority);
    low + high + palette + h + v + priority
}

// The entry that a word holds.
pub fn entry_in(m: Mode, word: u32) -> Mapentry
    requires { word < 65536 }
    ensures { result ≡ entry_in m word }
{
    let p = places_of(m);
    let apart = words::low(words::down(word, p.high), 1);
    Mapentry {
        tile: words::low(word, p.low) + words::up(apart, p.low),
        palette: words::low(words::down(word, p.palette), p.bits),
        flip_h: words::low(words::down(word, p.h), 1) == 1,
        flip_v: words::low(words::down(word, p.v), 1) == 1,
        priority: words::low(words::down(word, p.priority), 1) == 1,
    }
}

// How many bytes an entry has.
pub fn mapentry_size(m: Mode) -> usize
    ensures { result ≡ (row m).entry }
{
    m.entry_size() as usize
}

// Whether the most byte stands first: in md alone.
fn most_first(m: Mode) -> bool
    ensures { result ≡ most_first m }
{
    m == Mode::MD
}

// The bytes of an entry that fits, from place at on.
pub fn put_entry(m: Mode, e: Mapentry, out: &mut [u8], at: usize)
    requires { IsEntry m e × (at + (row m).entry ≤ length out.old) }
    ensures { out.new ≡ sets out.old at (entry_bytes m e) }
{
    let word = entry_word(m, e);
    words::put_word(out, at, mapentry_size(m), most_first(m), word);
}

// The entry that the bytes from place at on hold.
pub fn get_entry(m: Mode, bytes: &[u8], at: usize) -> Mapentry
    requires { (0 < (row m).entry) × (at + (row m).entry ≤ length bytes.now) }
    ensures { result ≡ entry_of m (take (row m).entry (drop at bytes.now)) }
{
    let word = words::get_word(bytes, at, mapentry_size(m), most_first(m));
    entry_in(m, word)
}

// Packs a map entry.
pub fn pack_mapentry(mode: u32, e: Mapentry, out: &mut [u8]) -> Result<usize, Refusal>
    ensures { Wrote (pack_says mode e (length out.old)) (entry_bytes mode e) out.old (written_by result) out.new }
{
    let m = entry_says(mode, e)?;
    let size = mapentry_size(m);
    if out.len() < size {
        return Err(Refusal::Output);
    }
    put_entry(m, e, out, 0);
    Ok(size)
}

// Reads an entry of a mode that has them.
fn read_entry(m: Mode, bytes: &[u8]) -> Result<Mapentry, Refusal>
    requires { 0 < (row m).entry }
    ensures { entry_by result ≡ entered (read_says m (length bytes.now)) (entry_of m bytes.now) }
{
    if bytes.len() != mapentry_size(m) {
        return Err(Refusal::Length);
    }
    Ok(get_entry(m, bytes, 0))
}

// Unpacks a map entry. Each arm names its mode, so that its places are numbers when it is compiled.
#[tactic(auto, unfolding(mode::specs::Table::row))]
pub fn unpack_mapentry(mode: u32, bytes: &[u8]) -> Result<Mapentry, Refusal>
    ensures { entry_by result ≡ entered (read_says mode (length bytes.now)) (entry_of mode bytes.now) }
{
    match Mode::try_from(mode)? {
        Mode::SNES => read_entry(Mode::SNES, bytes),
        Mode::SNES_MODE7 => read_entry(Mode::SNES_MODE7, bytes),
        Mode::GB => read_entry(Mode::GB, bytes),
        Mode::GBC => read_entry(Mode::GBC, bytes),
        Mode::GBA => read_entry(Mode::GBA, bytes),
        Mode::GBA_AFFINE => read_entry(Mode::GBA_AFFINE, bytes),
        Mode::MD => read_entry(Mode::MD, bytes),
        Mode::SMS => read_entry(Mode::SMS, bytes),
        Mode::GG => read_entry(Mode::GG, bytes),
        Mode::PCE => read_entry(Mode::PCE, bytes),
        Mode::PCE_SPRITE => Err(Refusal::PceSprite),
        Mode::NGP => read_entry(Mode::NGP, bytes),
        Mode::NGPC => read_entry(Mode::NGPC, bytes),
        Mode::WS => read_entry(Mode::WS, bytes),
        Mode::WSC => read_entry(Mode::WSC, bytes),
        _ => read_entry(Mode::WSC_PACKED, bytes),
    }
}

fn index_size(m: Mode) -> usize
    ensures { result ≡ index_size m }
{
    if m.tile_bits() <= 8 || m == Mode::GBC {
        1
    } else {
        2
    }
}

// The tile index of an entry as bytes of its own.
pub fn get_tile_index(mode: u32, e: Mapentry, out: &mut [u8]) -> Result<usize, Refusal>
    ensures { Wrote (index_says mode e (length out.old)) (index_bytes mode e) out.old (written_by result) out.new }
{
    let m = entry_says(mode, e)?;
    let size = index_size(m);
    if out.len() < size {
        return Err(Refusal::Output);
    }
    words::put_word(out, 0, size, false, e.tile);
    Ok(size)
}

// What stands beside the tile index: in gbc its ninth bit too.
fn without_tile(m: Mode, e: Mapentry) -> Mapentry
    ensures { result ≡ without_tile m e }
{
    let tile = if m == Mode::GBC { e.tile } else { 0 };
    Mapentry { tile, ..e }
}

// The attribute bits of an entry.
pub fn get_attribute(mode: u32, e: Mapentry) -> Result<u32, Refusal>
    ensures { numbered_by result ≡ numbered (entry_says mode e) (attribute_of mode e) }
{
    let m = entry_says(mode, e)?;
    let word = entry_word(m, without_tile(m, e));
    Ok(word / 256)
}
