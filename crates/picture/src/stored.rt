// The tiles that a conversion has stored, and where they stand: so many in the tile buffer, written before it; then tiles of its picture,
// whose numbers are in `from`. None is copied: a tile is unpacked, or taken out of the picture, where its key says that it may match.
ghost use Rattle.std.specs.Prelude.{◌≡◌, ◌*◌, length, take, drop};
ghost use Rattle.tile.specs.Tile.{unpacked};
ghost use Rattle.flip.specs.Matching.{match_flip};
ghost use Rattle.tileset.specs.Finding.{look_up};
ghost use Rattle.picture.specs.Inner.{HasWritten, tile_of, tiles_of, LooksAt, Finds, IndexesWritten, Indexes, Stores, StoredAs, Keeps, KeptAs, Gathers, GatheredAs};

use crate::{Settings, code, take_tile};
use flip::Flip;
use index::{Index, bucket};
use mode::Mode;
use tileset::{Found, Logical};
use words::refusal::Refusal;

// What stored tiles are read from: the picture, and the tile buffer.
#[derive(Clone, Copy, Debug)]
pub struct Source<'a> {
    pub settings: Settings,
    pub pixels: &'a [u8],
    pub tiles: &'a [u8],
}

// The stored tiles: how many are written, and how many there are; the number in the picture of each that is not written; and their index. It
// is 40 KiB of fixed memory, for nothing here asks for any: lent, and not to be copied. The tiles are places and not references, since they stand in
// lent buffers, one of which is written in the end.
#[derive(Drop)]
pub struct Store {
    pub held: usize,
    pub count: usize,
    pub from: [u16; 4096],
    pub index: Index,
}

// Tile k of a tile buffer, in out.
pub fn read_tile(m: Mode, depth: u32, tiles: &[u8], k: usize, out: &mut [u8])
    requires { HasWritten m depth tiles.now k × (length out.old ≡ 64) }
    ensures { out.new ≡ unpacked m depth 8 8 (take (depth * 8) (drop (k * (depth * 8)) tiles.now)) }
{
    let p = tile::packing_of(m, depth, 8, 8);
    tile::put_pixels(p, tiles, k * (depth * 8) as usize, out, 0);
}

// How a tile matches another, by the set's search among one. It stands by itself, and reads a row of eight pixels at once: compiled into its
// caller, where the tile was just made, it takes that apart into bytes, and a picture of 4,096 tiles takes a fifth longer.
#[inline(never)]
fn match_one(other: &[u8; 64], tile: &[u8; 64], flips: bool) -> Option<Flip>
    ensures { result ≡ match_flip flips 8 8 other.now tile.now }
{
    let Found::At(_, f) = tileset::find(other, 1, tile, 8, 8, flips) else {
        return None;
    };
    Some(f)
}

impl Store {
    // How stored tile k matches the tile, whose key is q: tiles are compared only where their keys agree.
    fn match_at(&self, source: &Source, k: usize, tile: &[u8; 64], q: u32) -> Option<Flip>
        requires { LooksAt source.now self.now k tile.now q }
        ensures { result ≡ match_flip source.now.settings.flip 8 8 (tile_of source.now self.now k) tile.now }
    {
        let z = source.settings;
        if !self.index.has_key(k, q) {
            return None;
        }
        if k < self.held {
            let mut other = [0u8; 64];
            read_tile(Mode::at(z.mode), z.depth, source.tiles, k, &mut other);
            return match_one(&other, tile, z.flip);
        }
        let i = usize::from(self.from[k]);
        let other = take_tile(z.depth, source.pixels, z.columns as usize, i);
        match_one(&other, tile, z.flip)
    }

    // The first stored tile that matches the tile, whose key is q.
    pub fn find(&self, source: &Source, tile: &[u8; 64], q: u32) -> Found
        requires { Finds source.now self.now tile.now q }
        ensures { result ≡ look_up source.now.settings.flip 8 8 (tiles_of source.now self.now) tile.now }
    {
        let b = bucket(q);
        let mut l = self.index.head(b);
        let mut found = Found::Nothing;
        // A while: the links say where the chain goes on, and no count does.
        while 0 < l {
            let k = l - 1;
            let m = self.match_at(source, k, tile, q);
            found = index::over(m, k, found);
            l = self.index.link(b, k);
        }
        found
    }

    // The index of the tiles that are written.
    pub fn index_written(&mut self, source: &Source)
        requires { IndexesWritten source.now self.old }
        ensures { Indexes source.now self.old self.old.held self.new }
    {
        let z = source.settings;
        for k in 0..self.held {
            let mut tile = [0u8; 64];
            read_tile(Mode::at(z.mode), z.depth, source.tiles, k, &mut tile);
            let q = index::key(&tile, z.flip);
            let found = self.find(source, &tile, q);
            self.index.enter(k, q, found);
            self.count = k + 1;
        }
    }

    // Tile i of the picture goes at the end, where there is room: its key is q, and found is what a look-up of it found.
    fn store_tile(&mut self, room: usize, i: usize, q: u32, found: Found) -> Result<(), Refusal>
        requires { Stores self.old room i }
        ensures { StoredAs self.old room i q found self.new result }
    {
        if room <= self.count {
            return Err(Refusal::Room);
        }
        self.from[self.count] = i as u16;
        self.index.enter(self.count, q, found);
        self.count += 1;
        Ok(())
    }

    // Tile i of the picture, and the code of its place: it is not stored where discarding is on and a stored one matches.
    fn keep_tile(&mut self, source: &Source, room: usize, i: usize) -> Result<u16, Refusal>
        requires { Keeps source.now self.old room i }
        ensures { KeptAs source.now self.old room i self.new result }
    {
        let z = source.settings;
        let tile = take_tile(z.depth, source.pixels, z.columns as usize, i);
        let q = index::key(&tile, z.flip);
        let found = self.find(source, &tile, q);
        let Found::At(place, f) = found else {
            let last = code(Logical(self.count as u32), Flip { h: false, v: false });
            self.store_tile(room, i, q, found)?;
            return Ok(last);
        };
        let first = code(place, f);
        if z.discard {
            return Ok(first);
        }
        self.store_tile(room, i, q, found)?;
        Ok(first)
    }

    // The tiles that are kept of the picture, after those that are written; and the code of each tile's place among them.
    pub fn gather(
        &mut self,
        source: &Source,
        room: usize,
        codes: &mut [u16; 4096],
    ) -> Result<(), Refusal>
        requires { Gathers source.now self.old room codes.old }
        ensures { GatheredAs source.now self.old room self.new codes.new result }
    {
        let end = (source.settings.columns * source.settings.rows) as usize;
        for i in 0..end {
            codes[i] = self.keep_tile(source, room, i)?;
        }
        Ok(())
    }
}
