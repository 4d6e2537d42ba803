// Looking a tile up: among the common tiles, then among the title's own.
ghost use Rattle.std.specs.Prelude.{◌≡◌, ◌+◌, ◌*◌, ◌≤◌, length};
ghost use Rattle.std.proofs.lemmas.List.Edits.{sets};
ghost use Rattle.words.specs.InnerResults.{answered};
ghost use Rattle.tileset.specs.Sets.{area};
ghost use Rattle.tileset.specs.Finding.{cut_to, tiles_in};
ghost use Rattle.tileset.specs.History.{set_tiles};
ghost use Rattle.tileset.specs.Inner.{Finds, Looks};
ghost use Rattle.title.specs.Titles.{title_tiles, title_found, after_common, title_says, place_there, part_of, held_of, title_held};
ghost use Rattle.title.specs.Inner.{found_among, Titled, HasPart};
ghost use Rattle.title.specs.InnerResults.{hit_held, title_held_by};

use crate::Hit;
use tileset::finding::{find, put_cut};
use tileset::sets::held_says;
use tileset::{Found, Logical, Set};
use words::refusal::Refusal;

// A title: its own set, and the number of common tiles. Both stores are lent beside it, for a look-up reads the own one where adding is lent it to be
// written: one struct would not do for both.
#[derive(Clone, Copy, Debug, PartialEq, Eq)]
pub struct Title {
    pub set: Set,
    pub count: u32,
}

impl Title {
    // Whether a tile of so many pixels may be looked up, the common store having so many and the own so many.
    #[tactic(auto, using(crate::proofs::Says::title_rules))]
    pub fn says(self, shared: usize, len: usize, given: usize) -> Result<(), Refusal>
        ensures { answered result ≡ title_says self.set self.count shared len given }
    {
        held_says(self.set, len)?;
        let n = (self.set.width * self.set.height) as usize;
        if shared < (self.count as usize) * n {
            return Err(Refusal::Count);
        }
        if 65535 - self.set.stored < self.count {
            return Err(Refusal::Count);
        }
        if given != n {
            return Err(Refusal::Length);
        }
        Ok(())
    }

    // The first of so many tiles of a store that matches the tile.
    fn first_of(self, store: &[u8], count: u32, tile: &[u8]) -> Found
        requires { Finds store.now count tile.now self.set.width self.set.height }
        ensures { result ≡ found_among self.set (tiles_in (area self.set) store.now count) tile.now }
    {
        let width = self.set.width as usize;
        let height = self.set.height as usize;
        find(store, count, tile, width, height, self.set.flips)
    }

    // What is found among the own tiles.
    #[tactic(auto, using(crate::proofs::LookingLaws::own_below))]
    fn find_own(self, store: &[u8], tile: &[u8]) -> Found
        requires { Looks self.set store.now tile.now × (self.count + self.set.stored ≤ 65535) }
        ensures { result ≡ after_common self.count (found_among self.set (set_tiles self.set store.now) tile.now) }
    {
        let Found::At(place, f) = self.first_of(store, self.set.stored, tile) else {
            return Found::Nothing;
        };
        Found::At(Logical(self.count + place.0), f)
    }

    // What is found among the common tiles, or else among the own.
    #[tactic(auto, using(crate::proofs::LookingLaws::both_rules))]
    fn find_in_both(self, common: &[u8], store: &[u8], tile: &[u8]) -> Found
        requires { Titled self.set self.count common.now store.now tile.now }
        ensures { result ≡ found_among self.set (title_tiles self.set self.count common.now store.now) tile.now }
    {
        let Found::At(place, f) = self.first_of(common, self.count, tile) else {
            return self.find_own(store, tile);
        };
        Found::At(place, f)
    }

    // The same for pixels that are cut first, into a buffer.
    #[tactic(auto, using(crate::proofs::LookingLaws::cut_found))]
    fn find_cut(self, common: &[u8], store: &[u8], pixels: &[u8], tile: &mut [u8]) -> Found
        requires { Titled self.set self.count common.now store.now pixels.now × (length pixels.now ≤ length tile.old) }
        ensures { (result ≡ title_found self.set self.count common.now store.now pixels.now) × (tile.new ≡ sets tile.old 0 (cut_to self.set.depth pixels.now)) }
    {
        put_cut(self.set.depth, pixels, tile, 0);
        self.find_in_both(common, store, &tile[..pixels.len()])
    }

    // What a look-up finds in the title. A small tile has a small buffer, for a buffer is cleared at each call.
    pub fn found_in(self, common: &[u8], store: &[u8], pixels: &[u8]) -> Found
        requires { Titled self.set self.count common.now store.now pixels.now }
        ensures { result ≡ title_found self.set self.count common.now store.now pixels.now }
    {
        if pixels.len() <= 256 {
            let mut small = [0u8; 256];
            return self.find_cut(common, store, pixels, &mut small);
        }
        let mut tile = [0u8; 4096];
        self.find_cut(common, store, pixels, &mut tile)
    }

    // Where the tile at a place begins, in the store that has it.
    fn part_start(self, place: Logical) -> usize
        requires { area self.set ≤ 4096 }
        ensures { result ≡ place_there self.count place.0 * area self.set }
    {
        let n = (self.set.width * self.set.height) as usize;
        if place.0 < self.count {
            return (place.0 as usize) * n;
        }
        ((place.0 - self.count) as usize) * n
    }

    // The pixels of a tile that was found, as a part of the store that has them; an empty part if nothing was found.
    #[tactic(auto, using(crate::proofs::LookingLaws::part_rules))]
    pub fn part<'a>(self, common: &'a [u8], store: &'a [u8], found: Found) -> &'a [u8]
        requires { HasPart self.set self.count common.now store.now found }
        ensures { result.now ≡ part_of self.set self.count common.now store.now found }
    {
        let Found::At(place, _) = found else {
            return &store[0..0];
        };
        let n = (self.set.width * self.set.height) as usize;
        let at = self.part_start(place);
        if place.0 < self.count {
            return &common[at..at + n];
        }
        &store[at..at + n]
    }

    // The place that was found, with its part.
    fn hit(self, common: &[u8], store: &[u8], found: Found) -> Option<Hit>
        requires { HasPart self.set self.count common.now store.now found }
        ensures { hit_held result ≡ held_of self.set self.count found }
    {
        let Found::At(place, flip) = found else {
            return None;
        };
        Some(Hit {
            place,
            flip,
            common: place.0 < self.count,
            at: self.part_start(place),
            len: self.part(common, store, found).len(),
        })
    }
}

// Looks a tile up.
#[tactic(auto, using(crate::proofs::LookingLaws::held_rules))]
pub fn look_up(
    set: Set,
    count: u32,
    common: &[u8],
    store: &[u8],
    pixels: &[u8],
) -> Result<Option<Hit>, Refusal>
    ensures { title_held_by result ≡ title_held set count common.now store.now pixels.now }
{
    let title = Title { set, count };
    title.says(common.len(), store.len(), pixels.len())?;
    let found = title.found_in(common, store, pixels);
    Ok(title.hit(common, store, found))
}
