// Adding a tile to a title's own set: it is discarded where it matches a common or an own tile, or goes at the end.
ghost use Rattle.std.specs.Prelude.{◌+◌, ◌≤◌, length};
ghost use Rattle.tileset.specs.Inner.{Stores, Looks};
ghost use Rattle.tileset.specs.InnerResults.{set_answer_by};
ghost use Rattle.title.specs.Titles.{title_room, AddsToTitle};

use crate::looking::Title;
use tileset::{Found, Set};
use words::refusal::Refusal;

// The most tiles that the common store and the own one hold together, for a map's number names one of either.
const MOST: u32 = 65535;

// The tile goes at the end of the own store, where there is room and the counts allow one more.
fn append(title: Title, store: &mut [u8], pixels: &[u8]) -> Result<Set, Refusal>
    requires { Looks title.set store.old pixels.now × (title.count + title.set.stored ≤ 65535) }
    ensures { Stores title.set (title_room title.set title.count (length store.old)) store.old pixels.now (set_answer_by title.set result) store.new }
{
    if title.count + title.set.stored == MOST {
        return Err(Refusal::Room);
    }
    tileset::adding::append(title.set, store, pixels)
}

// Adds a tile.
#[tactic(auto, using(crate::proofs::AddingLaws::add_rules))]
pub fn add(
    set: Set,
    count: u32,
    common: &[u8],
    store: &mut [u8],
    pixels: &[u8],
) -> Result<Set, Refusal>
    ensures { AddsToTitle set count common.now store.old pixels.now (set_answer_by set result) store.new }
{
    let title = Title { set, count };
    title.says(common.len(), store.len(), pixels.len())?;
    if !set.discarding {
        return append(title, store, pixels);
    }
    let Found::At(_, _) = title.found_in(common, store, pixels) else {
        return append(title, store, pixels);
    };
    tileset::adding::discard(set)
}
