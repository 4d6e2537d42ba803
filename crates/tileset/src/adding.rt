// Adding a tile: it is discarded where it matches, or goes at the end.
ghost use Rattle.std.specs.Prelude.{◌≡◌, length};
ghost use Rattle.tileset.specs.Sets.{room_in};
ghost use Rattle.tileset.specs.Adding.{AddsTile};
ghost use Rattle.tileset.specs.Inner.{Stores, discard_answer, Looks};
ghost use Rattle.tileset.specs.InnerResults.{set_answer_by};

use crate::finding::{found_in, put_cut};
use crate::sets::{look_says, set_room};
use crate::{Found, Set};
use words::refusal::Refusal;

// The tile goes at the end, where there is room.
pub fn append(set: Set, store: &mut [u8], pixels: &[u8]) -> Result<Set, Refusal>
    requires { Looks set store.old pixels.now }
    ensures { Stores set (room_in set (length store.old)) store.old pixels.now (set_answer_by set result) store.new }
{
    let n = pixels.len();
    let count = set.stored as usize;
    if set_room(set.limit, store.len() / n) <= count {
        return Err(Refusal::Room);
    }
    put_cut(set.depth, pixels, store, count * n);
    Ok(Set {
        stored: set.stored + 1,
        ..set
    })
}

// A match is counted, unless the counter is full.
pub fn discard(set: Set) -> Result<Set, Refusal>
    ensures { set_answer_by set result ≡ discard_answer set }
{
    if set.discarded == u32::MAX {
        return Err(Refusal::Discarded);
    }
    Ok(Set {
        discarded: set.discarded + 1,
        ..set
    })
}

// Adds a tile.
#[tactic(auto, using(crate::proofs::AddingLaws::add_rules))]
pub fn add(set: Set, store: &mut [u8], pixels: &[u8]) -> Result<Set, Refusal>
    ensures { AddsTile set store.old pixels.now (set_answer_by set result) store.new }
{
    look_says(set, store.len(), pixels.len())?;
    if !set.discarding {
        return append(set, store, pixels);
    }
    let Found::At(_, _) = found_in(set, store, pixels) else {
        return append(set, store, pixels);
    };
    discard(set)
}
