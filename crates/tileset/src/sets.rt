// A set: its sizes, its room, and what makes its state a set's.
ghost use Rattle.std.specs.Prelude.{◌≡◌, []};
ghost use Rattle.words.specs.InnerResults.{answered};
ghost use Rattle.tileset.specs.Sets.{is_width, is_height, set_says, room_under, set_room, held_says, look_says, no_set, emptied, new_set, answered_set};
ghost use Rattle.tileset.specs.Inner.{is_side};
ghost use Rattle.tileset.specs.InnerResults.{set_answer_by};

use crate::Set;
use crate::shape::Shape;
use mode::Mode;
use words::refusal::Refusal;

fn is_side(n: u32) -> bool
    ensures { result ≡ is_side n }
{
    matches!(n, 8 | 16 | 32 | 64)
}

// The sizes that sets of the mode of this number may have. Any number is taken, also one that is no mode's, as the checks ask of the mode first.
pub fn is_width(mode: u32, width: u32) -> bool
    ensures { result ≡ is_width mode width }
{
    if mode == Mode::SNES.number() {
        is_side(width)
    } else if mode == Mode::PCE_SPRITE.number() {
        width == 16 || width == 32
    } else {
        width == 8
    }
}

pub fn is_height(mode: u32, height: u32) -> bool
    ensures { result ≡ is_height mode height }
{
    if mode == Mode::PCE_SPRITE.number() {
        height != 8 && is_side(height)
    } else {
        is_side(height)
    }
}

// Whether a mode has sets of such tiles. Any numbers are taken, for a host's are checked here.
pub fn set_says(mode: u32, depth: u32, width: u32, height: u32) -> Result<(), Refusal>
    ensures { answered result ≡ set_says mode depth width height }
{
    Shape::of(mode, depth, width, height)?;
    Ok(())
}

// A new set.
pub fn set_new(
    mode: u32,
    depth: u32,
    width: u32,
    height: u32,
    flips: bool,
    discarding: bool,
    limit: u32,
) -> Result<Set, Refusal>
    ensures { set_answer_by no_set result ≡ answered_set (set_says mode depth width height) (new_set mode depth width height flips discarding limit) no_set }
{
    set_says(mode, depth, width, height)?;
    Ok(Set {
        mode,
        depth,
        width,
        height,
        flips,
        discarding,
        limit,
        stored: 0,
        discarded: 0,
    })
}

// The set with no tiles.
pub fn set_reset(set: Set) -> Result<Set, Refusal>
    ensures { set_answer_by set result ≡ answered_set (set_says set.mode set.depth set.width set.height) (emptied set) set }
{
    set_says(set.mode, set.depth, set.width, set.height)?;
    Ok(Set {
        stored: 0,
        discarded: 0,
        ..set
    })
}

// How many tiles fit: at most so many, and at most the limit if it is not 0.
#[tactic(auto, unfolding(crate::specs::Sets::room_under))]
pub fn room(limit: u32, most: usize) -> usize
    ensures { result ≡ room_under limit most [] }
{
    if limit == 0 {
        return most;
    }
    most.min(limit as usize)
}

// How many tiles a set may have, given how many whole tiles its store has.
#[tactic(auto, unfolding(crate::specs::Sets::set_room, crate::specs::Sets::room_under))]
pub fn set_room(limit: u32, whole: usize) -> usize
    ensures { result ≡ set_room limit whole }
{
    room(limit, whole.min(65535))
}

// Whether the state is a set's, in a store of so many pixels.
#[tactic(auto, using(crate::proofs::Says::held_rules))]
pub fn held_says(set: Set, len: usize) -> Result<(), Refusal>
    ensures { answered result ≡ held_says set len }
{
    let shape = Shape::of(set.mode, set.depth, set.width, set.height)?;
    if set_room(set.limit, len / shape.area()) < set.stored as usize {
        return Err(Refusal::Count);
    }
    Ok(())
}

// Whether a tile of so many pixels may be looked up.
#[tactic(auto, using(crate::proofs::Says::look_rules))]
pub fn look_says(set: Set, len: usize, given: usize) -> Result<(), Refusal>
    ensures { answered result ≡ look_says set len given }
{
    held_says(set, len)?;
    if given != (set.width * set.height) as usize {
        return Err(Refusal::Length);
    }
    Ok(())
}
