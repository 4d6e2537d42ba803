// A set with its store, which holds all its tiles.
ghost use Rattle.std.specs.Prelude.{◌≡◌, length, IfOk};
ghost use Rattle.words.specs.InnerResults.{answered};
ghost use Rattle.tileset.specs.Sets.{held_says};

use crate::Set;
use crate::sets::held_says;
use words::refusal::Refusal;

#[derive(Clone, Copy)]
pub struct Held<'a> {
    pub set: Set,
    pub store: &'a [u8],
    pub ghost held: { held_says set (length store.now) ≡ 0 },
}

impl<'a> Held<'a> {
    // The checks that every set passes that comes with its store.
    pub fn of(set: Set, store: &'a [u8]) -> Result<Held<'a>, Refusal>
        ensures says { answered result ≡ held_says set (length store.now) }
        ensures held { IfOk result (λ h. (h.set ≡ set) × (h.store.now ≡ store.now)) }
    {
        held_says(set, store.len())?;
        Ok(Held { set, store })
    }
}
