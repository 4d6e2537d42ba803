// Tile sets: looking tiles up, adding them, writing and reading them, and the two kinds of tile number.
#![tactic(auto)]

ghost use Rattle.std.specs.Prelude.{◌≡◌};

pub mod adding;
pub mod finding;
mod held;
pub mod numbers;
pub mod reading;
pub mod sets;
mod shape;
pub mod writing;

pub use adding::add;
pub use finding::{find, look_up};
use flip::Flip;
pub use numbers::{logical_number, native_number};
pub use reading::read;
pub use sets::{room, set_new, set_reset};
use words::refusal::Refusal;
pub use writing::write;

// A set: its settings, and how many tiles it stores and has discarded. Its tiles live in a lent store, a byte a pixel.
#[repr(C)]
#[derive(Clone, Copy, Debug, PartialEq, Eq)]
pub struct Set {
    pub mode: u32,
    pub depth: u32,
    pub width: u32,
    pub height: u32,
    pub flips: bool,
    pub discarding: bool,
    pub limit: u32,
    pub stored: u32,
    pub discarded: u32,
}

impl Set {
    // What a host is handed where a set was refused that is not made yet.
    pub const NONE: Set = Set {
        mode: 0,
        depth: 0,
        width: 0,
        height: 0,
        flips: false,
        discarding: false,
        limit: 0,
        stored: 0,
        discarded: 0,
    };
}

#[repr(C)]
#[derive(Clone, Copy, Debug, PartialEq, Eq)]
pub struct SetAnswer {
    pub refusal: u32,
    pub set: Set,
}

impl SetAnswer {
    ghost use Rattle.tileset.specs.InnerResults.{set_answer_by};

    // What a host is told of a call on a set: where it was refused, the set is the one that was given.
    pub fn new(given: Set, answer: Result<Set, Refusal>) -> SetAnswer
        ensures { result ≡ set_answer_by given answer }
    {
        match answer {
            Ok(set) => SetAnswer { refusal: 0, set },
            Err(refusal) => SetAnswer {
                refusal: refusal.number(),
                set: given,
            },
        }
    }
}

// What a look-up finds: a place, which is a logical number, with its flip; or nothing. Document 01 names this form, so it is no Option.
#[derive(Clone, Copy, Debug, PartialEq, Eq)]
pub enum Found {
    At(Logical, Flip),
    Nothing,
}

#[repr(C)]
#[derive(Clone, Copy, Debug, PartialEq, Eq)]
pub struct Place {
    pub refusal: u32,
    pub found: bool,
    pub place: u32,
    pub flip_h: bool,
    pub flip_v: bool,
}

impl From<Result<Found, Refusal>> for Place {
    ghost use Rattle.tileset.specs.InnerResults.{place_by};

    ghost from_gives = { λ r p. p ≡ place_by r };

    fn from(answer: Result<Found, Refusal>) -> Place {
        let nothing = Place {
            refusal: 0,
            found: false,
            place: 0,
            flip_h: false,
            flip_v: false,
        };
        match answer {
            Ok(Found::At(place, f)) => Place {
                refusal: 0,
                found: true,
                place: place.0,
                flip_h: f.h,
                flip_v: f.v,
            },
            Ok(Found::Nothing) => nothing,
            Err(refusal) => Place {
                refusal: refusal.number(),
                ..nothing
            },
        }
    }
}

// Native numbers count 8x8 cells, logical numbers count whole tiles.
#[derive(Clone, Copy, Debug, PartialEq, Eq)]
pub struct Native(pub u32);

#[derive(Clone, Copy, Debug, PartialEq, Eq)]
pub struct Logical(pub u32);
