// Titles: a set of one's own, and a common store of tiles that is only read.
#![tactic(auto)]

pub mod adding;
pub mod looking;

ghost use Rattle.std.specs.Prelude.{◌≡◌};
ghost use Rattle.title.specs.InnerResults.{title_held_by};

pub use adding::add;
use flip::Flip;
pub use looking::look_up;
use tileset::Logical;
use words::refusal::Refusal;

// A tile that was found: its place with its flip, and where its pixels lie, in the common or in the own store.
#[derive(Clone, Copy, Debug, PartialEq, Eq)]
pub struct Hit {
    pub place: Logical,
    pub flip: Flip,
    pub common: bool,
    pub at: usize,
    pub len: usize,
}

// What a host is told of a title's look-up: a set's answer, and the part of the common or the own store that the tile has.
#[repr(C)]
#[derive(Clone, Copy, Debug, Default, PartialEq, Eq)]
pub struct Held {
    pub refusal: u32,
    pub found: bool,
    pub place: u32,
    pub flip_h: bool,
    pub flip_v: bool,
    pub common: bool,
    pub at: usize,
    pub len: usize,
}

impl From<Result<Option<Hit>, Refusal>> for Held {
    ghost from_gives = { λ r h. h ≡ title_held_by r };

    fn from(answer: Result<Option<Hit>, Refusal>) -> Held {
        match answer {
            Ok(Some(hit)) => Held {
                refusal: 0,
                found: true,
                place: hit.place.0,
                flip_h: hit.flip.h,
                flip_v: hit.flip.v,
                common: hit.common,
                at: hit.at,
                len: hit.len,
            },
            Ok(None) => Held::default(),
            Err(refusal) => Held {
                refusal: refusal.number(),
                ..Held::default()
            },
        }
    }
}
