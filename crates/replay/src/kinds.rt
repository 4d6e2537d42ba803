// The kinds of the list's lines.
use std::fmt;

#[derive(Clone, Copy, Debug, PartialEq, Eq)]
pub enum Kind {
    Colors,
    Palette,
    Reduce,
    Scale,
    Entry,
    Read,
    Index,
    Attribute,
    Tile,
    Pixels,
    Set,
    Cells,
    Native,
    Logical,
    Comment,
}

// All kinds, in the order in which they are told.
pub const KINDS: [Kind; 15] = [
    Kind::Colors,
    Kind::Palette,
    Kind::Reduce,
    Kind::Scale,
    Kind::Entry,
    Kind::Read,
    Kind::Index,
    Kind::Attribute,
    Kind::Tile,
    Kind::Pixels,
    Kind::Set,
    Kind::Cells,
    Kind::Native,
    Kind::Logical,
    Kind::Comment,
];

impl Kind {
    // The word that a line of the kind begins with.
    pub fn word(self) -> &'static str {
        match self {
            Kind::Colors => "colors",
            Kind::Palette => "palette",
            Kind::Reduce => "reduce",
            Kind::Scale => "scale",
            Kind::Entry => "entry",
            Kind::Read => "read",
            Kind::Index => "index",
            Kind::Attribute => "attribute",
            Kind::Tile => "tile",
            Kind::Pixels => "pixels",
            Kind::Set => "set",
            Kind::Cells => "cells",
            Kind::Native => "native",
            Kind::Logical => "logical",
            Kind::Comment => "#",
        }
    }
}

// A kind goes by its word, but for the comments.
impl fmt::Display for Kind {
    fn fmt<W: fmt::Write>(&self, f: &mut fmt::Formatter<W>) -> fmt::Result {
        match self {
            Kind::Comment => f.write_str("comments"),
            kind => f.write_str(kind.word()),
        }
    }
}
