// The keys of the lines that the program reads and writes.
ghost use Rattle.std.specs.Prelude.{◌≡◌, ◌≤◌, length};
ghost use Rattle.sheet.specs.Keys.{key_of};
ghost use Rattle.sheet.specs.Inner.{text_most};

// Those of the sheet's eight lines in their order, then those that only a report has.
#[derive(Clone, Copy, Debug, PartialEq, Eq, Hash)]
pub enum Key {
    Mode,
    Depth,
    Flip,
    Discard,
    Limit,
    Palette,
    Columns,
    Rows,
    Tiles,
    Discarded,
    TileBytes,
    MapBytes,
    Refused,
}

impl Key {
    // The key with its `=`.
    #[tactic(auto, unfolding(crate::specs::Keys::key_of))]
    pub fn text(self) -> &'static [u8]
        ensures text { result.now ≡ key_of self }
        ensures length { length result.now ≤ text_most }
    {
        match self {
            Key::Mode => b"mode=",
            Key::Depth => b"depth=",
            Key::Flip => b"flip=",
            Key::Discard => b"discard=",
            Key::Limit => b"limit=",
            Key::Palette => b"palette=",
            Key::Columns => b"columns=",
            Key::Rows => b"rows=",
            Key::Tiles => b"tiles=",
            Key::Discarded => b"discarded=",
            Key::TileBytes => b"tilebytes=",
            Key::MapBytes => b"mapbytes=",
            Key::Refused => b"refused=",
        }
    }
}
