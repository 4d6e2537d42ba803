// What the station is told: the papers' refusals, each with its number. A call answers the first of its checks that applies; they stand in the order
// of their numbers, but for 15 to 18, which stand before 11, 19, after 6, and 14, before all. 10 is no longer given: 15 to 18 stand in its place.
ghost use Rattle.std.specs.Prelude.{◌≡◌};
ghost use Rattle.words.specs.InnerResults.{refusal_number};

#[derive(Clone, Copy, Debug, PartialEq, Eq, Hash)]
pub enum Refusal {
    // Mode number above 15.
    Mode,
    // An entry, picture, redraw, cell number or native flip in pce_sprite.
    PceSprite,
    // Depth not in the mode's row.
    Depth,
    // Tile size not allowed, columns or rows outside 1..64, or a tile number above 65,535.
    Size,
    // Picture with flips on in a mode without flips.
    Flips,
    // Set state counts more tiles than its room.
    Count,
    // Input length not the one required; in redrawing also tile bytes that end before a tile the map names.
    Length,
    // A pixel of 2^depth or more, in tile packing or set writing.
    Pixel,
    // A component r, g or b above the top, gray modes included.
    Component,
    // Output buffer shorter than the bytes to be written.
    Output,
    // No room for the tiles.
    Room,
    // Discarding on, discard counter 4,294,967,295, and an added tile matches.
    Discarded,
    // Program only, before all others: settings lines not as document 01 has them.
    Settings,
    // A field of an entry that its bits cannot hold: the tile index.
    EntryTile,
    // The palette index, a picture's too.
    EntryPalette,
    // A flip where there is none.
    EntryFlip,
    // Priority where there is none.
    EntryPriority,
    // A run ended before its picture's last row, or given a strip past it.
    Rows,
}

impl Refusal {
    // The number by which the papers, C and the programs speak of it; 0 means done, and is none.
    pub fn number(self) -> u32
        ensures { result ≡ refusal_number self }
    {
        match self {
            Refusal::Mode => 1,
            Refusal::PceSprite => 2,
            Refusal::Depth => 3,
            Refusal::Size => 4,
            Refusal::Flips => 5,
            Refusal::Count => 6,
            Refusal::Length => 7,
            Refusal::Pixel => 8,
            Refusal::Component => 9,
            Refusal::Output => 11,
            Refusal::Room => 12,
            Refusal::Discarded => 13,
            Refusal::Settings => 14,
            Refusal::EntryTile => 15,
            Refusal::EntryPalette => 16,
            Refusal::EntryFlip => 17,
            Refusal::EntryPriority => 18,
            Refusal::Rows => 19,
        }
    }
}
