// The sixteen modes: document 01's table, and the modes' names.
#![tactic(auto)]

ghost use Rattle.std.specs.Prelude.{◌≡◌, ◌<◌, ◌≤◌, get_or};
ghost use Rattle.words.specs.Bytes.{same};
ghost use Rattle.mode.specs.Table.{row, has_depth};
ghost use Rattle.mode.specs.Inner.{numbers, entry_bits, Few, consoles, IsMode};
ghost use Rattle.mode.specs.Names.{name_of, mode_named};

use std::marker::Model;
use words::refusal::Refusal;

// All sixteen modes in one fixed table. A mode with fewer than three depths repeats its last; flips and priority are numbers of bits.
// depths, top, entry bytes, tile bits, palette bits, flips, priority
const ROWS: [[u8; 9]; 16] = [
    [2, 4, 8, 31, 2, 10, 3, 1, 1], // snes
    [8, 8, 8, 31, 1, 8, 0, 0, 0], // snes_mode7
    [1, 2, 2, 3, 1, 8, 0, 0, 0], // gb
    [1, 2, 2, 31, 2, 9, 3, 1, 1], // gbc
    [4, 8, 8, 31, 2, 10, 4, 1, 0], // gba
    [8, 8, 8, 31, 1, 8, 0, 0, 0], // gba_affine
    [4, 4, 4, 7, 2, 11, 2, 1, 1], // md
    [4, 4, 4, 3, 2, 9, 1, 1, 1], // sms
    [4, 4, 4, 15, 2, 9, 1, 1, 1], // gg
    [4, 4, 4, 7, 2, 12, 4, 0, 0], // pce
    [4, 4, 4, 7, 0, 0, 0, 0, 0], // pce_sprite
    [2, 2, 2, 7, 2, 9, 1, 1, 0], // ngp
    [2, 2, 2, 15, 2, 9, 4, 1, 0], // ngpc
    [2, 2, 2, 7, 2, 9, 4, 1, 0], // ws
    [2, 4, 4, 15, 2, 10, 4, 1, 0], // wsc
    [4, 4, 4, 15, 2, 10, 4, 1, 0], // wsc_packed
];

#[derive(Clone, Copy, Debug, PartialEq, Eq, Hash)]
pub struct Mode(u32);

// A mode, known by its number, "numbered 0 to 15 in this order": a clause sees the number, which is always a mode's.
impl Model for Mode {
    ghost use Rattle.std.specs.Prelude.{ℕ, ◌<◌};

    ghost Value = { ℕ };

    ghost view = { λ m. m.0 };

    ghost invariant = { λ m. m.0 < 16 };

    ghost inverse = { λ n. record { 0 = n } };
}

// How many bits each field of an entry has.
#[derive(Clone, Copy, Debug, PartialEq, Eq, Hash)]
pub struct EntryBits {
    pub tile: u32,
    pub palette: u32,
    pub flips: u32,
    pub priority: u32,
}

impl Mode {
    pub const SNES: Mode = Mode(0);

    pub const SNES_MODE7: Mode = Mode(1);

    pub const GB: Mode = Mode(2);

    pub const GBC: Mode = Mode(3);

    pub const GBA: Mode = Mode(4);

    pub const GBA_AFFINE: Mode = Mode(5);

    pub const MD: Mode = Mode(6);

    pub const SMS: Mode = Mode(7);

    pub const GG: Mode = Mode(8);

    pub const PCE: Mode = Mode(9);

    pub const PCE_SPRITE: Mode = Mode(10);

    pub const NGP: Mode = Mode(11);

    pub const NGPC: Mode = Mode(12);

    pub const WS: Mode = Mode(13);

    pub const WSC: Mode = Mode(14);

    pub const WSC_PACKED: Mode = Mode(15);

    // The mode of a number that is known to be one's.
    pub fn at(number: u32) -> Mode
        requires { number < 16 }
        ensures { result ≡ number }
    {
        Mode(number)
    }

    // The mode's number.
    pub fn number(self) -> u32
        ensures { (result ≡ self) × (result < 16) }
    {
        self.0
    }

    // The mode's numbers, as the table has them. A match, for a variable index would copy the table to the stack at each use.
    #[tactic(auto, unfolding(crate::specs::Table::row))]
    pub fn row(self) -> [u8; 9]
        ensures row { result ≡ numbers (row self) }
        ensures mode { self < 16 }
    {
        let rows = ROWS;
        match self {
            Mode::SNES => rows[0],
            Mode::SNES_MODE7 => rows[1],
            Mode::GB => rows[2],
            Mode::GBC => rows[3],
            Mode::GBA => rows[4],
            Mode::GBA_AFFINE => rows[5],
            Mode::MD => rows[6],
            Mode::SMS => rows[7],
            Mode::GG => rows[8],
            Mode::PCE => rows[9],
            Mode::PCE_SPRITE => rows[10],
            Mode::NGP => rows[11],
            Mode::NGPC => rows[12],
            Mode::WS => rows[13],
            Mode::WSC => rows[14],
            _ => rows[15],
        }
    }

    // Whether the depth is one of the mode's.
    pub fn has_depth(self, depth: u32) -> bool
        ensures { result ≡ has_depth self depth }
    {
        let r = self.row();
        if depth == u32::from(r[0]) {
            return true;
        }
        if depth == u32::from(r[1]) {
            return true;
        }
        depth == u32::from(r[2])
    }

    // The largest colour component.
    pub fn top(self) -> u32
        ensures { result ≡ (row self).top }
    {
        let r = self.row();
        u32::from(r[3])
    }

    // How many bytes an entry has.
    pub fn entry_size(self) -> u32
        ensures { result ≡ (row self).entry }
    {
        let r = self.row();
        u32::from(r[4])
    }

    // How many bits of an entry the tile index has.
    pub fn tile_bits(self) -> u32
        ensures { (result ≡ (row self).tile) × (result ≤ 12) }
    {
        let r = self.row();
        u32::from(r[5])
    }

    // How many bits of an entry the palette index has.
    pub fn palette_bits(self) -> u32
        ensures { (result ≡ (row self).palette) × (result ≤ 12) }
    {
        let r = self.row();
        u32::from(r[6])
    }

    // How many bits of an entry each flip has.
    pub fn flip_bits(self) -> u32
        ensures { (result ≡ (row self).flips) × (result ≤ 12) }
    {
        let r = self.row();
        u32::from(r[7])
    }

    // How many bits of an entry priority has.
    pub fn priority_bits(self) -> u32
        ensures { (result ≡ (row self).priority) × (result ≤ 12) }
    {
        let r = self.row();
        u32::from(r[8])
    }

    // The four at once, with one look at the table.
    pub fn entry_bits(self) -> EntryBits
        ensures { (result ≡ entry_bits (row self)) × Few result }
    {
        let r = self.row();
        EntryBits {
            tile: u32::from(r[5]),
            palette: u32::from(r[6]),
            flips: u32::from(r[7]),
            priority: u32::from(r[8]),
        }
    }

    // The mode's name.
    #[tactic(auto, unfolding(crate::specs::Names::name_of))]
    pub fn name(self) -> &'static [u8]
        ensures { result.now ≡ name_of self }
    {
        match self {
            Mode::SNES => b"snes",
            Mode::SNES_MODE7 => b"snes_mode7",
            Mode::GB => b"gb",
            Mode::GBC => b"gbc",
            Mode::GBA => b"gba",
            Mode::GBA_AFFINE => b"gba_affine",
            Mode::MD => b"md",
            Mode::SMS => b"sms",
            Mode::GG => b"gg",
            Mode::PCE => b"pce",
            Mode::PCE_SPRITE => b"pce_sprite",
            Mode::NGP => b"ngp",
            Mode::NGPC => b"ngpc",
            Mode::WS => b"ws",
            Mode::WSC => b"wsc",
            _ => b"wsc_packed",
        }
    }

    // Whether the bytes are the mode's name.
    pub fn is_named(self, s: &[u8]) -> bool
        ensures { result ≡ same s.now (name_of self) }
    {
        words::same_bytes(s, self.name())
    }

    // The mode that the bytes name.
    pub fn named(s: &[u8]) -> Option<Mode>
        ensures { result ≡ mode_named s.now }
    {
        for number in 0..16 {
            let mode = Mode(number);
            if mode.is_named(s) {
                return Some(mode);
            }
        }
        None
    }
}

// "Mode number above 15" is refused.
impl TryFrom<u32> for Mode {
    type Error = Refusal;

    ghost try_from_gives = { IsMode };

    fn try_from(number: u32) -> Result<Mode, Refusal> {
        if 15 < number {
            return Err(Refusal::Mode);
        }
        Ok(Mode(number))
    }
}

// The sixteen modes in order, by their consoles' constants.
pub fn consoles() -> [Mode; 16]
    ensures { result ≡ consoles }
{
    [
        Mode::SNES,
        Mode::SNES_MODE7,
        Mode::GB,
        Mode::GBC,
        Mode::GBA,
        Mode::GBA_AFFINE,
        Mode::MD,
        Mode::SMS,
        Mode::GG,
        Mode::PCE,
        Mode::PCE_SPRITE,
        Mode::NGP,
        Mode::NGPC,
        Mode::WS,
        Mode::WSC,
        Mode::WSC_PACKED,
    ]
}
