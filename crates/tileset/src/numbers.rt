// The two kinds of tile number, and the two formulas between them.
ghost use Rattle.std.specs.Prelude.{◌≡◌, ◌/◌, ◌<◌, ◌≤◌};
ghost use Rattle.words.specs.Answers.{numbered};
ghost use Rattle.words.specs.InnerResults.{answered};
ghost use Rattle.tileset.specs.Numbers.{row_cells, starts_at, belongs_to, first_cell, tile_of, grid_says, native_says, logical_says, Grid};
ghost use Rattle.tileset.specs.InnerResults.{native_by, logical_by};

use crate::sets::{is_height, is_width};
use crate::{Logical, Native};
use mode::Mode;
use words::refusal::Refusal;

// Whether a mode numbers the cells of such tiles.
#[tactic(auto, unfolding(crate::specs::Numbers::grid_says))]
fn grid_says(mode: u32, width: u32, height: u32) -> Result<(), Refusal>
    ensures { answered result ≡ grid_says mode width height }
{
    if Mode::try_from(mode)? == Mode::PCE_SPRITE {
        return Err(Refusal::PceSprite);
    }
    if !is_width(mode, width) {
        return Err(Refusal::Size);
    }
    if !is_height(mode, height) {
        return Err(Refusal::Size);
    }
    Ok(())
}

pub fn row_cells(mode: u32) -> u32
    ensures { result ≡ row_cells mode }
{
    if mode == Mode::SNES.number() { 16 } else { 1 }
}

// How a mode's tiles stand in cells: so many cells a row, and each tile so many across and down.
#[derive(Clone, Copy, Debug, PartialEq, Eq)]
pub struct Cells {
    pub row: u32,
    pub across: u32,
    pub down: u32,
    pub ghost grid: { Grid row across down },
}

impl Cells {
    ghost use Rattle.tileset.specs.Inner.{IsCells};

    pub fn of(mode: u32, width: u32, height: u32) -> Cells
        requires { Grid (row_cells mode) (width / 8) (height / 8) }
        ensures { IsCells mode width height result }
    {
        Cells {
            row: row_cells(mode),
            across: width / 8,
            down: height / 8,
        }
    }

    // How many tiles stand in a row of cells.
    pub fn tiles(self) -> u32
        ensures { (result ≡ self.row / self.across) × (0 < result) }
    {
        self.row / self.across
    }

    // Where a tile starts.
    pub fn starts_at(self, tile: Logical) -> Native
        requires { tile.0 ≤ 65535 }
        ensures { result.0 ≡ starts_at self.row self.across self.down tile.0 }
    {
        let tiles = self.tiles();
        let n = tile.0;
        Native(n / tiles * self.down * self.row + n % tiles * self.across)
    }

    // The tile that a cell belongs to.
    pub fn belongs_to(self, cell: Native) -> Logical
        ensures { result.0 ≡ belongs_to self.row self.across self.down cell.0 }
    {
        let c = cell.0;
        Logical(c / self.row / self.down * self.tiles() + c % self.row / self.across)
    }
}

// Where a tile starts. It and tile_of are the two index formulas by name, of plain numbers: any mode's number was taken, also one that is none.
pub fn first_cell(mode: u32, width: u32, height: u32, tile: Logical) -> Native
    requires { Grid (row_cells mode) (width / 8) (height / 8) × (tile.0 ≤ 65535) }
    ensures { result.0 ≡ first_cell mode width height tile.0 }
{
    Cells::of(mode, width, height).starts_at(tile)
}

// The tile that a cell belongs to.
pub fn tile_of(mode: u32, width: u32, height: u32, cell: Native) -> Logical
    requires { Grid (row_cells mode) (width / 8) (height / 8) }
    ensures { result.0 ≡ tile_of mode width height cell.0 }
{
    Cells::of(mode, width, height).belongs_to(cell)
}

// The native number of a tile.
#[tactic(auto, using(crate::proofs::NumberLaws::number_rules))]
pub fn native_number(mode: u32, width: u32, height: u32, tile: Logical) -> Result<Native, Refusal>
    ensures { native_by result ≡ numbered (native_says mode width height tile.0) (first_cell mode width height tile.0) }
{
    grid_says(mode, width, height)?;
    if 65535 < tile.0 {
        return Err(Refusal::Size);
    }
    Ok(first_cell(mode, width, height, tile))
}

// The logical number of a cell.
#[tactic(auto, using(crate::proofs::NumberLaws::number_rules))]
pub fn logical_number(mode: u32, width: u32, height: u32, cell: Native) -> Result<Logical, Refusal>
    ensures { logical_by result ≡ numbered (logical_says mode width height cell.0) (tile_of mode width height cell.0) }
{
    grid_says(mode, width, height)?;
    let tile = tile_of(mode, width, height, cell);
    if 65535 < tile.0 {
        return Err(Refusal::Size);
    }
    Ok(tile)
}
