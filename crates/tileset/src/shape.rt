// The shape of a set's tiles: a mode, with a depth and a size that it has. It is lent, for the borrow checker does not cover a copy of it that is passed
// by value, since its mode has a model.
ghost use Rattle.std.specs.Prelude.{◌≡◌, ◌*◌, ◌<◌, ◌≤◌, IfOk};
ghost use Rattle.words.specs.InnerResults.{answered};
ghost use Rattle.mode.specs.Table.{pce-sprite};
ghost use Rattle.tileset.specs.Sets.{set_says};

use crate::numbers::Cells;
use crate::sets::{is_height, is_width};
use mode::Mode;
use words::refusal::Refusal;

#[derive(Clone, Copy, Debug, PartialEq, Eq)]
pub struct Shape {
    pub mode: Mode,
    pub depth: u32,
    pub width: u32,
    pub height: u32,
    pub ghost allowed: { set_says mode depth width height ≡ 0 },
}

impl Shape {
    ghost use Rattle.tileset.specs.Inner.{IsShape, IsCells};

    // The checks that every set passes.
    #[tactic(auto, unfolding(crate::specs::Sets::set_says))]
    pub fn of(mode: u32, depth: u32, width: u32, height: u32) -> Result<Shape, Refusal>
        ensures says { answered result ≡ set_says mode depth width height }
        ensures shape { IfOk result (IsShape mode depth width height) }
    {
        let console = Mode::try_from(mode)?;
        if !console.has_depth(depth) {
            return Err(Refusal::Depth);
        }
        if !is_width(mode, width) {
            return Err(Refusal::Size);
        }
        if !is_height(mode, height) {
            return Err(Refusal::Size);
        }
        Ok(Shape {
            mode: console,
            depth,
            width,
            height,
        })
    }

    // How many pixels a tile has.
    pub fn area(&self) -> usize
        ensures { (result ≡ self.now.width * self.now.height) × ((0 < result) × (result ≤ 4096)) }
    {
        (self.width * self.height) as usize
    }

    // How its tiles stand in cells; sprites stand in none.
    pub fn cells(&self) -> Cells
        requires { self.now.mode ≡ pce-sprite → ⊥ }
        ensures { IsCells self.now.mode self.now.width self.now.height result }
    {
        Cells::of(self.mode.number(), self.width, self.height)
    }
}
