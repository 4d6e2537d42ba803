// Pictures that come in strips: a run starts with the settings, takes strips of whole tile rows, and ends when all rows have come.
#![tactic(auto)]

ghost use Rattle.std.specs.Prelude.{◌≡◌, length};
ghost use Rattle.words.specs.InnerResults.{answered};
ghost use Rattle.picture.specs.InnerResults.{picture_by};
ghost use Rattle.strip.specs.Strips.{settings_of, started, start_says, take_says, Takes, end_says, ended};
ghost use Rattle.strip.specs.Inner.{settings_says, HasRows, length_says, strip_says, counts_more};
ghost use Rattle.strip.specs.InnerResults.{run_answer_by, step_by};

use mode::Mode;
use picture::{Counts, Settings};
use words::refusal::Refusal;

// A run: the settings of its picture, the tile rows that have come, and the tiles stored and discarded so far. A caller keeps it between strips.
// Its fields stand beside each other, not as a `Settings` with three more, for C has them so.
#[repr(C)]
#[derive(Clone, Copy, Debug, Default, PartialEq, Eq)]
pub struct Run {
    pub mode: u32,
    pub depth: u32,
    pub flip: bool,
    pub discard: bool,
    pub limit: u32,
    pub palette: u32,
    pub columns: u32,
    pub rows: u32,
    pub taken: u32,
    pub tiles: u32,
    pub discarded: u32,
}

// What a host is told of a start.
#[repr(C)]
#[derive(Clone, Copy, Debug, PartialEq, Eq)]
pub struct RunAnswer {
    pub refusal: u32,
    pub run: Run,
}

impl From<Result<Run, Refusal>> for RunAnswer {
    ghost from_gives = { λ r a. a ≡ run_answer_by r };

    fn from(answer: Result<Run, Refusal>) -> RunAnswer {
        match answer {
            Ok(run) => RunAnswer { refusal: 0, run },
            Err(refusal) => RunAnswer {
                refusal: refusal.number(),
                run: Run::default(),
            },
        }
    }
}

// What an accepted strip answers, and the run after it.
#[derive(Clone, Copy, Debug, PartialEq, Eq)]
pub struct Step {
    pub counts: Counts,
    pub run: Run,
}

impl Run {
    // The settings of its picture.
    fn settings(self) -> Settings
        ensures { result ≡ settings_of self }
    {
        Settings {
            mode: self.mode,
            depth: self.depth,
            flip: self.flip,
            discard: self.discard,
            limit: self.limit,
            palette: self.palette,
            columns: self.columns,
            rows: self.rows,
        }
    }

    // Whether the record counts more tiles than its room, or more rows than its picture.
    fn counts_more(self, room: usize) -> bool
        ensures { result ≡ counts_more self room }
    {
        room < self.tiles as usize || self.rows < self.taken
    }
}

// How the checks of all three calls begin.
#[tactic(auto, using(crate::proofs::Says::settings_rules))]
fn settings_say(settings: Settings) -> Result<(), Refusal>
    ensures { answered result ≡ settings_says settings }
{
    picture::size_says(
        settings.mode,
        settings.depth,
        settings.columns,
        settings.rows,
    )?;
    if picture::lacks_flips(Mode::at(settings.mode), settings.flip) {
        return Err(Refusal::Flips);
    }
    Ok(())
}

#[tactic(auto, using(crate::proofs::Says::start_rules))]
fn start_says(settings: Settings) -> Result<(), Refusal>
    ensures { answered result ≡ start_says settings }
{
    settings_say(settings)?;
    picture::palette_says(Mode::at(settings.mode), settings.palette)
}

// Starts a run.
pub fn start(settings: Settings) -> Result<Run, Refusal>
    ensures { run_answer_by result ≡ started (start_says settings) settings }
{
    start_says(settings)?;
    Ok(Run {
        mode: settings.mode,
        depth: settings.depth,
        flip: settings.flip,
        discard: settings.discard,
        limit: settings.limit,
        palette: settings.palette,
        columns: settings.columns,
        rows: settings.rows,
        taken: 0,
        tiles: 0,
        discarded: 0,
    })
}

// The checks of a strip's length and of the map buffer's.
#[tactic(auto, using(crate::proofs::Says::length_rules))]
fn length_says(run: Run, len: usize, space: usize) -> Result<(), Refusal>
    requires { HasRows run }
    ensures { answered result ≡ length_says run len space }
{
    let row = (64 * run.columns) as usize;
    if (run.rows - run.taken) as usize * row < len {
        return Err(Refusal::Rows);
    }
    if len == 0 {
        return Err(Refusal::Length);
    }
    if len % row != 0 {
        return Err(Refusal::Length);
    }
    let m = Mode::at(run.mode);
    picture::palette_says(m, run.palette)?;
    if space < (run.columns * run.rows) as usize * mapentry::mapentry_size(m) {
        return Err(Refusal::Output);
    }
    Ok(())
}

// Every check of a strip that counts no tiles, over the record as it comes: a caller may have altered it.
#[tactic(auto, using(crate::proofs::Says::strip_rules))]
fn strip_says(run: Run, len: usize, space: usize, mapspace: usize) -> Result<(), Refusal>
    ensures { answered result ≡ strip_says run len space mapspace }
{
    let settings = run.settings();
    settings_say(settings)?;
    if run.counts_more(picture::picture_room(settings, space)) {
        return Err(Refusal::Count);
    }
    length_says(run, len, mapspace)
}

// Takes a strip: the picture goes on by its rows. A refused strip has no step: the record stays as it was.
#[tactic(auto, using(crate::proofs::Taking::take_rules))]
pub fn take(run: Run, pixels: &[u8], tiles: &mut [u8], map: &mut [u8]) -> Result<Step, Refusal>
    ensures { Takes (take_says run pixels.now tiles.old (length map.old)) run pixels.now tiles.old map.old (step_by run result) tiles.new map.new }
{
    strip_says(run, pixels.len(), tiles.len(), map.len())?;
    let rows = (pixels.len() / (64 * run.columns) as usize) as u32;
    let settings = run.settings();
    let counts = picture::go_on(
        Settings { rows, ..settings },
        pixels,
        run.tiles as usize,
        run.discarded,
        (run.taken * run.columns) as usize,
        tiles,
        map,
    )?;
    Ok(Step {
        counts,
        run: Run {
            taken: run.taken + rows,
            tiles: counts.tiles,
            discarded: counts.discarded,
            ..run
        },
    })
}

#[tactic(auto, using(crate::proofs::Says::end_rules))]
fn end_says(run: Run) -> Result<(), Refusal>
    ensures { answered result ≡ end_says run }
{
    settings_say(run.settings())?;
    let m = Mode::at(run.mode);
    if run.counts_more(tileset::room(run.limit, picture::most_tiles(m))) {
        return Err(Refusal::Count);
    }
    if run.taken < run.rows {
        return Err(Refusal::Rows);
    }
    picture::palette_says(m, run.palette)
}

// Ends a run: the whole picture's counts and lengths.
#[tactic(auto, using(crate::proofs::Says::ended_rules))]
pub fn end(run: Run) -> Result<Counts, Refusal>
    ensures { picture_by result ≡ ended (end_says run) run }
{
    end_says(run)?;
    let entry = mapentry::mapentry_size(Mode::at(run.mode));
    Ok(Counts {
        tiles: run.tiles,
        discarded: run.discarded,
        tile_bytes: run.tiles as usize * (run.depth * 8) as usize,
        map_bytes: (run.columns * run.rows) as usize * entry,
    })
}
