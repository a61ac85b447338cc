// tablet draw FILE COLUMN: the readings as a picture. This file has the command and what it says in words; `terminal.rt` and `svg.rt`
// draw.
use crate::kinds::Kind;
use crate::numbers::Kept;
use crate::pen::{Desk, Pen, Said, Sheet};
use crate::refusals::Refusal;
use crate::walk::Surveyed;
use crate::{column, files, help, kinds, places, rooms, rows, svg, terminal, walk, words};
use decimal::HALF;
use picture::{Scale, Stretch};
use refusal::Why;
use std::fs::File;
use std::rt::Files;

// A column that was found in its block: its specification, and its bytes that are there.
#[derive(Clone, Copy)]
pub struct Found<'b> {
    pub spec: u32,
    pub part: &'b [u8],
}

// The column that is drawn: its file, its position, the column where it was found, and the break behind the readings that are drawn.
#[derive(Clone, Copy)]
pub struct Subject<'b> {
    pub path: &'b [u8],
    pub position: usize,
    pub found: Option<Found<'b>>,
    pub fault: Option<Refusal>,
}

// Where a picture goes: the terminal, or a file, which may replace one that is there.
#[derive(Clone, Copy)]
enum Target<'a> {
    Terminal,
    File { path: &'a [u8], over: bool },
}

// What is drawn of a subject: readings, of which `all` is known, or a break alone.
#[derive(Clone, Copy)]
enum Scene {
    Readings(usize, Stretch),
    Break,
}

impl<'b> Subject<'b> {
    pub fn kind(self) -> Kind {
        self.found
            .map_or(Kind::Unserved, |found| kinds::of_spec(found.spec))
    }

    pub fn part(self) -> &'b [u8] {
        self.found.map_or(&[], |found| found.part)
    }

    pub fn is_broken(self) -> bool {
        self.fault.is_some()
    }

    // The column in words, behind the file's name.
    pub fn say(self, pen: &mut Pen<'_>) {
        write!(pen, ", column {}", self.position);
        if let Some(found) = self.found {
            let name = kinds::name(found.spec);
            let id = kinds::id(found.spec);
            write!(pen, ": {name}, id {id}, {} bytes", found.part.len());
        }
    }

    // The break in words.
    pub fn say_break(self, pen: &mut Pen<'_>) {
        if let Some(fault) = self.fault {
            write!(pen, "the column breaks here: {fault}");
        }
    }

    // What is said of a break that stands alone.
    pub fn say_alone(self, pen: &mut Pen<'_>) {
        write!(pen, "no reading is drawn");
        if self.kind() != Kind::Unserved {
            write!(pen, "; tablet salvage saves what it can before a break");
        }
    }

    // What is known of all its readings, or of those before the break.
    pub fn say_facts(self, pen: &mut Pen<'_>, all: Stretch) {
        let n = all.here.saturating_add(all.gone);
        write!(pen, "{n} readings");
        if self.is_broken() {
            write!(pen, " before the break");
        }
        write!(pen, ", {} absent", all.gone);
        let kind = self.kind();
        if all.here != 0 && kind != Kind::YesNo {
            let low = Kept {
                kind,
                value: all.low,
            };
            let high = Kept {
                kind,
                value: all.high,
            };
            write!(pen, "; depths from {low} to {high} µm");
        }
    }

    // Does a break stand alone, where n readings are before it? Names are not drawn, and no walk is so long.
    fn is_alone(self, n: u64) -> bool {
        self.is_broken() && (self.kind() == Kind::Text || n == 0 || walk::LONGEST < n)
    }
}

// The scale for all of n readings, over so many places at most. A row begins at the depth 0; a yes and a no have a row each.
pub fn scale_for(all: Stretch, kind: Kind, n: usize, width: usize) -> Scale {
    match kind {
        Kind::YesNo => picture::scale_for(0, 1, 0, n, width),
        Kind::Signed => picture::scale_for(all.low, all.high, HALF, n, width),
        _ => picture::scale_for(all.low, all.high, 0, n, width),
    }
}

fn draw_svg(pen: &mut Pen<'_>, s: Subject<'_>, scene: Scene) {
    match scene {
        Scene::Readings(n, all) => svg::picture(pen, s, n, all),
        Scene::Break => svg::fracture(pen, s),
    }
}

// A picture in the terminal, or in a file.
fn draw_scene(
    rt: &impl Files<File = File>,
    s: Subject<'_>,
    scene: Scene,
    target: Target<'_>,
    desk: Desk,
) -> Result<(), Said> {
    let mut out = desk.out();
    let Target::File { path, over } = target else {
        match scene {
            Scene::Readings(n, all) => terminal::picture(&mut out, s, n, all),
            Scene::Break => terminal::fracture(&mut out, s),
        }
        return out.finish(desk);
    };
    let file = files::begin(rt, path, over, desk)?;
    let mut page = Pen::on(Sheet::Page(&file));
    draw_svg(&mut page, s, scene);
    let error = page.error;
    files::end(rt, path, file, error, desk)?;
    out.bytes(path);
    writeln!(out, ": written");
    out.finish(desk)
}

// A column of n readings, or so many before its break, which are walked first for what is known of all of them.
fn draw_walked(
    rt: &impl Files<File = File>,
    s: Subject<'_>,
    n: u64,
    target: Target<'_>,
    desk: Desk,
) -> Result<(), Said> {
    if s.is_alone(n) {
        return draw_scene(rt, s, Scene::Break, target, desk);
    }
    let kind = s.kind();
    if kind == Kind::Text {
        writeln!(
            files::about(s.path, desk),
            "column {}: a text column (names: {n}) is not drawn; tablet read lists it",
            s.position
        );
        return Err(Said);
    }
    if walk::LONGEST < n {
        return Err(column::say_long(s.path, s.position, n, desk));
    }
    let n = n as usize;
    let all = places::all(s.part(), kind, n);
    draw_scene(rt, s, Scene::Readings(n, all), target, desk)
}

// A column that was not found in a block is drawn as a break too; why was said.
fn draw_lost(
    rt: &impl Files<File = File>,
    path: &[u8],
    position: usize,
    fault: Refusal,
    target: Target<'_>,
    desk: Desk,
) -> Said {
    let s = Subject {
        path,
        position,
        found: None,
        fault: Some(fault),
    };
    let _ = draw_scene(rt, s, Scene::Break, target, desk);
    Said
}

// A column that the table has. Where it is broken, that is said too.
fn draw_found(
    rt: &impl Files<File = File>,
    path: &[u8],
    position: usize,
    found: Found<'_>,
    target: Target<'_>,
    desk: Desk,
) -> Result<(), Said> {
    let Surveyed { readings, fault } = walk::survey(found.part, kinds::of_spec(found.spec));
    let s = Subject {
        path,
        position,
        found: Some(found),
        fault,
    };
    let drawn = draw_walked(rt, s, readings, target, desk);
    match fault {
        None => drawn,
        Some(fault) => Err(column::say_refused(path, position, fault, desk)),
    }
}

// What is there of a column in a block whose data end too early, which was said. A column of which not all bytes are there breaks, even if those read.
fn draw_cut(
    rt: &impl Files<File = File>,
    path: &[u8],
    block: &[u8],
    position: usize,
    target: Target<'_>,
    desk: Desk,
) -> Said {
    let c = rows::piece_at(block, position);
    let Surveyed { readings, fault } = walk::survey(c.part, kinds::of_spec(c.spec));
    let s = Subject {
        path,
        position,
        found: Some(Found {
            spec: c.spec,
            part: c.part,
        }),
        fault: if c.is_whole() {
            fault
        } else {
            fault.or(Some(Refusal::new(Why::ColumnsTooLong, 0)))
        },
    };
    let _ = draw_walked(rt, s, readings, target, desk);
    Said
}

fn draw(
    rt: &impl Files<File = File>,
    line: &[u8],
    target: Target<'_>,
    desk: Desk,
) -> Result<(), Said> {
    let mut room = rooms::block();
    let path = words::word(line, 1);
    let (position, block) = column::named(rt, line, &mut room, desk)?;
    match column::found(path, block, position, desk) {
        Ok(c) => {
            let found = Found {
                spec: c.spec,
                part: c.part,
            };
            draw_found(rt, path, position, found, target, desk)
        }
        Err(fault) if fault.why == Why::ColumnsTooLong && position < rows::count(block) => {
            Err(draw_cut(rt, path, block, position, target, desk))
        }
        Err(fault) => Err(draw_lost(rt, path, position, fault, target, desk)),
    }
}

// A file without a name is the terminal too.
fn target_of(path: &[u8], over: bool) -> Target<'_> {
    if path.is_empty() {
        Target::Terminal
    } else {
        Target::File { path, over }
    }
}

// What stands behind FILE COLUMN: nothing, --svg OUT, or --svg OUT --over.
pub fn run(rt: &impl Files<File = File>, line: &[u8], desk: Desk) -> Result<(), Said> {
    if words::count(line) == 3 {
        return draw(rt, line, Target::Terminal, desk);
    }
    match (words::word(line, 3), words::over(line, 5)) {
        (b"--svg", Some(over)) => draw(rt, line, target_of(words::word(line, 4), over), desk),
        _ => help::wrong("draw FILE COLUMN [--svg OUT [--over]]", desk),
    }
}
