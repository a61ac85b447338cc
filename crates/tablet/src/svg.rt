// The picture as an SVG file. The readings stand in a drawing of their own, in whole units that the browser stretches: across a unit a
// place, down as many depths to a unit as leave at most some 2,800.
use crate::draw::Subject;
use crate::kinds::Kind;
use crate::numbers::Kept;
use crate::pen::Pen;
use crate::places::MOST;
use crate::{draw, places};
use picture::{Scale, Stretch};

// The height of the picture in units: how many depths a unit has, the height of the trace itself, and all of it.
#[derive(Clone, Copy)]
struct Height {
    unit: u64,
    trace: u64,
    all: u64,
}

// What is drawn: the scale, the height, the kind of the readings, and the stretches of its places.
#[derive(Clone, Copy)]
struct Drawing<'s> {
    scale: Scale,
    height: Height,
    kind: Kind,
    stretches: &'s [Stretch],
}

// From one depth to another. Below the deepest trace there is as much clay; a yes or no has none.
fn height_for(base: u64, high: u64, kind: Kind) -> Height {
    let range = picture::apart(base, high);
    let unit = range / 2800 + 1;
    let depths = range / unit;
    let trace = depths / 50 + 1;
    let below = if kind == Kind::YesNo { 0 } else { trace };
    Height {
        unit,
        trace,
        all: depths.saturating_add(trace).saturating_add(below),
    }
}

// Text between tags. No byte below a blank stands in a file of this kind.
fn say_escaped(pen: &mut Pen<'_>, t: &[u8]) {
    for b in t {
        match *b {
            b'&' => pen.bytes(b"&amp;"),
            b'<' => pen.bytes(b"&lt;"),
            b'>' => pen.bytes(b"&gt;"),
            0..=31 => pen.bytes(b"?"),
            b => pen.bytes(&[b]),
        }
    }
}

fn head(pen: &mut Pen<'_>) {
    pen.bytes(
        b"<svg xmlns=\"http://www.w3.org/2000/svg\" viewBox=\"0 0 800 430\" width=\"800\" height=\"430\" font-family=\"sans-serif\" font-size=\"13\">
<style>
.page{fill:#fff}.ink{fill:#222}.faint{fill:#666}.grid{stroke:#ddd}.axis{stroke:#888;fill:none}
.trace{fill:#7a3b10}.part{fill:#c07a45}.clay{fill:#e6cfb2}.gap{fill:#c22}.crack{stroke:#c22;stroke-width:3;fill:none}
",
    );
    pen.bytes(
        b"@media (prefers-color-scheme: dark){
.page{fill:#17191d}.ink{fill:#eee}.faint{fill:#aaa}.grid{stroke:#333}
.trace{fill:#f2b777}.part{fill:#a8744a}.clay{fill:#4b3a29}.gap{fill:#f66}.crack{stroke:#f66}
}
</style>
<rect class=\"page\" width=\"800\" height=\"430\"/>
",
    )
}

// The title: the file's name is escaped, the rest needs none.
fn title(pen: &mut Pen<'_>, s: Subject<'_>) {
    write!(pen, "<title>");
    say_escaped(pen, s.path);
    write!(
        pen,
        "</title>\n<text class=\"ink\" x=\"90\" y=\"28\" font-size=\"16\">"
    );
    say_escaped(pen, s.path);
    s.say(pen);
    writeln!(pen, "</text>");
}

// A part of a place, by its class, in units.
fn part(pen: &mut Pen<'_>, class: &str, x: usize, y: u64, tall: u64) {
    writeln!(
        pen,
        "<rect class=\"{class}\" x=\"{x}\" y=\"{y}\" width=\"1\" height=\"{tall}\"/>"
    );
}

fn trace(pen: &mut Pen<'_>, gone: usize, x: usize, y: u64, tall: u64) {
    part(pen, if gone == 0 { "trace" } else { "part" }, x, y, tall);
}

impl Drawing<'_> {
    // How many units below the top a depth lies.
    fn down(self, value: u64) -> u64 {
        let depths = picture::apart(self.scale.base, value);
        depths.checked_div(self.height.unit).unwrap_or(0)
    }

    // One place across: its trace, and the clay below. A yes or no has no clay.
    fn place(self, pen: &mut Pen<'_>, x: usize, s: Stretch) {
        if self.kind == Kind::YesNo {
            let tall = picture::apart(s.low, s.high).saturating_add(1);
            return trace(pen, 0, x, s.low, tall);
        }
        if s.here != 0 {
            let top = self.down(s.low);
            let end = self.down(s.high).saturating_add(self.height.trace);
            trace(pen, s.gone, x, top, picture::apart(top, end));
            part(pen, "clay", x, end, picture::apart(end, self.height.all));
        }
    }

    // The drawing of the readings, stretched over the page.
    fn places(self, pen: &mut Pen<'_>) {
        let places = self.scale.places;
        writeln!(
            pen,
            "<svg x=\"90\" y=\"70\" width=\"680\" height=\"280\" preserveAspectRatio=\"none\" shape-rendering=\"crispEdges\" viewBox=\"0 0 {places} {}\">",
            self.height.all
        );
        for (x, s) in self.stretches.iter().take(places).enumerate() {
            self.place(pen, x, *s);
        }
        writeln!(pen, "</svg>");
    }

    // Where on the page the middle of a trace at a depth lies.
    fn page_y(self, depth: u64) -> u64 {
        let y = self.down(depth);
        let Height { trace, all, .. } = self.height;
        if all == 0 || 100000 < y || 100000 < trace {
            return 70;
        }
        ((y * 280 + trace * 140) / all).saturating_add(70)
    }

    // Lines across the page, each with the depth beside it.
    fn levels(self, pen: &mut Pen<'_>) {
        for row in 0..self.scale.rows {
            let value = picture::depth_of(row, self.scale.base, self.scale.step);
            let kind = self.kind;
            let y = self.page_y(value);
            let depth = Kept { kind, value };
            writeln!(
                pen,
                "<line class=\"grid\" x1=\"84\" x2=\"770\" y1=\"{y}\" y2=\"{y}\"/>\n<text class=\"faint\" x=\"78\" text-anchor=\"end\" dy=\"4\" y=\"{y}\">{depth}</text>"
            );
        }
    }

    // A mark below the drawing where readings are absent.
    fn gaps(self, pen: &mut Pen<'_>) {
        let places = self.scale.places;
        writeln!(
            pen,
            "<svg x=\"90\" y=\"352\" width=\"680\" height=\"6\" preserveAspectRatio=\"none\" shape-rendering=\"crispEdges\" viewBox=\"0 0 {places} 1\">"
        );
        for (x, s) in self.stretches.iter().take(places).enumerate() {
            if s.gone != 0 {
                part(pen, if s.here == 0 { "gap" } else { "part" }, x, 0, 1);
            }
        }
        writeln!(pen, "</svg>");
    }

    // The axes of n readings and what they stand for.
    fn axes(self, pen: &mut Pen<'_>, n: usize) {
        let last = n.saturating_sub(1);
        let per = self.scale.per;
        writeln!(
            pen,
            "<path class=\"axis\" d=\"M90 70V350H770\"/>\n<text class=\"faint\" x=\"90\" y=\"374\">0</text>\n<text class=\"faint\" x=\"770\" y=\"374\" text-anchor=\"end\">{last}</text>\n<text class=\"faint\" x=\"430\" y=\"374\" text-anchor=\"middle\">index of the reading, {per} to a place across</text>"
        );
        if self.kind != Kind::YesNo {
            writeln!(
                pen,
                "<text class=\"faint\" transform=\"translate(20 210) rotate(-90)\" text-anchor=\"middle\">depth in µm, downward</text>"
            );
        }
    }
}

fn legend(pen: &mut Pen<'_>, gone: usize) {
    if gone != 0 {
        pen.bytes(
            b"<rect class=\"gap\" x=\"90\" y=\"394\" width=\"24\" height=\"6\"/><text class=\"faint\" x=\"120\" y=\"402\">absent readings</text>
<rect class=\"part\" x=\"260\" y=\"394\" width=\"24\" height=\"6\"/><text class=\"faint\" x=\"290\" y=\"402\">some of a place's readings absent</text>
",
        );
    }
}

fn draw_picture(pen: &mut Pen<'_>, s: Subject<'_>, n: usize, all: Stretch) {
    let kind = s.kind();
    let scale = draw::scale_for(all, kind, n, MOST);
    // How far down the picture reaches. Booleans have both their levels.
    let lowest = if kind == Kind::YesNo { 1 } else { all.high };
    let stretches = places::of_scale(s.part(), kind, scale);
    let drawing = Drawing {
        scale,
        height: height_for(scale.base, lowest, kind),
        kind,
        stretches: &stretches,
    };
    drawing.levels(pen);
    drawing.places(pen);
    drawing.gaps(pen);
    drawing.axes(pen, n);
    legend(pen, all.gone);
}

// A crack from top to bottom behind the last reading, and its line of the legend.
fn crack(pen: &mut Pen<'_>, s: Subject<'_>) {
    pen.bytes(
        b"<path class=\"crack\" d=\"M774 70l8 14-8 14 8 14-8 14 8 14-8 14 8 14-8 14 8 14-8 14 8 14-8 14 8 14-8 14 8 14-8 14 8 14-8 14 8 14-8 14\"/>
<path class=\"crack\" d=\"M90 422l6-8 6 8 6-8 6 8\"/><text class=\"ink\" x=\"120\" y=\"422\">",
    );
    s.say_break(pen);
    writeln!(pen, "</text>");
}

// The n readings of a column, or those before its break, of which `all` is known.
pub fn picture(pen: &mut Pen<'_>, s: Subject<'_>, n: usize, all: Stretch) {
    head(pen);
    title(pen, s);
    write!(pen, "<text class=\"faint\" x=\"90\" y=\"49\">");
    s.say_facts(pen, all);
    writeln!(pen, "</text>");
    if all.here == 0 {
        writeln!(
            pen,
            "<text class=\"ink\" x=\"90\" y=\"200\">there is no depth to draw</text>"
        );
    } else {
        draw_picture(pen, s, n, all);
    }
    if s.is_broken() {
        crack(pen, s);
    }
    writeln!(pen, "</svg>");
}

// A break alone: no clay, and no reading.
pub fn fracture(pen: &mut Pen<'_>, s: Subject<'_>) {
    head(pen);
    title(pen, s);
    pen.bytes(
        b"<path class=\"crack\" d=\"M90 190l40 50 40-50 40 50 40-50 40 50 40-50 40 50 40-50 40 50 40-50 40 50 40-50 40 50 40-50 40 50 40-50 40 50\"/>\n",
    );
    if let Some(fault) = s.fault {
        writeln!(
            pen,
            "<text class=\"ink\" x=\"90\" y=\"150\" font-size=\"16\">Broken: {fault}</text>"
        );
    }
    write!(pen, "<text class=\"faint\" x=\"90\" y=\"290\">");
    s.say_alone(pen);
    writeln!(pen, "</text>\n</svg>");
}
