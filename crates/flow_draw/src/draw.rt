// The picture in pieces, straight to the writer. A write that fails ends it. A line's end goes out with its last piece, where `writeln!` sends
// it alone: so the bytes before a failure are what they were.
// Painted in this order: bands, edges, what pointing at a node shows, nodes. The last let the pointer through. Each of the four
// closes its group and opens the next one's.
ghost use Rattle.std.specs.Prelude.{◌<◌, ◌≤◌};

use crate::layout::{GAP, Heading, Layout, MARGIN, PITCH, Place, ROW, height_of};
use crate::load::{Node, Picture};
use answers::Refusal;
use flows::measurement::Measurement;
use nodes::utils::{NodeSet, SET_WORDS};
use records::common::MOST_NODES;
use std::cmp::Reverse;
use std::io::Write;
use std::{fmt, io};

// The legend's room.
const LEAST_WIDTH: usize = 760;

// The top of the bands.
const BANDS: usize = 72;

const STYLE: &str = "<style>\n\
text{font:12px sans-serif;fill:#222}\n\
.c{font-size:15px;font-weight:bold}\n\
.good{fill:#070}\n\
.bad{fill:#c00}\n\
.b rect{fill:#f1f3f6}\n\
.b text{font-size:11px;fill:#667;text-anchor:middle}\n\
.e path{fill:none;stroke:#8a94a0}\n\
.h path{fill:none;stroke-linecap:round;visibility:hidden;pointer-events:none}\n\
.h circle{fill:#fff;fill-opacity:0}\n\
.h:hover path{visibility:visible}\n\
.h:hover circle{stroke:#000;stroke-width:2.5}\n\
.odd{stroke:#4aa3ff;stroke-width:48}\n\
.set{stroke:#ff9d1e;stroke-width:40}\n\
.n{pointer-events:none}\n\
.n circle,.n rect{fill:#34495e;stroke:#34495e;stroke-width:1.5}\n\
.n .open{fill:#fff}\n\
.n g text{font-weight:bold;fill:#fff;text-anchor:middle}\n\
.n g .m{font-size:10px;font-weight:normal}\n\
.n g .open~text{fill:#222}\n\
</style>\n";

const LEGEND: &str = "<g class=\"n\">\
<rect x=\"16\" y=\"42\" width=\"14\" height=\"14\"/><text x=\"36\" y=\"53\">input</text>\
<circle cx=\"85\" cy=\"49\" r=\"7\"/><text x=\"98\" y=\"53\">measured</text>\
<circle class=\"open\" cx=\"173\" cy=\"49\" r=\"7\"/><text x=\"186\" y=\"53\">output (an input too: open square)</text>\
<text x=\"400\" y=\"53\">Pointing at a node shows</text>\
<path class=\"set\" d=\"M554,49h0\" style=\"stroke-width:14;stroke-linecap:round\"/><text x=\"566\" y=\"53\">its correction set</text>\
<path class=\"odd\" d=\"M678,49h0\" style=\"stroke-width:16;stroke-linecap:round\"/><text x=\"690\" y=\"53\">Odd of it</text>\
</g>\n";

fn name_of(measurement: Measurement) -> &'static str {
    match measurement {
        Measurement::XY => "XY",
        Measurement::YZ => "YZ",
        Measurement::XZ => "XZ",
        Measurement::X => "X",
        Measurement::Y => "Y",
        Measurement::Z => "Z",
    }
}

// ---- Edges. All nodes stand in rows, so that half way between two rows no node is met. The numbers are chosen so that within 14 rows
// no edge comes as near as a circle's radius to the centre of a node that is not its end.

// A curve from where the path is, level where it leaves and where it arrives.
#[derive(Clone, Copy)]
struct Curve {
    x: usize,
    y: usize,
    to: usize,
    bottom: usize,
}

impl fmt::Display for Curve {
    fn fmt<W: fmt::Write>(&self, f: &mut fmt::Formatter<W>) -> fmt::Result {
        let bend = self.to.saturating_sub(self.x) / 8 * 7;
        let (near, far) = (self.x + bend, self.to.saturating_sub(bend));
        let Curve { y, to, bottom, .. } = *self;
        write!(f, "C{near},{y} {far},{bottom} {to},{bottom}")
    }
}

// From left to right, or from top to bottom. There are five tracks, so that few edges lie on one another.
#[derive(Clone, Copy)]
struct Edge {
    start: Place,
    end: Place,
    track: usize,
    ghost five: { track < 5 },
}

impl Edge {
    fn between(layout: &Layout, a: usize, b: usize) -> Edge
        requires { (a < 128) × (b < 128) }
    {
        let one = layout.place(a);
        let other = layout.place(b);
        Edge {
            start: one.min(other),
            end: one.max(other),
            track: (a + 2 * b) % 5,
        }
    }

    // Half a row beside the start, on the side of the end; of one row it is the side that rows take in turn.
    fn lane(&self) -> usize
        ensures { (102 ≤ result) × (result < 4000024) }
    {
        let y = height_of(self.start.row);
        let (row, end) = (self.start.row, self.end.row);
        if row < end || row == end && row % 2 == 0 {
            return y + ROW / 2;
        }
        y - ROW / 2
    }

    // Within a line of nodes: straight to the next row, else in an arc beside the nodes between, on the side that rows take in turn.
    fn write_arc<W: fmt::Write>(&self, f: &mut fmt::Formatter<W>) -> fmt::Result {
        let far = usize::from(self.end.row.saturating_sub(self.start.row));
        if far < 2 {
            return write!(f, "L{}", self.end);
        }
        let x = usize::from(self.start.x);
        let bend = 24 + 2 * far;
        let side = if self.start.row % 2 == 0 {
            x + bend
        } else {
            x.saturating_sub(bend)
        };
        let (top, bottom) = (height_of(self.start.row), height_of(self.end.row));
        write!(f, "C{side},{top} {side},{bottom} {x},{bottom}")
    }

    // To the next line of nodes.
    fn write_curve<W: fmt::Write>(&self, f: &mut fmt::Formatter<W>) -> fmt::Result {
        let curve = Curve {
            x: usize::from(self.start.x),
            y: height_of(self.start.row),
            to: usize::from(self.end.x),
            bottom: height_of(self.end.row),
        };
        write!(f, "{curve}")
    }

    // Past other lines of nodes: along half a row beside the left end.
    fn write_lane<W: fmt::Write>(&self, f: &mut fmt::Formatter<W>) -> fmt::Result {
        let x = usize::from(self.start.x);
        let to = usize::from(self.end.x);
        let level = self.lane() - 6 + self.track * 3;
        let turn = to.saturating_sub(usize::from(PITCH * 7 / 8));
        let out = Curve {
            x,
            y: height_of(self.start.row),
            to: x + usize::from(PITCH * 3 / 4),
            bottom: level,
        };
        let back = Curve {
            x: turn,
            y: level,
            to,
            bottom: height_of(self.end.row),
        };
        write!(f, "{out}H{turn}{back}")
    }
}

impl fmt::Display for Edge {
    fn fmt<W: fmt::Write>(&self, f: &mut fmt::Formatter<W>) -> fmt::Result {
        write!(f, "<path d=\"M{}", self.start)?;
        let x = usize::from(self.start.x);
        let to = usize::from(self.end.x);
        if x == to {
            self.write_arc(f)?;
        } else if to <= x + usize::from(PITCH + GAP) {
            self.write_curve(f)?;
        } else {
            self.write_lane(f)?;
        }
        write!(f, "\"/>\n")
    }
}

// ---- Sets of nodes.

// The nodes of a set, each behind a space.
#[derive(Clone, Copy)]
struct Members(NodeSet<SET_WORDS>);

impl fmt::Display for Members {
    fn fmt<W: fmt::Write>(&self, f: &mut fmt::Formatter<W>) -> fmt::Result {
        for v in self.0.iter() {
            write!(f, " {v}")?;
        }
        Ok(())
    }
}

// A disc on each node of the set: a line of no length with a round end.
#[derive(Clone, Copy)]
struct Discs<'a> {
    layout: &'a Layout,
    nodes: NodeSet<SET_WORDS>,
}

impl fmt::Display for Discs<'_> {
    fn fmt<W: fmt::Write>(&self, f: &mut fmt::Formatter<W>) -> fmt::Result {
        for v in self.nodes.iter() {
            write!(f, "M{}h0", self.layout.place(v))?;
        }
        Ok(())
    }
}

// ---- The drawing.

// The picture, and where its nodes stand.
#[derive(Clone, Copy)]
pub(crate) struct Drawing<'a> {
    pub(crate) picture: &'a Picture,
    pub(crate) layout: &'a Layout,
}

impl Drawing<'_> {
    // All of it, with the verdict in the caption.
    pub(crate) fn write(
        &self,
        out: &mut impl Write,
        reply: Result<usize, Refusal>,
    ) -> io::Result<()> {
        self.write_head(out)?;
        self.write_caption(out, reply)?;
        write!(out, "{LEGEND}<g class=\"b\">\n")?;
        self.write_bands(out)?;
        self.write_edges(out)?;
        self.write_hovers(out)?;
        self.write_nodes(out)
    }

    // The lower end of the bands.
    fn bottom(&self) -> usize
        ensures { (102 ≤ result) × (result < 4000000) }
    {
        height_of(self.layout.rows) - ROW / 2
    }

    fn write_head(&self, out: &mut impl Write) -> io::Result<()> {
        let margin = usize::from(MARGIN);
        let right = usize::from(self.layout.end().saturating_sub(GAP));
        let width = LEAST_WIDTH.max(right + margin);
        let height = self.bottom() + margin;
        write!(
            out,
            "<svg xmlns=\"http://www.w3.org/2000/svg\" width=\"{width}\" height=\"{height}\" viewBox=\"0 0 {width} {height}\">\n"
        )?;
        write!(
            out,
            "{STYLE}<rect width=\"100%\" height=\"100%\" fill=\"white\"/>\n"
        )
    }

    fn write_caption(&self, out: &mut impl Write, reply: Result<usize, Refusal>) -> io::Result<()> {
        let angles = if self.picture.angled {
            " with angles"
        } else {
            ""
        };
        write!(
            out,
            "<text x=\"16\" y=\"26\" class=\"c\">{} nodes, mode {}{angles}: ",
            self.picture.nodes.len(),
            self.picture.mode
        )?;
        match reply {
            Ok(_) => write!(out, "<tspan class=\"good\">accepted</tspan>")?,
            Err(q) => write!(out, "<tspan class=\"bad\">{q}</tspan>")?,
        }
        write!(out, "</text>\n")
    }

    // A band for each column.
    fn write_bands(&self, out: &mut impl Write) -> io::Result<()> {
        let height = self.bottom() - BANDS;
        for column in self.layout.columns.iter() {
            let left = usize::from(column.left);
            let width = usize::from(column.width());
            write!(
                out,
                "<rect x=\"{left}\" y=\"{BANDS}\" width=\"{width}\" height=\"{height}\" rx=\"6\"/><text x=\"{}\" y=\"{}\">",
                left + width / 2,
                BANDS + 18
            )?;
            match column.heading {
                Heading::Layer(Reverse(layer)) => write!(out, "layer {layer}</text>\n")?,
                Heading::Outputs => write!(out, "outputs</text>\n")?,
            }
        }
        write!(out, "</g>\n<g class=\"e\">\n")
    }

    fn write_edges(&self, out: &mut impl Write) -> io::Result<()> {
        for a in 0..MOST_NODES {
            self.write_edges_of(out, a)?;
        }
        write!(out, "</g>\n")
    }

    // The edges of node a to nodes of higher numbers.
    fn write_edges_of(&self, out: &mut impl Write, a: usize) -> io::Result<()>
        requires { a < 128 }
    {
        let neighbors = self.picture.neighbors(a);
        for b in a + 1..MOST_NODES {
            if neighbors.has(b) {
                write!(out, "{}", Edge::between(self.layout, a, b))?;
            }
        }
        Ok(())
    }

    // What pointing at a node shows.
    fn write_hovers(&self, out: &mut impl Write) -> io::Result<()> {
        for (v, node) in self.picture.nodes.iter().enumerate() {
            write_title(out, v, node)?;
            self.write_sets(out, node)?;
            let place = self.layout.place(v);
            write!(
                out,
                "<circle cx=\"{}\" cy=\"{}\" r=\"24\"/></g>\n",
                place.x,
                height_of(place.row)
            )?;
        }
        write!(out, "<g class=\"n\">\n")
    }

    // Set and Odd in words, and as discs; no more than the end of the title where the node has no set.
    fn write_sets(&self, out: &mut impl Write, node: &Node) -> io::Result<()> {
        let Some(set) = node.set else {
            return write!(out, "</title>");
        };
        let odd = self.picture.odd_of(set);
        write!(
            out,
            "; corrected by{}; Odd{}</title><path class=\"odd\" d=\"{}\"/><path class=\"set\" d=\"{}\"/>",
            Members(set),
            Members(odd),
            self.discs(odd),
            self.discs(set)
        )
    }

    fn discs(&self, nodes: NodeSet<SET_WORDS>) -> Discs<'_> {
        Discs {
            layout: self.layout,
            nodes,
        }
    }

    fn write_nodes(&self, out: &mut impl Write) -> io::Result<()> {
        for (v, node) in self.picture.nodes.iter().enumerate() {
            write!(out, "<g transform=\"translate({})\">", self.layout.place(v))?;
            write_node(out, v, node)?;
        }
        write!(out, "</g>\n</svg>\n")
    }
}

// What a node is, and its layer: the title of its group begins with it.
fn write_title(out: &mut impl Write, v: usize, node: &Node) -> io::Result<()> {
    let input = if node.input { ", input" } else { "" };
    let output = if node.output { ", output" } else { ", " };
    write!(
        out,
        "<g class=\"h\"><title>node {v}{input}{output}{}, layer {}",
        node.measurement.map_or("", name_of),
        node.layer
    )
}

// The shape, the number, and below it the measurement.
fn write_node(out: &mut impl Write, v: usize, node: &Node) -> io::Result<()> {
    let shape = if node.input {
        "<rect x=\"-14\" y=\"-14\" width=\"28\" height=\"28\""
    } else {
        "<circle r=\"15\""
    };
    let open = if node.output { " class=\"open\"" } else { "" };
    write!(out, "{shape}{open}/>")?;
    let Some(measurement) = node.measurement else {
        return write!(out, "<text y=\"4\">{v}</text></g>\n");
    };
    write!(
        out,
        "<text y=\"-1\">{v}</text><text class=\"m\" y=\"10\">{}</text></g>\n",
        name_of(measurement)
    )
}
