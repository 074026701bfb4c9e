// A ladder in time as SVG: lanes from left to right, and rows from top to bottom, one for each thing that happened.
ghost use Rattle.std.specs.Prelude.{◌≡◌, IfOk, IfErr, string_bytes};
ghost use Rattle.xds_resource.specs.declared.refusal.Refusal.TheVariants.{OutOfMemory};
ghost use Rattle.xds_explain.specs.Pictures.{IsSvg, svg_text, class_word};

use crate::texts::escaped;
use std::alloc::Global;
use xds_resource::Refusal;

/// As many rows as a picture has, at most.
pub const MOST_ROWS: usize = 400;

// Where the first row stands, and how far rows are apart.
const TOP: u64 = 92;

const STEP: u64 = 30;

// What a picture looks like.
const STYLE: &'static str =
    "<style>text{font:12px sans-serif;fill:#222;paint-order:stroke;stroke:#fff;stroke-width:3px}.title{font-size:15px;font-weight:bold}.lane{font-weight:bold;text-anchor:middle}.number{fill:#777;text-anchor:end}text.broken{fill:#c00000;font-weight:bold;stroke:#fdeaea}.wash{fill:#fdeaea}path{fill:none;stroke-width:1.6px;stroke-linejoin:round}.rail{stroke:#ccc;stroke-width:1px}.put{stroke:#1a56b0}.gone{stroke:#c06a00}.ask{stroke:#444}.yes{stroke:#1d7a35}.no{stroke:#8a1c9c}.tell{stroke:#0f7c86}.mark{stroke:#777}path.broken{stroke:#c00000;stroke-width:2.6px}</style>";

/// What happened in a row, by which it has its colour.
#[derive(Clone, Copy)]
pub(crate) enum Class {
    /// A resource was put.
    Put,
    /// A resource was deleted.
    Gone,
    /// A client asked.
    Ask,
    /// A client accepted a response.
    Yes,
    /// A client rejected a response.
    No,
    /// A client was told something.
    Tell,
    /// Something else.
    Mark,
    /// A rule was broken.
    Broken,
}

impl Class {
    // Whether it is that of a broken row.
    fn is_broken(self) -> bool {
        match self {
            Class::Broken => true,
            Class::Put
            | Class::Gone
            | Class::Ask
            | Class::Yes
            | Class::No
            | Class::Tell
            | Class::Mark => false,
        }
    }

    // The word for it in a picture's style.
    fn word(self) -> &'static str
        ensures { result.now ≡ class_word self }
    {
        match self {
            Class::Put => "put",
            Class::Gone => "gone",
            Class::Ask => "ask",
            Class::Yes => "yes",
            Class::No => "no",
            Class::Tell => "tell",
            Class::Mark => "mark",
            Class::Broken => "broken",
        }
    }
}

/// A lane: how far from the left it stands, and what it is called.
#[derive(Drop)]
pub(crate) struct Lane {
    pub(crate) x: u64,
    pub(crate) name: String,
}

/// A row: the number of its line, an arrow from one place to another or a mark where both are the same, and what is written at it.
#[derive(Drop)]
pub(crate) struct Row {
    pub(crate) number: usize,
    pub(crate) from: u64,
    pub(crate) to: u64,
    pub(crate) class: Class,
    pub(crate) label: String,
}

/// A picture: its title, how wide it is, its lanes and its rows, and what is written above the rows, if anything.
#[derive(Drop)]
pub(crate) struct Sheet {
    pub(crate) title: String,
    pub(crate) width: u64,
    pub(crate) lanes: Vec<Lane>,
    pub(crate) rows: Vec<Row>,
    pub(crate) note: String,
}

// A text at a place. Whatever it is, it is no more than a text there.
fn text_at(alloc: Global, x: u64, y: u64, class: &str, text: &str) -> Result<String, Refusal> {
    let text = escaped(alloc, text)?;
    let text = text.as_str();
    Ok(format!(in alloc; "<text class=\"{class}\" x=\"{x}\" y=\"{y}\">{text}</text>\n")?)
}

// The path of an arrow to the right, of one to the left, or of a mark.
fn path_of(alloc: Global, from: u64, to: u64, y: u64) -> Result<String, Refusal> {
    if from < to {
        return Ok(format!(in alloc; "M{from} {y}H{to}l-8 -4m8 4l-8 4")?);
    }
    if to < from {
        return Ok(format!(in alloc; "M{from} {y}H{to}l8 -4m-8 4l8 4")?);
    }
    let left = from.saturating_sub(5);
    Ok(format!(in alloc; "M{left} {y}a5 5 0 1 0 10 0a5 5 0 1 0 -10 0")?)
}

// How far from the top a row stands.
fn height_of(place: usize) -> u64 {
    (place as u64).saturating_mul(STEP).saturating_add(TOP)
}

// What marks a broken row: a band behind it.
fn wash_of(alloc: Global, class: Class, width: u64, y: u64) -> Result<String, Refusal> {
    if !class.is_broken() {
        return Ok(String::new(alloc));
    }
    let top = y.saturating_sub(18);
    Ok(format!(in alloc;
        "<rect class=\"wash\" x=\"0\" y=\"{top}\" width=\"{width}\" height=\"26\"/>\n"
    )?)
}

// Where the text of a row stands: above an arrow, beside a mark.
fn label_at(alloc: Global, row: &Row, y: u64) -> Result<String, Refusal> {
    let class = if row.class.is_broken() { "broken" } else { "" };
    let label = row.label.as_str();
    if row.from == row.to {
        return text_at(
            alloc,
            row.from.saturating_add(11),
            y.saturating_add(4),
            class,
            label,
        );
    }
    let left = row.from.min(row.to).saturating_add(10);
    text_at(alloc, left, y.saturating_sub(5), class, label)
}

// A row of a picture of this width.
fn row_svg(alloc: Global, width: u64, place: usize, row: &Row) -> Result<String, Refusal> {
    let y = height_of(place);
    let mut svg = wash_of(alloc, row.class, width, y)?;
    let number = row.number.to_string(alloc)?;
    svg.push_str(text_at(alloc, 46, y.saturating_add(4), "number", number.as_str())?.as_str())?;
    let class = row.class.word();
    let path = path_of(alloc, row.from, row.to, y)?;
    let path = path.as_str();
    svg.push_str(format!(in alloc; "<path class=\"{class}\" d=\"{path}\"/>\n")?.as_str())?;
    svg.push_str(label_at(alloc, row, y)?.as_str())?;
    Ok(svg)
}

// A lane, down to this height.
fn lane_svg(alloc: Global, lane: &Lane, height: u64) -> Result<String, Refusal> {
    let x = lane.x;
    let bottom = height.saturating_sub(10);
    let mut svg = text_at(alloc, x, 48, "lane", lane.name.as_str())?;
    svg.push_str(format!(in alloc; "<path class=\"rail\" d=\"M{x} 56V{bottom}\"/>\n")?.as_str())?;
    Ok(svg)
}

// The lanes and the rows of a picture of this height, and what is written above them.
fn parts_of(alloc: Global, sheet: &Sheet, height: u64) -> Result<String, Refusal> {
    let mut svg = text_at(alloc, 10, 20, "title", sheet.title.as_str())?;
    for lane in &sheet.lanes {
        svg.push_str(lane_svg(alloc, lane, height)?.as_str())?;
    }
    svg.push_str(text_at(alloc, 60, 70, "", sheet.note.as_str())?.as_str())?;
    for (place, row) in sheet.rows.iter().enumerate() {
        svg.push_str(row_svg(alloc, sheet.width, place, row)?.as_str())?;
    }
    Ok(svg)
}

// What stands between the beginning and the end of a picture.
fn inside(alloc: Global, sheet: &Sheet) -> Result<String, Refusal> {
    let width = sheet.width;
    let height = height_of(sheet.rows.len());
    let parts = parts_of(alloc, sheet, height)?;
    let parts = parts.as_str();
    let style = STYLE;
    Ok(format!(in alloc;
        "width=\"{width}\" height=\"{height}\">{style}<rect width=\"{width}\" height=\"{height}\" fill=\"#fff\"/>\n{parts}"
    )?)
}

// A picture with this inside.
fn framed(alloc: Global, inside: &str) -> Result<String, Refusal>
    ensures svg { IfOk result (λ t. string_bytes t ≡ svg_text inside.now) }
    ensures refused { IfErr result (λ e. e ≡ OutOfMemory) }
{
    let mut svg = String::from_str(alloc, "<svg xmlns=\"http://www.w3.org/2000/svg\" ")?;
    svg.push_str(inside)?;
    svg.push_str("</svg>\n")?;
    Ok(svg)
}

impl Sheet {
    /// The picture as SVG.
    pub(crate) fn svg(&self, alloc: Global) -> Result<String, Refusal>
        ensures svg { IfOk result (λ t. IsSvg (string_bytes t)) }
    {
        let inside = inside(alloc, self)?;
        framed(alloc, inside.as_str())
    }
}
