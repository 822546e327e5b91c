//! A picture of the directories: a box a directory under its parent's, as wide as the heat at and below it, in the
//! colour of the rank that it is to be at. Where the rank differs from the parent's the edge is thick. Where it is to
//! go, a stripe at the foot has the colour of the rank that has it now. The children of a directory that are too cold
//! for boxes of their own have a grey one together, after the others. The last rows
//! say which colour a rank has, and what widths, stripes and edges mean.
ghost use Rattle.std.specs.Prelude.{◌≡◌, ◌++◌, OnOk};
ghost use Rattle.ceph_report.specs.Picture.{colour_text, hundredths_text, hover_stay, hover_text, rest_text};

use crate::places::{LEAST_WIDTH, Place, Rest, WIDTH, all_heat, places_of, width_of};
use crate::staying::Stay;
use crate::staying_text::push_stay;
use crate::text::{push_number, push_path, push_text};
use ceph_snapshot::Directory;
use mds_types::limits::RANK_LIMIT;
use mds_types::{Rank, RankSet};
use std::alloc::{AllocError, Global};

/// The height of a box, in pixels.
const HEIGHT: u64 = 18;

/// The height of a stripe, in pixels.
const STRIPE: u64 = 4;

/// The width of a rank in the legend, in hundredths of a pixel.
const KEY_WIDTH: u64 = 6_000;

/// The width of a character, in hundredths of a pixel.
const CHARACTER: u64 = 680;

/// The last name of a path.
fn name_of(path: &[u8]) -> &[u8] {
    for slash in (0..path.len()).rev() {
        if path[slash] == b'/' {
            return &path[slash + 1..];
        }
    }
    path
}

/// Adds a byte as text of XML.
fn push_escaped(text: &mut Vec<u8>, byte: u8) -> Result<(), AllocError> {
    match byte {
        b'&' => push_text(text, "&amp;"),
        b'<' => push_text(text, "&lt;"),
        b'>' => push_text(text, "&gt;"),
        b'"' => push_text(text, "&quot;"),
        other => {
            text.push(other)?;
            Ok(())
        }
    }
}

/// Adds the first characters of a path as text of XML.
fn push_xml(text: &mut Vec<u8>, alloc: Global, path: &[u8], most: usize) -> Result<(), AllocError> {
    let mut shown = Vec::new(alloc);
    push_path(&mut shown, path)?;
    let bytes = shown.as_slice();
    for byte in bytes.get(..most).unwrap_or(bytes) {
        push_escaped(text, *byte)?;
    }
    Ok(())
}

/// Adds a label and a number of hundredths.
#[tactic(auto, unfolding(crate::specs::Picture::hundredths_text))]
fn push_hundredths(text: &mut Vec<u8>, label: &str, hundredths: u64) -> Result<(), AllocError>
    ensures { OnOk result (text.new.items ≡ text.old.items ++ hundredths_text label.now hundredths) }
{
    push_number(text, label, hundredths / 100)?;
    push_number(text, ".", hundredths % 100 / 10)?;
    push_number(text, "", hundredths % 10)
}

/// Adds the colour of a rank: neighbours differ in hue and in how light they are.
#[tactic(auto, unfolding(crate::specs::Picture::colour_text))]
fn push_colour(text: &mut Vec<u8>, rank: Rank) -> Result<(), AllocError>
    ensures { OnOk result (text.new.items ≡ text.old.items ++ colour_text rank) }
{
    push_number(text, "hsl(", u64::from(rank.number()) * 137 % 360)?;
    push_number(text, ",60%,", 85 - u64::from(rank.number()) % 3 * 10)?;
    push_text(text, "%)")
}

/// Where a rectangle is: how far from the left, and how wide, in hundredths of a pixel; how far from the top, and how
/// high, in pixels.
#[derive(Clone, Copy)]
struct Frame {
    left: u64,
    width: u64,
    top: u64,
    height: u64,
}

/// Adds the beginning of a rectangle, up to what it is filled with.
fn push_frame(text: &mut Vec<u8>, frame: Frame) -> Result<(), AllocError> {
    push_hundredths(text, "<rect x=\"", frame.left)?;
    push_number(text, "\" y=\"", frame.top)?;
    push_hundredths(text, "\" width=\"", frame.width)?;
    push_number(text, "\" height=\"", frame.height)?;
    push_text(text, "\" fill=\"")
}

/// Adds the beginning of the words in a box.
fn push_label(text: &mut Vec<u8>, frame: Frame) -> Result<(), AllocError> {
    push_hundredths(text, "<text x=\"", frame.left.saturating_add(300))?;
    push_number(text, "\" y=\"", frame.top.saturating_add(13))?;
    push_text(text, "\">")
}

/// Adds the line that is shown on hover where a directory is left where it is.
fn push_hover_stay(text: &mut Vec<u8>, stay: Option<Stay>) -> Result<(), AllocError>
    ensures { OnOk result (text.new.items ≡ text.old.items ++ hover_stay stay) }
{
    let Some(stay) = stay else {
        return Ok(());
    };
    push_text(text, "\n")?;
    push_stay(text, stay)
}

/// Adds the numbers that are shown on hover.
#[tactic(auto, unfolding(crate::specs::Picture::hover_text))]
fn push_hover(
    text: &mut Vec<u8>,
    directory: &Directory,
    place: Place,
    rank: Rank,
) -> Result<(), AllocError>
    ensures { OnOk result (text.new.items ≡ text.old.items
        ++ hover_text directory.entry.now place.heat place.inodes rank) }
{
    push_number(text, "\nrank ", u64::from(rank.number()))?;
    push_number(text, ", now ", u64::from(directory.now.number()))?;
    push_number(text, "\nheat ", directory.heat / 1000)?;
    push_number(text, ", with what is below ", place.heat / 1000)?;
    push_number(text, "\ninodes ", directory.inodes)?;
    push_number(text, ", with what is below ", place.inodes)
}

/// Adds a stripe at the foot of a box, in the colour of the rank that has the directory now, if it is to go.
fn push_stripe(text: &mut Vec<u8>, frame: Frame, now: Rank, rank: Rank) -> Result<(), AllocError> {
    if now == rank {
        return Ok(());
    }
    let stripe = Frame {
        top: frame.top.saturating_add(HEIGHT - STRIPE),
        height: STRIPE,
        ..frame
    };
    push_frame(text, stripe)?;
    push_colour(text, now)?;
    push_text(text, "\" class=\"now\"/>\n")
}

/// Adds the name of a directory to its box, where that fits.
fn push_name(
    text: &mut Vec<u8>,
    alloc: Global,
    path: &[u8],
    frame: Frame,
) -> Result<(), AllocError> {
    let most = (frame.width.saturating_sub(600) / CHARACTER) as usize;
    if most <= 2 {
        return Ok(());
    }
    push_label(text, frame)?;
    push_xml(text, alloc, name_of(path), most)?;
    push_text(text, "</text>")
}

/// Adds the box of a directory.
fn push_box(
    text: &mut Vec<u8>,
    alloc: Global,
    directory: &Directory,
    place: Place,
    rank: Rank,
    is_cut: bool,
) -> Result<(), AllocError> {
    let frame = Frame {
        left: place.left,
        width: place.width,
        top: place.depth.saturating_mul(HEIGHT),
        height: HEIGHT,
    };
    push_text(text, "<g><title>")?;
    push_xml(text, alloc, &directory.path, usize::MAX)?;
    push_hover(text, directory, place, rank)?;
    push_hover_stay(text, place.stay)?;
    push_text(text, "</title>\n")?;
    push_frame(text, frame)?;
    push_colour(text, rank)?;
    push_text(
        text,
        if is_cut {
            "\" class=\"cut\"/>\n"
        } else {
            "\"/>\n"
        },
    )?;
    push_stripe(text, frame, directory.now, rank)?;
    push_name(text, alloc, &directory.path, frame)?;
    push_text(text, "</g>\n")
}

/// Adds the numbers of the children of a directory that have no box of their own.
#[tactic(auto, unfolding(crate::specs::Picture::rest_text))]
fn push_rest_hover(text: &mut Vec<u8>, rest: Rest) -> Result<(), AllocError>
    ensures { OnOk result (text.new.items ≡ text.old.items ++ rest_text rest.count rest.heat rest.inodes) }
{
    push_number(text, "<g><title>", rest.count)?;
    push_number(text, " directories together\nheat ", rest.heat / 1000)?;
    push_number(text, "\ninodes ", rest.inodes)?;
    push_text(text, "</title>\n")
}

/// Adds the box that the children of a directory have together that have none of their own, if that is wide enough, and
/// how many they are, if the words fit into it.
fn push_rest(text: &mut Vec<u8>, place: Place, all: u64) -> Result<(), AllocError> {
    let frame = Frame {
        left: place.left.saturating_add(place.taken),
        width: width_of(place.rest.heat, all),
        top: place.depth.saturating_add(1).saturating_mul(HEIGHT),
        height: HEIGHT,
    };
    if frame.width < LEAST_WIDTH {
        return Ok(());
    }
    push_rest_hover(text, place.rest)?;
    push_frame(text, frame)?;
    push_text(text, "#ddd\"/>\n")?;
    // "and ", " more" and five digits, as there are at most 65,536 directories
    if frame.width >= CHARACTER * 14 + 600 {
        push_label(text, frame)?;
        push_number(text, "and ", place.rest.count)?;
        push_text(text, " more</text>")?;
    }
    push_text(text, "</g>\n")
}

/// How many boxes are drawn above one another.
fn levels(places: &[Place]) -> u64 {
    let mut deepest = 0u64;
    for place in places {
        if place.width >= LEAST_WIDTH {
            deepest = deepest.max(place.depth);
        }
    }
    deepest.saturating_add(2)
}

/// What a box and its words look like.
const STYLE: &str = "\">
<style>svg{background:#fff}rect{stroke:#fff;stroke-width:0.5}rect.cut{stroke:#222;stroke-width:2}rect.now{stroke:none}\
text{font:11px monospace;pointer-events:none}</style>
";

/// Adds what comes before the boxes.
fn push_head(text: &mut Vec<u8>, height: u64) -> Result<(), AllocError> {
    push_number(
        text,
        "<svg xmlns=\"http://www.w3.org/2000/svg\" width=\"",
        WIDTH / 100,
    )?;
    push_number(text, "\" height=\"", height)?;
    push_number(text, "\" viewBox=\"0 0 ", WIDTH / 100)?;
    push_number(text, " ", height)?;
    push_text(text, STYLE)
}

/// Adds the colours of these ranks, and below them what is meant by what, from this far from the top.
fn push_legend(text: &mut Vec<u8>, ranks: RankSet, top: u64) -> Result<(), AllocError> {
    let mut left = 0;
    for number in 0..RANK_LIMIT {
        if let Some(rank) = Rank::new(number) {
            if ranks.has(rank) && left < WIDTH - KEY_WIDTH {
                push_key(text, rank, left, top)?;
                left += KEY_WIDTH;
            }
        }
    }
    let words = Frame {
        left: 0,
        width: 0,
        top: top.saturating_add(HEIGHT),
        height: HEIGHT,
    };
    push_label(text, words)?;
    push_text(
        text,
        "width: heat; stripe: rank now; thick edge: other rank than above</text>\n",
    )
}

/// Adds the colour of a rank to the legend.
fn push_key(text: &mut Vec<u8>, rank: Rank, left: u64, top: u64) -> Result<(), AllocError> {
    let frame = Frame {
        left,
        width: KEY_WIDTH,
        top,
        height: HEIGHT,
    };
    push_frame(text, frame)?;
    push_colour(text, rank)?;
    push_text(text, "\"/>")?;
    push_label(text, frame)?;
    push_number(text, "rank ", u64::from(rank.number()))?;
    push_text(text, "</text>\n")
}

/// Whether a directory is to be at another rank than the one above it.
fn is_cut(ranks: &[Rank], parent: usize, rank: Rank) -> bool {
    match ranks.get(parent) {
        Some(above) => *above != rank,
        None => false,
    }
}

/// Adds the box of the directory at a place.
fn push_directory(
    text: &mut Vec<u8>,
    alloc: Global,
    directories: &[Directory],
    ranks: &[Rank],
    at: usize,
    place: Place,
) -> Result<(), AllocError> {
    let (Some(directory), Some(rank)) = (directories.get(at), ranks.get(at)) else {
        return Ok(());
    };
    let is_cut = is_cut(ranks, directory.parent as usize, *rank);
    push_box(text, alloc, directory, place, *rank, is_cut)
}

/// Adds the boxes of all directories.
fn push_boxes(
    text: &mut Vec<u8>,
    alloc: Global,
    directories: &[Directory],
    ranks: &[Rank],
    places: &[Place],
) -> Result<(), AllocError> {
    let all = all_heat(places);
    for (at, place) in places.iter().enumerate() {
        if place.width >= LEAST_WIDTH {
            push_directory(text, alloc, directories, ranks, at, *place)?;
            push_rest(text, *place, all)?;
        }
    }
    Ok(())
}

/// The ranks of these directories, now and as planned.
fn ranks_of(directories: &[Directory], ranks: &[Rank]) -> RankSet {
    let mut bits = 0u64;
    for directory in directories {
        bits |= 1 << directory.now.number();
    }
    for rank in ranks {
        bits |= 1 << rank.number();
    }
    RankSet::from_bits(bits)
}

/// The picture, as SVG. `ranks[i]` is the rank that directory i is to be at, and `stays[i]` whether it is left where it
/// is.
pub fn make_picture(
    alloc: Global,
    directories: &[Directory],
    ranks: &[Rank],
    stays: &[Option<Stay>],
) -> Result<Vec<u8>, AllocError> {
    let places = places_of(alloc, directories, stays)?;
    let foot = levels(&places).saturating_mul(HEIGHT);
    let mut text = Vec::new(alloc);
    push_head(&mut text, foot.saturating_add(2 * HEIGHT))?;
    push_boxes(&mut text, alloc, directories, ranks, &places)?;
    push_legend(&mut text, ranks_of(directories, ranks), foot)?;
    push_text(&mut text, "</svg>\n")?;
    Ok(text)
}
