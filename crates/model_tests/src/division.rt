//! Trial of every division: each row gets each label.
ghost use Rattle.std.specs.Prelude.{◌≤◌, ◌<◌, length};

use mds_types::ProblemRow;

/// The most rows that are tried.
pub const ROWS: usize = 8;

/// The part of each row. What is past the last row means nothing.
pub type Labels = [usize; 8];

/// The labels that a number writes in base `parts`.
fn labels_of(code: usize, parts: usize) -> Labels
    requires { 0 < parts }
{
    let mut labels = [0; 8];
    let mut rest = code;
    for label in &mut labels {
        *label = rest % parts;
        rest /= parts;
    }
    labels
}

/// How many labellings of `rows` rows there are.
fn labelling_count(rows: usize, parts: usize) -> usize {
    let mut count: usize = 1;
    for _ in 0..rows {
        count = count.saturating_mul(parts);
    }
    count
}

/// The heat of the rows with this label.
fn part_heat(rows: &[ProblemRow], labels: &Labels, part: usize) -> u64
    requires { length rows.now ≤ 8 }
{
    let mut heat: u64 = 0;
    for i in 0..rows.len() {
        if labels[i] == part {
            heat = heat.saturating_add(rows[i].heat);
        }
    }
    heat
}

/// Joins the rows of a part that are parent and child of a joined one, and starts with the first.
fn join_more(rows: &[ProblemRow], labels: &Labels, part: usize, joined: &mut [bool; 8])
    requires { length rows.now ≤ 8 }
{
    let mut some = false;
    for i in 0..rows.len() {
        if labels[i] != part {
            continue;
        }
        let parent = rows[i].parent as usize;
        let linked = parent < rows.len() && labels[parent] == part;
        if !some || joined[i] || (linked && joined[parent]) {
            joined[i] = true;
            if linked {
                joined[parent] = true;
            }
        }
        some = true;
    }
}

/// Whether any two rows of this part are joined by a chain of its rows, each the parent or a child
/// of the one before.
fn is_connected(rows: &[ProblemRow], labels: &Labels, part: usize) -> bool
    requires { length rows.now ≤ 8 }
{
    let mut joined = [false; 8];
    for _ in 0..rows.len() {
        join_more(rows, labels, part, &mut joined);
    }
    for i in 0..rows.len() {
        if labels[i] == part && !joined[i] {
            return false;
        }
    }
    true
}

/// The greatest heat of a division; none where some part is not connected.
fn greatest_heat(rows: &[ProblemRow], labels: &Labels, parts: usize) -> Option<u64>
    requires { length rows.now ≤ 8 }
{
    let mut greatest = 0;
    for part in 0..parts {
        if !is_connected(rows, labels, part) {
            return None;
        }
        greatest = part_heat(rows, labels, part).max(greatest);
    }
    Some(greatest)
}

/// The least greatest heat of a division into at most `parts` parts.
pub fn least_greatest_heat(rows: &[ProblemRow], parts: usize) -> u64
    requires small { length rows.now ≤ 8 }
    requires some { 0 < parts }
{
    let mut least = u64::MAX;
    for code in 0..labelling_count(rows.len(), parts) {
        if let Some(greatest) = greatest_heat(rows, &labels_of(code, parts), parts) {
            least = greatest.min(least);
        }
    }
    least
}
