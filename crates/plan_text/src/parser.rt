//! Values from a text, one after another from the front.
ghost use Rattle.std.specs.Prelude.{◌≡◌, ◌++◌, ℕ, IfOk, IfSome, List, length, option_map};
ghost use Rattle.mds_types.specs.Problem.{ProblemData};
ghost use Rattle.plan_text.specs.Fields.{mask_in, read_view};
ghost use Rattle.plan_text.specs.Reading.{Returns, Reads, read_cells, read_counted, read_cut, cut_of, read_dual};
ghost use Rattle.plan_text.specs.RowNames.{IsRowName};
ghost use Rattle.plan_text.specs.Reading.{read_end, read_name, read_names, version_of};
ghost use Rattle.plan_text.specs.Reading.{read_first, read_heavy, read_lines, read_mask, read_plan, read_ranks};
ghost use Rattle.plan_text.specs.Reading.{read_table};
ghost use Rattle.plan_text.specs.Text.{problem_lines, text as text_of};
ghost use Rattle.plan_text.specs.Writable.{FitsProblem, IsNamed, IsWritable};
ghost use Rattle.plan_text.specs.declared.certificate.Certificate.{Certificate};

use crate::certificate::Certificate;
use crate::fields::{field, name, number, word};
use crate::line::Line;
use crate::read_error::Expected;
use crate::row_names::RowNames;
use arrayvec::ArrayVec;
use mds_types::{CutProof, CutTable, DualProof, Plan, Problem, Rank, RankSet};
use std::alloc::{AllocError, AllocFailed, Global};

/// Why a text isn't that of a certificate.
#[derive(Clone, Copy)]
pub(crate) enum Fault {
    /// The allocator refused a growth.
    Memory,
    /// Where this many bytes are left, something else was expected.
    Expected(usize, Expected),
}

impl<T: Drop> From<AllocFailed<T>> for Fault {
    ghost use Rattle.std.specs.Prelude.{◌≡◌};
    ghost use Rattle.plan_text.specs.declared.parser.Fault.TheVariants.{Memory};

    ghost from_gives = { λ _ fault. fault ≡ Memory };

    fn from(_: AllocFailed<T>) -> Fault {
        Fault::Memory
    }
}

impl From<AllocError> for Fault {
    ghost use Rattle.std.specs.Prelude.{◌≡◌};
    ghost use Rattle.plan_text.specs.declared.parser.Fault.TheVariants.{Memory};

    ghost from_gives = { λ _ fault. fault ≡ Memory };

    fn from(_: AllocError) -> Fault {
        Fault::Memory
    }
}

/// The number after a word.
#[tactic(auto, unfolding(crate::specs::Reading::read_counted))]
fn counted<'a>(text: &'a [u8], name: &[u8]) -> Option<(u64, &'a [u8])>
    ensures { read_view (λ n. n) result ≡ read_counted name.now text.now }
{
    let rest = word(text, name)?;
    number(rest, u64::MAX)
}

/// The number after a word, or the fault that there is none.
fn sum<'a>(text: &'a [u8], name: &[u8], expected: Expected) -> Result<(u64, &'a [u8]), Fault>
    ensures { Reads (λ n. n) result (read_counted name.now text.now) }
{
    match counted(text, name) {
        Some(found) => Ok(found),
        None => Err(Fault::Expected(text.len(), expected)),
    }
}

/// `count` lines.
fn lines<T: Line>(alloc: Global, text: &[u8], count: u64) -> Result<(Vec<T>, &[u8]), Fault>
    ensures { Reads (λ items. items.items) result (read_lines T.at count text.now) }
{
    let mut items = Vec::new(alloc);
    let mut rest = text;
    for _ in 0..count {
        match T::from_line(rest) {
            Some(found) => {
                items.push(found.0)?;
                rest = found.1;
            }
            None => return Err(Fault::Expected(rest.len(), T::expected())),
        }
    }
    Ok((items, rest))
}

/// A list, with its name and length in front.
#[tactic(auto, unfolding(crate::specs::Reading::read_table))]
fn table<'a, T: Line>(
    alloc: Global,
    text: &'a [u8],
    name: &[u8],
    expected: Expected,
) -> Result<(Vec<T>, &'a [u8]), Fault>
    ensures { Reads (λ items. items.items) result (read_table name.now T.at text.now) }
{
    let (count, rest) = sum(text, name, expected)?;
    lines(alloc, rest, count)
}

/// The set of ranks that a field writes.
fn mask_in(field: &[u8]) -> Option<RankSet>
    ensures { result ≡ mask_in field.now }
{
    match str::from_utf8(field) {
        Ok(digits) => RankSet::parse(digits).ok(),
        Err(_) => None,
    }
}

/// A set of ranks.
#[tactic(auto, unfolding(crate::specs::Reading::read_mask))]
fn mask(text: &[u8]) -> Option<(RankSet, &[u8])>
    ensures { read_view (λ ranks. ranks) result ≡ read_mask text.now }
{
    let rest = word(text, b"mask")?;
    let (digits, rest) = field(rest);
    let ranks = mask_in(digits)?;
    Some((ranks, rest))
}

/// The ranks and the rows of a problem.
fn problem(alloc: Global, text: &[u8]) -> Result<(Problem, &[u8]), Fault>
    ensures { (x : ProblemData) (more : List ℕ) → FitsProblem x → text.now ≡ problem_lines x ++ more →
        Returns result x more }
{
    let Some(ranks) = mask(text) else {
        return Err(Fault::Expected(text.len(), Expected::Mask));
    };
    let (rows, rest) = table(alloc, ranks.1, b"rows", Expected::Rows)?;
    match Problem::new(rows, ranks.0) {
        Ok(problem) => Ok((problem, rest)),
        Err(_) => Err(Fault::Expected(text.len(), Expected::Problem)),
    }
}

/// The ranks of the parts.
#[tactic(auto, unfolding(crate::specs::Reading::read_ranks))]
fn ranks(alloc: Global, text: &[u8]) -> Result<(ArrayVec<Rank, 64>, &[u8]), Fault>
    ensures { Reads (λ ranks. ranks.items) result (read_ranks text.now) }
{
    let (items, rest) = table(alloc, text, b"ranks", Expected::Ranks)?;
    let mut ranks = ArrayVec::new();
    match ranks.try_extend_from_slice(items.as_slice()) {
        Ok(()) => Ok((ranks, rest)),
        Err(_) => Err(Fault::Expected(text.len(), Expected::Ranks)),
    }
}

/// The proof by one row.
#[tactic(auto, unfolding(crate::specs::Reading::read_heavy))]
fn heavy(text: &[u8], left: usize) -> Result<(CutProof, &[u8]), Fault>
    ensures { Reads (λ cut. cut) result (read_heavy text.now) }
{
    match number(text, u64::from(u32::MAX)) {
        Some((row, rest)) => Ok((CutProof::Heavy(row as u32), rest)),
        None => Err(Fault::Expected(left, Expected::Cut)),
    }
}

/// The proof by a table.
#[tactic(auto, unfolding(crate::specs::Reading::read_cells))]
fn cells(alloc: Global, text: &[u8]) -> Result<(CutProof, &[u8]), Fault>
    ensures { Reads (λ cut. cut) result (read_cells text.now) }
{
    let (rows, rest) = table(alloc, text, b"cells", Expected::Cells)?;
    Ok((CutProof::Table(CutTable::new(rows)), rest))
}

/// The proof of this kind; its line begins where `left` bytes are left.
#[tactic(auto, unfolding(crate::specs::Reading::cut_of))]
fn cut_of<'a>(
    alloc: Global,
    kind: &[u8],
    text: &'a [u8],
    left: usize,
) -> Result<(CutProof, &'a [u8]), Fault>
    ensures { Reads (λ cut. cut) result (cut_of kind.now text.now) }
{
    if kind == b"zero".as_slice() {
        Ok((CutProof::Zero, text))
    } else if kind == b"heavy".as_slice() {
        heavy(text, left)
    } else if kind == b"table".as_slice() {
        cells(alloc, text)
    } else {
        Err(Fault::Expected(left, Expected::Cut))
    }
}

/// A cut proof.
#[tactic(auto, unfolding(crate::specs::Reading::read_cut))]
fn cut(alloc: Global, text: &[u8]) -> Result<(CutProof, &[u8]), Fault>
    ensures { Reads (λ cut. cut) result (read_cut text.now) }
{
    match word(text, b"cut") {
        Some(rest) => {
            let (kind, rest) = field(rest);
            cut_of(alloc, kind, rest, text.len())
        }
        None => Err(Fault::Expected(text.len(), Expected::Cut)),
    }
}

/// A dual proof.
#[tactic(auto, unfolding(crate::specs::Reading::read_dual))]
fn dual(alloc: Global, text: &[u8]) -> Result<(DualProof, &[u8]), Fault>
    ensures { Reads (λ dual. dual) result (read_dual text.now) }
{
    let (part_price, rest) = table(alloc, text, b"part_prices", Expected::PartPrices)?;
    let (rank_price, rest) = table(alloc, rest, b"rank_prices", Expected::RankPrices)?;
    Ok((
        DualProof {
            part_price,
            rank_price,
        },
        rest,
    ))
}

/// A plan with its proofs.
#[tactic(auto, unfolding(crate::specs::Reading::read_plan))]
fn plan(alloc: Global, text: &[u8]) -> Result<(Plan, &[u8]), Fault>
    ensures { Reads (λ plan. plan) result (read_plan text.now) }
{
    let (part, rest) = table(alloc, text, b"parts", Expected::Parts)?;
    let (rank, rest) = ranks(alloc, rest)?;
    let (greatest, rest) = sum(rest, b"greatest", Expected::Greatest)?;
    let (moved, rest) = sum(rest, b"moved", Expected::Moved)?;
    let (cut, rest) = cut(alloc, rest)?;
    let (dual, rest) = dual(alloc, rest)?;
    Ok((
        Plan {
            part,
            rank,
            greatest,
            moved,
            cut,
            dual,
        },
        rest,
    ))
}

/// Whether a certificate of a version has names.
#[tactic(auto, unfolding(crate::specs::Reading::version_of))]
fn version_of<'a>(version: &[u8], text: &'a [u8]) -> Option<(bool, &'a [u8])>
    ensures { read_view (λ is_named. is_named) result ≡ version_of version.now text.now }
{
    if version == b"1".as_slice() {
        Some((false, text))
    } else if version == b"2".as_slice() {
        Some((true, text))
    } else {
        None
    }
}

/// The first line of a certificate: whether it has names.
#[tactic(auto, unfolding(crate::specs::Reading::read_first))]
fn first_line(text: &[u8]) -> Option<(bool, &[u8])>
    ensures { read_view (λ is_named. is_named) result ≡ read_first text.now }
{
    let rest = word(text, b"certificate")?;
    let (version, rest) = field(rest);
    version_of(version, rest)
}

/// The name of a row's directory.
#[tactic(auto, unfolding(crate::specs::Reading::read_name))]
fn name_line(text: &[u8]) -> Option<(&str, &[u8])>
    ensures value { read_view (λ name. name.now) result ≡ read_name text.now }
    ensures name { IfSome result (λ found. IsRowName found.0.now) }
{
    let rest = word(text, b"name")?;
    name(rest)
}

/// The names of this many rows.
fn name_lines(alloc: Global, text: &[u8], rows: usize) -> Result<(RowNames, &[u8]), Fault>
    ensures names { Reads (λ names. names) result (read_lines read_name rows text.now) }
    ensures size { IfOk result (λ found. length found.0 ≡ rows) }
{
    let mut names = RowNames::new(alloc);
    let mut rest = text;
    for _ in 0..rows {
        match name_line(rest) {
            Some(found) => {
                names.push(alloc, found.0)?;
                rest = found.1;
            }
            None => return Err(Fault::Expected(rest.len(), Expected::Name)),
        }
    }
    Ok((names, rest))
}

/// The names of this many rows, where a certificate has them.
#[tactic(auto, unfolding(crate::specs::Reading::read_names))]
fn names(
    alloc: Global,
    text: &[u8],
    is_named: bool,
    rows: usize,
) -> Result<(Option<RowNames>, &[u8]), Fault>
    ensures names { Reads (λ names. names) result (read_names is_named rows text.now) }
    ensures size { IfOk result (λ found. IfSome found.0 (λ names. length names ≡ rows)) }
{
    if !is_named {
        return Ok((None, text));
    }
    let (names, rest) = name_lines(alloc, text, rows)?;
    Ok((Some(names), rest))
}

/// What comes after the last line, which a byte has to end.
#[tactic(auto, unfolding(crate::specs::Reading::read_end))]
fn end_line(text: &[u8]) -> Option<&[u8]>
    ensures { option_map (λ rest. rest.now) result ≡ read_end text.now }
{
    if text.len() > 3 {
        word(text, b"end")
    } else {
        None
    }
}

/// The first certificate.
pub(crate) fn certificate(alloc: Global, text: &[u8]) -> Result<(Certificate, &[u8]), Fault>
    ensures again { (c : Certificate) (more : List ℕ) → IsWritable c
        → text.now ≡ text_of c.problem c.names c.plan ++ more → Returns result c more }
    ensures named { IfOk result (λ found. IsNamed found.0) }
{
    let Some((is_named, rest)) = first_line(text) else {
        return Err(Fault::Expected(text.len(), Expected::First));
    };
    let (problem, rest) = problem(alloc, rest)?;
    let (names, rest) = names(alloc, rest, is_named, problem.rows().len())?;
    let (plan, rest) = plan(alloc, rest)?;
    match end_line(rest) {
        Some(rest) => {
            let certificate = Certificate {
                problem,
                names,
                plan,
            };
            Ok((certificate, rest))
        }
        None => Err(Fault::Expected(rest.len(), Expected::End)),
    }
}
