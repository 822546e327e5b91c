//! Writing a certificate.
ghost use Rattle.std.specs.List.{flat_map};
ghost use Rattle.std.specs.Prelude.{◌≡◌, ◌++◌, IfOk, OnOk, option_map, string_bytes};
ghost use Rattle.plan_text.specs.Text.{cut_lines, dual_lines, head_lines, mask_line, name_line, number_line};
ghost use Rattle.plan_text.specs.Text.{place_lines, price_lines, problem_lines, sum_lines, table, text};
ghost use Rattle.plan_text.specs.Text.{whole_plan_lines};
ghost use Rattle.plan_text.specs.Writable.{IsNamed, IsWritable};

use crate::fits::{names_fit, plan_fits, problem_fits};
use crate::line::Line;
use crate::row_names::RowNames;
use dirtree::Name;
use mds_types::limits::RANK_LIMIT;
use mds_types::{CutProof, DualProof, Plan, Problem, Rank, RankSet};
use std::alloc::{AllocError, Global};

/// The bits of a set of ranks: bit r is 1 where rank r is in it.
fn bits_of(ranks: RankSet) -> u64
    ensures { result ≡ ranks }
{
    let mut bits = 0;
    for number in 0..RANK_LIMIT {
        let Some(rank) = Rank::new(number) else {
            unreachable!()
        };
        if ranks.has(rank) {
            bits += 1 << number;
        }
    }
    bits
}

/// The line of a set of ranks.
fn mask_line(alloc: Global, ranks: RankSet) -> Result<String, AllocError>
    ensures { IfOk result (λ made. string_bytes made ≡ mask_line ranks) }
{
    let bits = bits_of(ranks);
    format!(in alloc; "mask 0x{bits:x}\n")
}

/// A line of a word and a number.
fn number_line(alloc: Global, word: &str, number: u64) -> Result<String, AllocError>
    ensures { IfOk result (λ made. string_bytes made ≡ number_line word.now number) }
{
    format!(in alloc; "{word} {number}\n")
}

/// Writes a list: a line with its name and length, and a line for each element.
fn push_table<T: Line>(
    alloc: Global,
    out: &mut String,
    name: &str,
    items: &[T],
) -> Result<(), AllocError>
    ensures { OnOk result (string_bytes out.new ≡ string_bytes out.old ++ table name.now T.line items.now) }
{
    let first = number_line(alloc, name, items.len() as u64)?;
    out.push_str(&first)?;
    for item in items {
        let line = item.to_line(alloc)?;
        out.push_str(&line)?;
    }
    Ok(())
}

/// Writes the cut proof.
fn push_cut(alloc: Global, out: &mut String, cut: &CutProof) -> Result<(), AllocError>
    ensures { OnOk result (string_bytes out.new ≡ string_bytes out.old ++ cut_lines cut.now) }
{
    match cut {
        CutProof::Zero => out.push_str("cut zero\n"),
        CutProof::Heavy(row) => {
            let line = format!(in alloc; "cut heavy {row}\n")?;
            out.push_str(&line)
        }
        CutProof::Table(table) => {
            out.push_str("cut table\n")?;
            push_table(alloc, out, "cells", table.rows())
        }
    }
}

/// Writes the ranks and the rows of a problem.
fn push_problem(alloc: Global, out: &mut String, problem: &Problem) -> Result<(), AllocError>
    ensures { OnOk result (string_bytes out.new ≡ string_bytes out.old ++ problem_lines problem.now) }
{
    let line = mask_line(alloc, problem.ranks())?;
    out.push_str(&line)?;
    push_table(alloc, out, "rows", problem.rows())
}

/// Writes which part each row is in, and the rank of each part.
fn push_places(
    alloc: Global,
    out: &mut String,
    part: &[u32],
    rank: &[Rank],
) -> Result<(), AllocError>
    ensures { OnOk result (string_bytes out.new ≡ string_bytes out.old ++ place_lines part.now rank.now) }
{
    push_table(alloc, out, "parts", part)?;
    push_table(alloc, out, "ranks", rank)
}

/// Writes the greatest heat, and the inodes that move.
fn push_sums(alloc: Global, out: &mut String, greatest: u64, moved: u64) -> Result<(), AllocError>
    ensures { OnOk result (string_bytes out.new ≡ string_bytes out.old ++ sum_lines greatest moved) }
{
    let line = format!(in alloc; "greatest {greatest}\nmoved {moved}\n")?;
    out.push_str(&line)
}

/// Writes the prices of the parts, and those of the ranks.
fn push_prices(
    alloc: Global,
    out: &mut String,
    part_price: &[i64],
    rank_price: &[i64],
) -> Result<(), AllocError>
    ensures { OnOk result (string_bytes out.new ≡ string_bytes out.old ++ price_lines part_price.now rank_price.now) }
{
    push_table(alloc, out, "part_prices", part_price)?;
    push_table(alloc, out, "rank_prices", rank_price)
}

/// Writes the dual proof.
fn push_dual(alloc: Global, out: &mut String, dual: &DualProof) -> Result<(), AllocError>
    ensures { OnOk result (string_bytes out.new ≡ string_bytes out.old ++ dual_lines dual.now) }
{
    push_prices(
        alloc,
        out,
        dual.part_price.as_slice(),
        dual.rank_price.as_slice(),
    )
}

/// Writes a plan and its proofs.
fn push_plan(alloc: Global, out: &mut String, plan: &Plan) -> Result<(), AllocError>
    ensures { OnOk result (string_bytes out.new ≡ string_bytes out.old ++ whole_plan_lines plan.now) }
{
    push_places(alloc, out, plan.part.as_slice(), plan.rank.as_slice())?;
    push_sums(alloc, out, plan.greatest, plan.moved)?;
    push_cut(alloc, out, &plan.cut)?;
    push_dual(alloc, out, &plan.dual)
}

/// Writes the names of rows' directories.
fn push_names(alloc: Global, out: &mut String, names: &[Name]) -> Result<(), AllocError>
    ensures { OnOk result (string_bytes out.new ≡ string_bytes out.old ++ flat_map name_line names.now) }
{
    for name in names {
        let line = name_line(alloc, name.as_str())?;
        out.push_str(&line)?;
    }
    Ok(())
}

/// The line of a name.
fn name_line(alloc: Global, name: &str) -> Result<String, AllocError>
    ensures { IfOk result (λ made. string_bytes made ≡ name_line name.now) }
{
    format!(in alloc; "name {name}\n")
}

/// The lines down to those of the plan.
fn head_lines(
    alloc: Global,
    problem: &Problem,
    names: Option<&RowNames>,
) -> Result<String, AllocError>
    ensures { IfOk result (λ made. string_bytes made ≡ head_lines problem.now (option_map
        (λ names. names.now) names.entry)) }
{
    match names {
        None => {
            let mut out = String::from_str(alloc, "certificate 1\n")?;
            push_problem(alloc, &mut out, problem)?;
            Ok(out)
        }
        Some(names) => {
            let mut out = String::from_str(alloc, "certificate 2\n")?;
            push_problem(alloc, &mut out, problem)?;
            push_names(alloc, &mut out, names.as_slice())?;
            Ok(out)
        }
    }
}

/// The text of a problem, a plan for it and the plan's proofs: of version 2, where the names of the rows' directories
/// are given, otherwise of version 1. It is all ASCII.
pub fn certificate_text(
    alloc: Global,
    problem: &Problem,
    names: Option<&RowNames>,
    plan: &Plan,
) -> Result<String, AllocError>
    requires { IsNamed (record {
      problem = problem.now;
      names = option_map (λ names. names.now) names;
      plan = plan.now;
    }) }
    ensures text { IfOk result (λ made. string_bytes made ≡ text problem.now (option_map
        (λ names. names.now) names.entry) plan.now) }
    ensures writable { IsWritable (record {
      problem = problem.now;
      names = option_map (λ names. names.now) names.entry;
      plan = plan.now;
    }) }
{
    problem_fits(problem);
    names_fit(names);
    plan_fits(plan);
    let mut out = head_lines(alloc, problem, names)?;
    push_plan(alloc, &mut out, plan)?;
    out.push_str("end\n")?;
    Ok(out)
}
