//! The lines that are printed for certificates.
ghost use Rattle.std.specs.Prelude.{◌≡◌, ◌+◌, ◌<◌, ◌≤◌, ◌^◌, IfOk, string_bytes};
ghost use Rattle.certificate_judge.specs.Judged.{heat_of_rows, inodes_of_rows, no_line, size_text, sums_text};
ghost use Rattle.certificate_judge.specs.Judged.{totals_text, yes_line};
ghost use Rattle.mds_types.specs.Problem.{IsForest};

use mds_types::ProblemRow;
use plan_text::Certificate;
use std::alloc::{AllocError, Global};

/// The heat of rows, in accesses, and their inodes.
#[derive(Clone, Copy, Debug, PartialEq, Eq)]
struct Totals {
    heat: u64,
    inodes: u64,
}

impl Totals {
    /// With one more row.
    fn with(self, row: ProblemRow) -> Totals
        requires heat { self.heat + row.heat < 2 ^ 64 }
        requires inodes { self.inodes < 2 ^ 63 }
        ensures heat { result.heat ≡ self.heat + row.heat }
        ensures inodes { result.inodes ≡ self.inodes + row.inodes }
        ensures few { result.inodes ≤ self.inodes + 2 ^ 32 }
    {
        Totals {
            heat: self.heat + row.heat,
            inodes: self.inodes + u64::from(row.inodes),
        }
    }
}

/// The totals of all rows.
fn totals_of(rows: &[ProblemRow]) -> Totals
    requires { IsForest rows.now }
    ensures heat { result.heat ≡ heat_of_rows rows.now }
    ensures inodes { result.inodes ≡ inodes_of_rows rows.now }
{
    let mut totals = Totals { heat: 0, inodes: 0 };
    for row in rows {
        totals = totals.with(*row);
    }
    totals
}

/// How many rows and ranks there are.
fn size_text(alloc: Global, rows: usize, ranks: u8) -> Result<String, AllocError>
    ensures { IfOk result (λ made. string_bytes made ≡ size_text rows ranks) }
{
    format!(in alloc; "yes rows {rows} ranks {ranks}")
}

/// The totals of all rows.
fn totals_text(alloc: Global, totals: Totals) -> Result<String, AllocError>
    ensures { IfOk result (λ made. string_bytes made ≡ totals_text totals.heat totals.inodes) }
{
    let (heat, inodes) = (totals.heat, totals.inodes);
    format!(in alloc; " heat {heat} inodes {inodes}")
}

/// The sums of a plan, to the end of the line.
fn sums_text(alloc: Global, greatest: u64, moved: u64) -> Result<String, AllocError>
    ensures { IfOk result (λ made. string_bytes made ≡ sums_text greatest moved) }
{
    format!(in alloc; " greatest {greatest} moved {moved}\n")
}

/// The line for a certificate whose proofs hold: what can be compared with the cluster and with the plan.
pub(crate) fn yes_line(alloc: Global, certificate: &Certificate) -> Result<String, AllocError>
    ensures { IfOk result (λ made. string_bytes made ≡ yes_line certificate.now) }
{
    let (problem, plan) = (&certificate.problem, &certificate.plan);
    let rows = problem.rows();
    let mut line = size_text(alloc, rows.len(), problem.ranks().len())?;
    let totals = totals_text(alloc, totals_of(rows))?;
    let sums = sums_text(alloc, plan.greatest, plan.moved)?;
    line.push_str(&totals)?;
    line.push_str(&sums)?;
    Ok(line)
}

/// The line for a certificate with this number, and what is wrong with it.
pub(crate) fn no_line(alloc: Global, number: u64, what: &str) -> Result<String, AllocError>
    ensures { IfOk result (λ made. string_bytes made ≡ no_line number what.now) }
{
    format!(in alloc; "no certificate {number}: {what}\n")
}
