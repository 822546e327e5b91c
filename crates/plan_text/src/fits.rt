//! What the types of a certificate's values say of its numbers.
ghost use Rattle.std.specs.Prelude.{◌<◌, ◌^◌, All, IfSome, option_map};
ghost use Rattle.plan_text.specs.RowNames.{IsRowName};
ghost use Rattle.plan_text.specs.Writable.{FitsCut, FitsList, FitsPlan, FitsProblem};

use crate::line::Line;
use crate::row_names::RowNames;
use mds_types::{CutProof, Plan, Problem};

/// Each value of a list is within its type.
fn all_fit<T: Line>(items: &[T])
    ensures { FitsList T.fits items.now }
{
    number_fits(items.len() as u64);
    for item in items {
        item.known();
    }
}

fn number_fits(number: u64)
    ensures { number < 2 ^ 64 }
{
    let _value = number;
}

fn cut_fits(cut: &CutProof)
    ensures { FitsCut cut.now }
{
    match cut {
        CutProof::Zero => {}
        CutProof::Heavy(row) => {
            let _value = *row;
        }
        CutProof::Table(table) => all_fit(table.rows()),
    }
}

/// The numbers of a problem are within their types.
pub(crate) fn problem_fits(problem: &Problem)
    ensures { FitsProblem problem.now }
{
    all_fit(problem.rows());
    let _ranks = problem.ranks();
}

/// The numbers of a plan are within their types.
pub(crate) fn plan_fits(plan: &Plan)
    ensures { FitsPlan plan.now }
{
    all_fit(plan.part.as_slice());
    all_fit(plan.rank.as_slice());
    all_fit(plan.dual.part_price.as_slice());
    all_fit(plan.dual.rank_price.as_slice());
    cut_fits(&plan.cut);
    number_fits(plan.greatest);
    number_fits(plan.moved);
}

/// The names are those of directories.
pub(crate) fn names_fit(names: Option<&RowNames>)
    ensures { IfSome (option_map (λ names. names.now) names.entry) (λ names. All IsRowName names) }
{
    if let Some(names) = names {
        let _names = names.as_slice();
    }
}
