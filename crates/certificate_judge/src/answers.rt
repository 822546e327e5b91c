//! The answers to certificates.
ghost use Rattle.std.specs.Prelude.{◌≡◌, ◌↔◌, ◌&&◌, ◌+◌, ◌++◌, ◌∷◌, [], IfOk, IsTrue, List, OnOk, length, string_bytes};
ghost use Rattle.certificate_judge.specs.Judged.{AreAnswersFor, CutHolds, HasBest, IsVerdict, ProofsHold};
ghost use Rattle.plan_text.specs.declared.certificate.Certificate.{Certificate};

use crate::lines::{no_line, yes_line};
use plan_checker::{check, check_cut};
use plan_text::Certificate;
use std::alloc::{AllocError, Global};

/// The answers for certificates.
#[derive(Debug, Drop)]
pub struct Answers {
    /// A line for each certificate, in their order.
    pub lines: String,
    /// Whether the proofs of all of them hold.
    pub hold: bool,
}

/// Whether the parts, the greatest heat and the cut proof of a certificate's plan hold.
fn cut_holds(alloc: Global, certificate: &Certificate) -> Result<bool, AllocError>
    ensures { IfOk result (λ yes. IsTrue yes ↔ CutHolds certificate.now) }
{
    let plan = &certificate.plan;
    let parts = plan.rank.len() as u32;
    check_cut(
        alloc,
        &certificate.problem,
        plan.part.as_slice(),
        parts,
        plan.greatest,
        &plan.cut,
    )
}

/// The answer for a certificate with this number: its line, and whether the proofs hold.
fn answer(
    alloc: Global,
    number: u64,
    certificate: &Certificate,
) -> Result<(String, bool), AllocError>
    ensures line { IfOk result (λ answer. IsVerdict number certificate.now (string_bytes answer.0)) }
    ensures exact { IfOk result (λ answer. IsTrue answer.1 ↔ ProofsHold certificate.now) }
    ensures best { IfOk result (λ answer. IsTrue answer.1 → HasBest certificate.now) }
{
    if check(alloc, &certificate.problem, &certificate.plan)? {
        let line = yes_line(alloc, certificate)?;
        Ok((line, true))
    } else if cut_holds(alloc, certificate)? {
        let line = no_line(alloc, number, "the dual proof does not hold")?;
        Ok((line, false))
    } else {
        let line = no_line(alloc, number, "the cut proof does not hold")?;
        Ok((line, false))
    }
}

/// Whether both are true.
fn both(first: bool, second: bool) -> bool
    ensures { result ≡ (first && second) }
{
    first && second
}

impl Answers {
    /// The answers for no certificates.
    pub(crate) fn new(alloc: Global) -> Answers
        ensures { AreAnswersFor [] result }
    {
        Answers {
            lines: String::new(alloc),
            hold: true,
        }
    }

    /// Adds the answer for the certificate with this number.
    pub(crate) fn add(
        &mut self,
        alloc: Global,
        number: u64,
        certificate: &Certificate,
    ) -> Result<(), AllocError>
        ensures { OnOk result ((cs : List Certificate) → number ≡ 1 + length cs → AreAnswersFor cs self.old
            → AreAnswersFor (cs ++ certificate.now ∷ []) self.new) }
    {
        let (line, holds) = answer(alloc, number, certificate)?;
        self.lines.push_str(&line)?;
        self.hold = both(self.hold, holds);
        Ok(())
    }
}
