//! What a search has found.

use mds_types::CutProof;
use residual_cut::Cut;

/// A division with the least greatest heat, and the proof that none has a smaller one.
#[derive(Debug, Drop)]
pub struct BestCut {
    /// The cut at the least greatest heat.
    pub cut: Cut,
    /// The least greatest heat, in accesses.
    pub greatest: u64,
    /// Why no division into as many parts as there are ranks has a smaller one.
    pub proof: CutProof,
    /// How many walks over the rows were made, at most 60.
    pub passes: u32,
}
