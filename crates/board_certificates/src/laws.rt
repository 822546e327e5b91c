//! What holds of the certificates of every history.
ghost use Rattle.std.specs.Prelude.{All};
ghost use Rattle.board_certificates.specs.Certificates.{certificates_of};
ghost use Rattle.mds_board.specs.History.{World};
ghost use Rattle.mds_board.specs.Promises.{IsKept};
ghost use Rattle.mds_types.specs.Certificate.{IsBest, IsCertified};

/// The plan of each certificate of a board's history is best for the certificate's problem.
pub fn all_best()
    ensures { (w : World) → IsKept w → All (λ c. IsBest c.problem c.plan) (certificates_of w) }
{}

/// The proofs of each certificate of a board's history hold: a judge of what is written says yes.
pub fn all_certified()
    ensures { (w : World) → IsKept w → All (λ c. IsCertified c.problem c.plan) (certificates_of w) }
{}
