//! What the definitions of `specs/Text` promise.
ghost use Rattle.std.specs.Prelude.{◌≡◌, ◌++◌, ℕ, List};
ghost use Rattle.plan_text.specs.Text.{text};
ghost use Rattle.plan_text.specs.Writable.{IsWritable};
ghost use Rattle.plan_text.specs.declared.certificate.Certificate.{Certificate};

/// Bytes begin with the text of one certificate only, so that texts one after another are those of one list only.
pub fn prefix_free()
    ensures { (c d : Certificate) (r s : List ℕ) → IsWritable c → IsWritable d
        → text c.problem c.names c.plan ++ r ≡ text d.problem d.names d.plan ++ s → (c ≡ d) × (r ≡ s) }
{}
