//! Laws of what the report says.
ghost use Rattle.std.specs.Prelude.{◌<◌, ◌≤◌, ◌+◌, ◌-◌, ◌*◌, ℕ};
ghost use Rattle.ceph_snapshot.specs.Holding.{most_heat};
ghost use Rattle.ceph_report.specs.Text.{per_mille_above};

/// A plan is at most as far above the bound as the report says, where 64 bits can count the tenths of a percent.
pub fn above_is_enough()
    ensures { (planned bound : ℕ) → 0 < bound → per_mille_above (planned - bound) bound < most_heat
        → planned * 1000 ≤ bound * (1000 + per_mille_above (planned - bound) bound) }
{}
