//! Whether a plan is worth what it moves.
ghost use Rattle.std.specs.Prelude.{◌↔◌, IsTrue};
ghost use Rattle.ceph_plan.specs.Worth.{IsWorthMoving};

/// What a plan comes to.
#[derive(Clone, Copy)]
pub struct Gain {
    /// The heat of all that is planned, and of what is pinned.
    pub heat: u64,
    /// The load of the hottest rank now.
    pub now: u64,
    /// The load of the hottest rank as planned.
    pub planned: u64,
    /// The inodes that move.
    pub moved: u64,
}

/// What a plan has to come to.
#[derive(Clone, Copy)]
pub struct LeastGain {
    /// There is at least this much heat.
    pub heat: u64,
    /// The hottest rank gets cooler by at least this percentage.
    pub percent: u8,
    /// It gets cooler by at least this much heat for each thousand inodes that move.
    pub each_thousand: u64,
}

/// Whether a plan comes to what it has to. One that doesn't make the hottest rank cooler never does.
pub fn is_worth_it(gain: Gain, least: LeastGain) -> bool
    ensures { IsTrue result ↔ IsWorthMoving gain least }
{
    if gain.planned >= gain.now || gain.heat < least.heat {
        return false;
    }
    let cooler = u128::from(gain.now - gain.planned);
    cooler * 100 >= u128::from(gain.now) * u128::from(least.percent)
        && cooler * 1000 >= u128::from(gain.moved) * u128::from(least.each_thousand)
}
