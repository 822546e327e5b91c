//! Laws of what is read: what Ceph's counters weigh, and that the record of an hour is read back.
ghost use Rattle.std.specs.Prelude.{◌≡◌, ◌↔◌, ◌∷◌, []};
ghost use Rattle.ceph_dumps.specs.HourRecord.{IsHourOf, IsWritableHour, hour_data, hour_text};
ghost use Rattle.ceph_dumps.specs.declared.hour_record.HourRecord.{HourRecord as TheHour};
ghost use Rattle.ceph_dumps.specs.declared.loads.TheConstants.{WEIGHTS, WRITES};

/// What reads, writes, readdirs, fetches and stores count for in heat, and how many writes are in each.
pub fn weights_are()
    ensures heat { WEIGHTS.now ≡ 1 ∷ 2 ∷ 1 ∷ 2 ∷ 4 ∷ [] }
    ensures writes { WRITES.now ≡ 0 ∷ 1 ∷ 0 ∷ 0 ∷ 2 ∷ [] }
{}

/// What is read of the record of an hour is exactly the hour that it was written for: the same file system, heat of
/// what is spread, and directories with their heat, in the same order.
pub fn hour_is_read_back()
    ensures { (hour found : TheHour) → IsWritableHour (hour_data hour)
        → IsHourOf (hour_text (hour_data hour)) found ↔ (hour_data found ≡ hour_data hour) }
{}
