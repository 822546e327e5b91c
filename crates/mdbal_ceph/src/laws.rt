//! Laws of what this program writes: its list of pins is read back, and the JSON has the changes of the script.
ghost use Rattle.std.specs.Prelude.{◌≡◌, ◌↔◌, All, IfSome, List, map, true};
ghost use Rattle.ceph_dumps.specs.OwnList.{ArePinsOfList, rank_path};
ghost use Rattle.ceph_dumps.specs.declared.own_list.OwnPin.{OwnPin as TheOwnPin};
ghost use Rattle.ceph_plan.specs.declared.row.PinChange.{PinChange as TheChange};
ghost use Rattle.ceph_plan.specs.declared.row.PinRow.{PinRow as TheRow};
ghost use Rattle.ceph_pins.specs.OwnList.{own_list};
ghost use Rattle.ceph_snapshot.specs.declared.directory.Directory.{Directory as TheDirectory};
ghost use Rattle.mdbal_ceph.specs.OwnListPins.{IsListable, own_list_pins};
ghost use Rattle.mdbal_ceph.specs.Writing.{HaveSameChanges, IsWritten};
ghost use Rattle.mdbal_ceph.specs.declared.outcome.Outcome.{Outcome as TheOutcome};
ghost use Rattle.mdbal_ceph.specs.declared.settings.PlanSettings.{PlanSettings as TheSettings};
ghost use Rattle.mdbal_ceph.specs.declared.writing.PlanOutput.{PlanOutput as TheOutput};

/// Where no pin is the root's, whose path is empty, the pins that are read of the list that a plan writes are exactly
/// those that it was written for: the same ranks and paths, in the same order.
pub fn own_list_is_read_back()
    ensures { (directories : List TheDirectory) (rows : List TheRow) (changes : List TheChange) (found : List TheOwnPin)
        → All IsListable (own_list_pins directories rows changes)
        → ArePinsOfList (own_list directories rows changes) found
        ↔ map rank_path found ≡ own_list_pins directories rows changes }
{}

/// Where a plan is printed as JSON and its script is written, the changes of the JSON are those of the script, in the
/// same order.
pub fn json_has_the_changes_of_the_script()
    ensures { (settings : TheSettings) (outcome : TheOutcome) (output : TheOutput) → IsWritten settings outcome output
        → settings.is_json ≡ true
        → IfSome output.pins (HaveSameChanges settings outcome output.text.items output.is_proposed) }
{}
