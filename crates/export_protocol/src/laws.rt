//! What holds after every list of events: refused ones included, messages lost, repeated or reordered.

ghost use Rattle.std.specs.Prelude.{ℕ, ◌≤◌, ◌≡◌, ◌≢◌, ◌↔◌, List, None, Some, true, false};
ghost use Rattle.export_protocol.specs.Cluster.{World};
ghost use Rattle.export_protocol.specs.Authority.{authority, is_present, is_stopped};
ghost use Rattle.export_protocol.specs.View.{IsReached};
ghost use Rattle.export_protocol.specs.Step.{run, start, refusal};
ghost use Rattle.export_protocol.specs.declared.event.Event.{Event as StepEvent};
ghost use Rattle.export_protocol.specs.Local.{IsLocal};
ghost use Rattle.export_protocol.specs.Entries.{IsRecorded, AreInJournals, AreMade, IsRecovered};
ghost use Rattle.export_protocol.specs.declared.step_error.StepError.TheVariants.{Memory};
ghost use Rattle.export_protocol.specs.Promises.{Promised, IsTheAuthority, OneAuthority, ServedByAuthority};
ghost use Rattle.export_protocol.specs.Promises.{RequestsAtAuthority, KeepsAuthority, MapNamed, NoneForGone};
ghost use Rattle.export_protocol.specs.Promises.{NoneAtStopped, NearestOwns};
ghost use Rattle.export_protocol.specs.Connected.{TestsConnected, AcceptsConnected, AreParents, HangsTogether};

/// What holds after every list of events, with messages lost, repeated or reordered and ranks stopped at any moment.
pub fn one_authority()
    // Each directory that is there has exactly one authority.
    ensures authority { (limit ranks : ℕ) (events : List StepEvent) → 1 ≤ ranks →
        OneAuthority (run (start limit ranks) events) }

    // Who serves a directory is its authority.
    ensures served { (limit ranks : ℕ) (events : List StepEvent) → 1 ≤ ranks →
        ServedByAuthority (run (start limit ranks) events) }

    // Each running request is at its directory's authority.
    ensures requests { (limit ranks : ℕ) (events : List StepEvent) → 1 ≤ ranks →
        RequestsAtAuthority (run (start limit ranks) events) }

    // No event changes the authority of a directory while a request runs on it.
    ensures kept { (limit ranks : ℕ) (events : List StepEvent) (e : StepEvent) → 1 ≤ ranks →
        KeepsAuthority (run (start limit ranks) events) e }

    // The map names the authority or, between log and notify, the exporter.
    ensures named { (limit ranks : ℕ) (events : List StepEvent) → 1 ≤ ranks →
        MapNamed (run (start limit ranks) events) }

    // No request runs at a stopped rank.
    ensures ended { (limit ranks : ℕ) (events : List StepEvent) → NoneAtStopped (run (start limit ranks) events) }

    // What is gone is named nowhere and has no authority.
    ensures gone { (limit ranks : ℕ) (events : List StepEvent) → 1 ≤ ranks →
        NoneForGone (run (start limit ranks) events) }
{}

/// What holds of every cluster that some list of events leads to, as each value of `Cluster` is.
pub fn reached()
    ensures promised { (w : World) → IsReached w → Promised w }
    // The answer for an authority is the one that there is.
    ensures found { (w : World) (r d : ℕ) → IsReached w → (authority w d ≡ Some r) ↔ IsTheAuthority w r d }
    ensures absent { (w : World) (d : ℕ) → IsReached w → (authority w d ≡ None) ↔ (is_present w d ≡ false) }
{}

/// A rank decides by its own journal, the states of its own exports and the requests that run at it.
pub fn local()
    ensures { (w : World) → IsReached w → IsLocal w }
{}

/// What an event leaves of the journals, the map and the tree.
pub fn recorded()
    // Each journal is the one before, with at most the event's entry, and by that the map changes.
    ensures recorded { (w : World) (e : StepEvent) → IsReached w → IsRecorded w e }
    // The definition never refuses for a lack of memory.
    ensures never_memory { (w : World) (e : StepEvent) → refusal w e ≢ Some Memory }
    ensures there { (w : World) → IsReached w → AreInJournals w }
    ensures made { (w : World) → IsReached w → AreMade w }
{}

/// Between a stop and a restart nothing changes what a rank knows: it is what its journal holds.
pub fn recovered()
    ensures { (w : World) (r : ℕ) → IsReached w → is_stopped w r ≡ true → IsRecovered w r }
{}

/// Where owners are kept only at the roots of subtrees, the walk up finds the authority, after every list of events.
pub fn nearest_owner()
    ensures { (limit ranks : ℕ) (events : List StepEvent) → 1 ≤ ranks → NearestOwns (run (start limit ranks) events) }
{}

/// The lists of directories that an export may move are those that are connected, after every list of events.
pub fn connected()
    ensures tested { (limit ranks : ℕ) (events : List StepEvent) → TestsConnected (run (start limit ranks) events) }
    // Parents may come from elsewhere, where they are those of the list's directories.
    ensures accepted { (w : World) (parent : ℕ → ℕ) (dirs : List ℕ) → IsReached w → AreParents w dirs parent →
        HangsTogether parent dirs → AcceptsConnected w dirs }
{}
