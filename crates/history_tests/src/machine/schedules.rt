//! Schedules that the proofs of `export_protocol` don't compute: aborts in each state, messages that come twice, stops,
//! the order of refusals, limits, and refused growths.

use crate::given::rank;
use crate::machine::steps::{Do, Row, TO_THE_LOG, after, cluster_of, event, run_rows};
use crate::same::{Sure, holds_in, same, same_in};
use export_machine::Cluster;
use export_protocol::{Event, ExporterState, ImporterState, Reply};
use mds_types::Dir;
use std::alloc::{AllocError, Global};
use std::process::Abort;

struct Schedule {
    name: &'static str,
    /// How many steps to the log entry come first.
    begun: usize,
    rows: &'static [Row],
    /// The states of export 0 in the end, if there is one.
    states: Option<(ExporterState, ImporterState)>,
    /// How many entries the journals of ranks 0 and 1 have then.
    entries: (usize, usize),
}

const SCHEDULES: &[Schedule] = &[
    Schedule {
        name: "messages that are delivered twice act once",
        begun: 2,
        rows: &[
            (Do::Deliver(0), "Sent(1)"),
            (Do::Deliver(0), "Ignored"),
            (Do::Deliver(1), "Changed"),
            (Do::Deliver(1), "Ignored"),
            (Do::Froze(0), "Sent(2)"),
            (Do::Deliver(2), "Sent(3)"),
            (Do::Deliver(2), "Ignored"),
            (Do::Deliver(3), "Sent(4)"),
            (Do::Deliver(3), "Ignored"),
            (Do::Deliver(4), "Sent(5)"),
            (Do::Deliver(4), "Ignored"),
            (Do::Deliver(5), "Changed"),
            (Do::Deliver(5), "Ignored"),
            (Do::Abort(0), "23 Late logged"),
            (Do::Notify(0), "Sent(6)"),
            (Do::Deliver(6), "Changed"),
            (Do::Abort(0), "23 Late done"),
            // and once more when all is over
            (Do::Deliver(0), "Ignored"),
            (Do::Deliver(1), "Ignored"),
            (Do::Deliver(2), "Ignored"),
            (Do::Deliver(3), "Ignored"),
            (Do::Deliver(4), "Ignored"),
            (Do::Deliver(5), "Ignored"),
            (Do::Deliver(6), "Ignored"),
        ],
        states: Some((ExporterState::Done, ImporterState::Imported)),
        entries: (4, 2),
    },
    Schedule {
        name: "a further stop leaves the import as the journal has it",
        begun: 8,
        rows: &[
            (Do::Stop(0), "Changed"),
            (Do::Ask(0), "Sent(6)"),
            (Do::Restart(0), "Changed"),
            (Do::Deliver(6), "Sent(7)"),
            (Do::Deliver(7), "Changed"),
            (Do::Ask(0), "23 Late aborted"),
            (Do::Stop(1), "Changed"),
            (Do::Restart(1), "Changed"),
            (Do::Start(0, 1, &[1]), "Export(1, 8)"),
        ],
        states: Some((ExporterState::Aborted, ImporterState::Dropped)),
        entries: (2, 2),
    },
    Schedule {
        name: "what a stop aborted can be exported again",
        begun: 5,
        rows: &[
            (Do::Start(0, 1, &[1]), "19 Busy 0"),
            (Do::Stop(0), "Changed"),
            (Do::Restart(0), "Changed"),
            (Do::Begin(0, 1), "Ticket(0)"),
            (Do::Start(0, 1, &[1]), "Export(1, 3)"),
        ],
        states: Some((ExporterState::Aborted, ImporterState::Discovered)),
        entries: (2, 0),
    },
    Schedule {
        name: "a stopped rank refuses",
        begun: 1,
        rows: &[
            (Do::Stop(0), "Changed"),
            (Do::Stop(0), "28 Stopped 0"),
            (Do::Make(0), "28 Stopped 0"),
            (Do::Remove(1), "28 Stopped 0"),
            (Do::Begin(0, 7), "28 Stopped 0"),
            (Do::Start(0, 1, &[7]), "28 Stopped 0"),
            (Do::Stop(2), "12 NoRank"),
            (Do::Restart(2), "12 NoRank"),
            (Do::Ask(0), "17 NoExport"),
        ],
        states: None,
        entries: (2, 0),
    },
    Schedule {
        name: "the first cause of a refusal",
        begun: 1,
        rows: &[
            (Do::Start(2, 0, &[7]), "12 NoRank"),
            (Do::Start(0, 0, &[7]), "21 SameRank"),
            (Do::Start(1, 0, &[7, 7]), "6 NoDir"),
            (Do::Start(1, 0, &[]), "26 NotConnected"),
            (Do::Start(1, 0, &[1, 1]), "26 NotConnected"),
            (Do::Start(1, 0, &[1]), "18 Elsewhere 0"),
            (Do::Make(1), "Dir(Dir { number: 2 })"),
            (Do::Make(0), "Dir(Dir { number: 3 })"),
            (Do::Start(1, 0, &[2, 3]), "26 NotConnected"),
            (Do::Make(9), "6 NoDir"),
            (Do::Make(1), "11 TreeFull"),
            (Do::Start(0, 1, &[2, 1]), "Export(0, 0)"),
            (Do::Start(0, 1, &[3, 0, 1]), "19 Busy 0"),
            (Do::Notify(0), "23 Late discovering"),
            (Do::Notify(7), "17 NoExport"),
            (Do::Deliver(9), "24 NoMessage"),
            (Do::Remove(0), "10 IsRoot"),
            (Do::Remove(1), "9 NotEmpty"),
            (Do::Remove(2), "19 Busy 0"),
            (Do::Begin(2, 7), "12 NoRank"),
            (Do::Begin(0, 3), "Ticket(0)"),
            (Do::Remove(3), "22 NotYet 1"),
            (Do::End(0), "Changed"),
            (Do::End(0), "25 NoTicket"),
            (Do::Remove(3), "Changed"),
            (Do::Begin(0, 3), "6 NoDir"),
        ],
        states: Some((ExporterState::Discovering, ImporterState::Unknown)),
        entries: (5, 0),
    },
];

/// A schedule on a cluster of its own.
fn run(rt: &impl Abort, alloc: Global, schedule: &Schedule) -> Cluster {
    let mut cluster = after(rt, alloc, schedule.begun);
    run_rows(rt, alloc, &mut cluster, schedule.name, schedule.rows);
    same_in(rt, &cluster.states(0), &schedule.states, &schedule.name);
    let journals = (cluster.journal(rank(0)), cluster.journal(rank(1)));
    let entries = (journals.0.len(), journals.1.len());
    same_in(rt, &entries, &schedule.entries, &schedule.name);
    cluster
}

#[test]
fn schedules_are_answered_row_by_row(rt: HostRuntime) {
    for schedule in SCHEDULES {
        run(&rt, rt.alloc(), schedule);
    }
}

/// How many steps to the log entry come before an abort, the exporter's state then, the cancel that is sent, and how
/// many entries the importer's journal has once it came.
type Abortion = (usize, ExporterState, u32, usize);

const ABORTED: &[Abortion] = &[
    (2, ExporterState::Discovering, 1, 0),
    (4, ExporterState::Freezing, 2, 0),
    (5, ExporterState::Preparing, 3, 0),
    (6, ExporterState::Preparing, 4, 0),
    (7, ExporterState::Exporting, 5, 0),
    (8, ExporterState::Exporting, 6, 2),
];

/// After an abort the directory is served where it was.
fn abort(rt: &impl Abort, alloc: Global, row: &Abortion) {
    let (begun, state, cancel, entries) = *row;
    let mut cluster = after(rt, alloc, begun);
    same_in(rt, &cluster.states(0).map(|both| both.0), &Some(state), row);
    let sent = cluster.apply(Event::Abort(0));
    same_in(rt, &sent, &Ok(Reply::Sent(cancel)), row);
    let came = cluster.apply(Event::Deliver(cancel));
    same_in(rt, &came, &Ok(Reply::Changed), row);
    holds_in(rt, cluster.serves(rank(0), Dir::new(1)), row);
    same_in(rt, &cluster.journal(rank(1)).len(), &entries, row);
}

#[test]
fn aborts_before_the_log_entry(rt: HostRuntime) {
    for row in ABORTED {
        abort(&rt, rt.alloc(), row);
    }
}

#[test]
fn history_is_full_after_its_limit(rt: HostRuntime) {
    let mut cluster = after(&rt, rt.alloc(), 9);
    for _ in 9..1_048_576 {
        same(&rt, &cluster.apply(Event::Deliver(0)), &Ok(Reply::Ignored));
    }
    let refused = &[
        (Do::Deliver(0), "33 HistoryFull"),
        (Do::Make(9), "33 HistoryFull"),
    ];
    run_rows(&rt, rt.alloc(), &mut cluster, "full", refused)
}

#[test]
fn exports_are_full_after_their_limit(rt: HostRuntime) {
    let mut cluster = after(&rt, rt.alloc(), 1);
    for export in 0..65_536 {
        let start = event(rt.alloc(), Do::Start(0, 1, &[1])).sure(&rt);
        let started = Ok(Reply::Export(export, 2 * export));
        same(&rt, &cluster.apply(start), &started);
        let cancelled = Ok(Reply::Sent(2 * export + 1));
        same(&rt, &cluster.apply(Event::Abort(export)), &cancelled);
    }
    let refused = &[
        (Do::Start(1, 0, &[1]), "18 Elsewhere 0"),
        (Do::Start(0, 1, &[1]), "27 ExportsFull"),
    ];
    run_rows(&rt, rt.alloc(), &mut cluster, "full", refused)
}

/// The events that lead to the log entry.
fn events(alloc: Global) -> Result<Vec<Event>, AllocError> {
    let mut events = Vec::new(alloc);
    for (step, _) in TO_THE_LOG {
        events.push(event(alloc, *step)?)?;
    }
    Ok(events)
}

#[test]
fn a_list_of_events_is_accepted(rt: HostRuntime) {
    let mut cluster = cluster_of(rt.alloc()).sure(&rt);
    let events = events(rt.alloc()).sure(&rt);
    let answers = cluster.run(rt.alloc(), &events).sure(&rt);
    assert!(rt; answers.iter().all(|answer| answer.is_ok()));
}

/// Directory 1 has moved to rank 1. Here each further kind of event is accepted.
const FURTHER: Schedule = Schedule {
    name: "each kind of event",
    begun: 9,
    rows: &[
        (Do::Notify(0), "Sent(6)"),
        (Do::Deliver(6), "Changed"),
        (Do::Make(1), "Dir(Dir { number: 2 })"),
        (Do::Begin(1, 2), "Ticket(0)"),
        (Do::End(0), "Changed"),
        (Do::Remove(2), "Changed"),
        (Do::Start(1, 0, &[1]), "Export(1, 7)"),
        (Do::Deliver(7), "Sent(8)"),
        (Do::Deliver(8), "Changed"),
        (Do::Froze(1), "Sent(9)"),
        (Do::Deliver(9), "Sent(10)"),
        (Do::Deliver(10), "Sent(11)"),
        (Do::Deliver(11), "Sent(12)"),
        (Do::Stop(1), "Changed"),
        (Do::Ask(1), "Sent(13)"),
        (Do::Restart(1), "Changed"),
        (Do::Deliver(13), "Sent(14)"),
        (Do::Deliver(14), "Changed"),
        (Do::Make(1), "Dir(Dir { number: 3 })"),
        (Do::Start(1, 0, &[1, 3]), "Export(2, 15)"),
        (Do::Abort(2), "Sent(16)"),
    ],
    states: Some((ExporterState::Done, ImporterState::Imported)),
    entries: (6, 5),
};

/// How many roots a cluster has, asked for again where memory was refused.
fn root_count(rt: &impl Abort, alloc: Global, cluster: &Cluster) -> usize {
    match cluster.roots(alloc) {
        Ok(roots) => roots.len(),
        Err(_) => cluster.roots(alloc).sure(rt).len(),
    }
}

/// What a small cluster has after each kind of event, growths refused or not.
#[test]
fn a_refused_growth_changes_nothing(rt: HostRuntime) {
    let cluster = run(&rt, rt.alloc(), &FURTHER);
    same(&rt, &root_count(&rt, rt.alloc(), &cluster), &2);
}
