//! Events of schedules, each with the answer that it must have.
//!
//! What asks for memory is asked again where a growth was refused, so the tests hold with any one growth refused.

use crate::given::{dirs_at_last, rank};
use crate::same::{Sure, same_in};
use export_machine::Cluster;
use export_protocol::{Event, Reply, StepError};
use mds_types::Dir;
use std::alloc::{AllocError, Global};
use std::process::Abort;

/// The events of a schedule, with their numbers.
#[derive(Clone, Copy)]
pub(crate) enum Do {
    Make(u32),
    Remove(u32),
    Begin(u8, u32),
    End(u32),
    Start(u8, u8, &'static [u32]),
    Deliver(u32),
    Froze(u32),
    Notify(u32),
    Abort(u32),
    Stop(u8),
    Restart(u8),
    Ask(u32),
}

/// The event of a step.
pub(crate) fn event(alloc: Global, step: Do) -> Result<Event, AllocError> {
    Ok(match step {
        Do::Make(parent) => Event::Made(Dir::new(parent)),
        Do::Remove(dir) => Event::Gone(Dir::new(dir)),
        Do::Begin(at, dir) => Event::Begin(rank(at), Dir::new(dir)),
        Do::End(ticket) => Event::End(ticket),
        Do::Start(from, to, numbers) => {
            Event::Start(rank(from), rank(to), dirs_at_last(alloc, numbers)?)
        }
        Do::Deliver(message) => Event::Deliver(message),
        Do::Froze(export) => Event::Froze(export),
        Do::Notify(export) => Event::Notify(export),
        Do::Abort(export) => Event::Abort(export),
        Do::Stop(at) => Event::Stop(rank(at)),
        Do::Restart(at) => Event::Restart(rank(at)),
        Do::Ask(export) => Event::Ask(export),
    })
}

/// A step, and its reply or refusal as text.
pub(crate) type Row = (Do, &'static str);

fn text(alloc: Global, answer: &Result<Reply, StepError>) -> Result<String, AllocError> {
    match answer {
        Ok(reply) => format!(in alloc; "{reply:?}"),
        Err(error) => format!(in alloc; "{error}"),
    }
}

fn text_at_last(alloc: Global, answer: &Result<Reply, StepError>) -> Result<String, AllocError> {
    match text(alloc, answer) {
        Ok(text) => Ok(text),
        Err(_) => text(alloc, answer),
    }
}

/// The answer to a step, which is taken again where it was out of memory.
fn answer(
    alloc: Global,
    cluster: &mut Cluster,
    step: Do,
) -> Result<Result<Reply, StepError>, AllocError> {
    match cluster.apply(event(alloc, step)?) {
        Err(StepError::Memory) => Ok(cluster.apply(event(alloc, step)?)),
        answer => Ok(answer),
    }
}

/// Runs rows of a schedule on a cluster. Each answer is that of its row.
pub(crate) fn run_rows(
    rt: &impl Abort,
    alloc: Global,
    cluster: &mut Cluster,
    name: &str,
    rows: &[Row],
) {
    for (at, (step, wanted)) in rows.iter().enumerate() {
        let answered = answer(alloc, cluster, *step).sure(rt);
        let found = text_at_last(alloc, &answered).sure(rt);
        same_in(rt, &found.as_str(), wanted, &(name, at));
    }
}

/// A cluster of two ranks with room for four directories.
pub(crate) fn cluster_of(alloc: Global) -> Result<Cluster, AllocError> {
    match Cluster::new(alloc, 4, 2) {
        Ok(cluster) => Ok(cluster),
        Err(_) => Cluster::new(alloc, 4, 2),
    }
}

/// A cluster after the first `steps` steps to the log entry.
pub(crate) fn after(rt: &impl Abort, alloc: Global, steps: usize) -> Cluster {
    let mut cluster = cluster_of(alloc).sure(rt);
    let rows = &TO_THE_LOG[..steps.min(9)];
    run_rows(rt, alloc, &mut cluster, "to the log entry", rows);
    cluster
}

/// The steps that move directory 1 from rank 0 to rank 1, up to the log entry. The first makes it.
pub(crate) const TO_THE_LOG: &[Row] = &[
    (Do::Make(0), "Dir(Dir { number: 1 })"),
    (Do::Start(0, 1, &[1]), "Export(0, 0)"),
    (Do::Deliver(0), "Sent(1)"),
    (Do::Deliver(1), "Changed"),
    (Do::Froze(0), "Sent(2)"),
    (Do::Deliver(2), "Sent(3)"),
    (Do::Deliver(3), "Sent(4)"),
    (Do::Deliver(4), "Sent(5)"),
    (Do::Deliver(5), "Changed"),
];
