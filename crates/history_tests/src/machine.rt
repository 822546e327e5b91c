//! The export machine, by schedules: lists of events with their answers.

mod schedules;
pub(crate) mod steps;
