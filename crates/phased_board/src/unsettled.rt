//! What a phase of exports has to look at of what earlier ones left.
ghost use Rattle.std.specs.Prelude.{◌≡◌, []};

use crate::looks::{is_unsettled, is_wanted};
use export_machine::Cluster;
use std::alloc::{AllocError, Global};

/// The exports and messages of one board that aren't settled yet. Its owner keeps it from one phase to the next, so
/// that a phase doesn't look at all that were ever started and sent. It says what a phase tries, and not what it may
/// do.
#[derive(Drop)]
pub struct Unsettled {
    exports: Vec<u32>,
    messages: Vec<u32>,
    // the exports and messages from these numbers on weren't looked at
    started: u32,
    sent: u32,
}

impl Unsettled {
    /// Nothing was looked at. It asks for no memory.
    pub fn new(alloc: Global) -> Unsettled {
        Unsettled {
            exports: Vec::new(alloc),
            messages: Vec::new(alloc),
            started: 0,
            sent: 0,
        }
    }

    /// Looks at the exports that were started and the messages that were sent since the last time, and forgets what is
    /// settled. An export that is settled stays so, as long as only phases deliver messages.
    pub fn update(&mut self, cluster: &Cluster) -> Result<(), AllocError> {
        self.exports.retain(|export| is_unsettled(cluster, *export));
        self.messages.retain(|message| is_wanted(cluster, *message));
        self.add_exports(cluster)?;
        self.add_messages(cluster)
    }

    // Adds the exports that were started since.
    fn add_exports(&mut self, cluster: &Cluster) -> Result<(), AllocError> {
        for export in self.started..u32::MAX {
            if cluster.states(export).is_none() {
                break;
            }
            if is_unsettled(cluster, export) {
                self.exports.push(export)?;
            }
            self.started = export.saturating_add(1);
        }
        Ok(())
    }

    // Adds the messages that were sent since.
    fn add_messages(&mut self, cluster: &Cluster) -> Result<(), AllocError> {
        for message in self.sent..cluster.sent() {
            if is_wanted(cluster, message) {
                self.messages.push(message)?;
            }
            self.sent = message.saturating_add(1);
        }
        Ok(())
    }

    /// The exports that aren't settled, rising.
    pub fn exports(&self) -> &[u32] {
        &self.exports
    }

    /// The messages that may still do something, rising.
    pub fn messages(&self) -> &[u32] {
        &self.messages
    }
}
