//! Why an event is refused: the first cause in the order of the table of events.
#![tactic(auto, unfolding(export_protocol::specs::Step::causes))]

ghost use Rattle.std.specs.Prelude.{◌≡◌, true};
ghost use Rattle.std.specs.List.{list_all};
ghost use Rattle.export_protocol.specs.Authority.{is_present};
ghost use Rattle.export_protocol.specs.Step.{refusal, first, causes, is_connected};
ghost use Rattle.export_protocol.specs.declared.event.Event.{Event as StepEvent};
ghost use Rattle.export_machine.specs.Kept.{cause_of};

use crate::checks::{check_different, check_not_root};
use crate::cluster::Cluster;
use export_protocol::{Event, ExporterState, ImporterState, StepError};
use mds_types::{Dir, Rank};

impl Cluster {
    fn check_made(&self, parent: Dir) -> Result<(), StepError>
        ensures { cause_of result ≡ first (causes self.now.world (StepEvent.Made parent)) }
    {
        self.check_dir(parent)?;
        self.check_room()?;
        self.check_held(parent)?;
        self.check_authority_runs(parent)
    }

    fn check_begin(&self, rank: Rank, dir: Dir) -> Result<(), StepError>
        ensures { cause_of result ≡ first (causes self.now.world (StepEvent.Begin rank dir)) }
    {
        self.check_rank(rank)?;
        self.check_runs(rank)?;
        self.check_dir(dir)?;
        self.check_served(rank, dir)
    }

    fn check_notify(&self, export: u32) -> Result<(), StepError>
        ensures { cause_of result ≡ first (causes self.now.world (StepEvent.Notify export)) }
    {
        self.check_export(export)?;
        self.check_runs(self.records.from(export))?;
        match self.records.exporter(export) {
            ExporterState::Logged => Ok(()),
            state => Err(StepError::Late(state)),
        }
    }

    fn check_gone(&self, dir: Dir) -> Result<(), StepError>
        ensures { cause_of result ≡ first (causes self.now.world (StepEvent.Gone dir)) }
    {
        check_not_root(dir)?;
        self.check_dir(dir)?;
        self.check_empty(dir)?;
        self.check_not_busy(dir)?;
        self.check_idle(dir)?;
        self.check_authority_runs(dir)
    }

    fn check_end(&self, ticket: u32) -> Result<(), StepError>
        ensures { cause_of result ≡ first (causes self.now.world (StepEvent.End ticket)) }
    {
        match self.records.tickets.get(ticket as usize) {
            Some(Some(_)) => Ok(()),
            _ => Err(StepError::NoTicket),
        }
    }

    fn check_deliver(&self, message: u32) -> Result<(), StepError>
        ensures { cause_of result ≡ first (causes self.now.world (StepEvent.Deliver message)) }
    {
        if message as usize >= self.records.sent.len() {
            return Err(StepError::NoMessage);
        }
        Ok(())
    }

    fn check_froze(&self, export: u32) -> Result<(), StepError>
        ensures { cause_of result ≡ first (causes self.now.world (StepEvent.Froze export)) }
    {
        self.check_export(export)?;
        self.check_runs(self.records.from(export))?;
        match self.records.exporter(export) {
            ExporterState::Freezing => {}
            state => return Err(StepError::Late(state)),
        }
        match self.running_in(export) {
            0 => Ok(()),
            requests => Err(StepError::NotYet(requests)),
        }
    }

    fn check_abort(&self, export: u32) -> Result<(), StepError>
        ensures { cause_of result ≡ first (causes self.now.world (StepEvent.Abort export)) }
    {
        self.check_export(export)?;
        self.check_runs(self.records.from(export))?;
        match self.records.exporter(export) {
            ExporterState::Discovering
            | ExporterState::Freezing
            | ExporterState::Preparing
            | ExporterState::Exporting => Ok(()),
            state => Err(StepError::Late(state)),
        }
    }

    fn check_stop(&self, rank: Rank) -> Result<(), StepError>
        ensures { cause_of result ≡ first (causes self.now.world (StepEvent.Stop rank)) }
    {
        self.check_rank(rank)?;
        self.check_runs(rank)
    }

    fn check_restart(&self, rank: Rank) -> Result<(), StepError>
        ensures { cause_of result ≡ first (causes self.now.world (StepEvent.Restart rank)) }
    {
        self.check_rank(rank)
    }

    fn check_ask(&self, export: u32) -> Result<(), StepError>
        ensures { cause_of result ≡ first (causes self.now.world (StepEvent.Ask export)) }
    {
        self.check_export(export)?;
        self.check_runs(self.records.to(export))?;
        match self.records.importer(export) {
            ImporterState::Started => Ok(()),
            _ => Err(StepError::Late(self.records.exporter(export))),
        }
    }

    fn check_start(
        &self,
        from: Rank,
        to: Rank,
        dirs: &[Dir],
        connected: bool,
    ) -> Result<(), StepError>
        requires { list_all (is_present self.now.world) dirs.now ≡ true
            → connected ≡ is_connected self.now.world dirs.now }
        ensures { cause_of result ≡ first (causes self.now.world (StepEvent.Start from to dirs.now)) }
    {
        self.check_rank(from)?;
        self.check_rank(to)?;
        self.check_runs(from)?;
        check_different(from, to)?;
        self.check_dirs(dirs)?;
        if !connected {
            return Err(StepError::NotConnected);
        }
        self.check_leaving(from, dirs)?;
        self.check_exports()
    }

    #[tactic(auto)]
    #[inline(always)]
    pub(crate) fn check_causes(&self, event: &Event) -> Result<(), StepError>
        ensures { cause_of result ≡ first (causes self.now.world (event.now)) }
    {
        match event {
            Event::Made(parent) => self.check_made(*parent),
            Event::Gone(dir) => self.check_gone(*dir),
            Event::Begin(rank, dir) => self.check_begin(*rank, *dir),
            Event::End(ticket) => self.check_end(*ticket),
            Event::Start(from, to, dirs) => self.check_start(
                *from,
                *to,
                dirs.as_slice(),
                self.records.is_connected(dirs.as_slice()),
            ),
            Event::Deliver(message) => self.check_deliver(*message),
            Event::Froze(export) => self.check_froze(*export),
            Event::Notify(export) => self.check_notify(*export),
            Event::Abort(export) => self.check_abort(*export),
            Event::Stop(rank) => self.check_stop(*rank),
            Event::Restart(rank) => self.check_restart(*rank),
            Event::Ask(export) => self.check_ask(*export),
        }
    }

    /// Why an event is refused, by the marks: a list of directories takes time that grows only with its length.
    #[tactic(auto, unfolding(export_protocol::specs::Step::refusal))]
    pub(crate) fn check_by_marks(&mut self, event: &Event) -> Result<(), StepError>
        ensures cause { cause_of result ≡ refusal self.old.world (event.now) }
        ensures same { self.new ≡ self.old }
    {
        self.check_history()?;
        match event {
            Event::Start(from, to, dirs) => {
                let connected = self.connects(dirs.as_slice());
                self.check_start(*from, *to, dirs.as_slice(), connected)
            }
            _ => self.check_causes(event),
        }
    }
}
