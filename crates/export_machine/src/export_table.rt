//! The table of exports: a row for each, by number. To a contract it is a list for each of its columns.

ghost use Rattle.std.specs.Prelude.{◌≡◌, ◌<◌, ◌↔◌, ◌++◌, ◌∷◌, [], length, true, false};
ghost use Rattle.std.specs.Prelude.{IsSome, IfSome, OnOk, IsOk, slice_index_or, slice_set};
ghost use Rattle.export_protocol.specs.Authority.{order_in};

use export_protocol::{ExporterState, ImporterState};
use mds_types::Order;
use std::alloc::{AllocError, Global};
use std::marker::Model;

/// What a cluster keeps of one export.
#[derive(Drop)]
struct ExportRow {
    /// What it moves.
    order: Order,
    /// Its state at the exporter.
    exporter: ExporterState,
    /// Its state at the importer.
    importer: ImporterState,
    /// Whether its importer's journal has it as dropped.
    dropped: bool,
}

/// The rows of all exports that were started.
#[derive(Drop)]
pub(crate) struct ExportTable {
    rows: Vec<ExportRow>,
}

impl Model for ExportTable {
    ghost use Rattle.export_machine.specs.ExportColumns.{ExportColumns, export_columns};

    ghost Value = { ExportColumns };

    ghost view = { λ table. export_columns table.rows };
}

impl ExportTable {
    /// No export.
    pub(crate) fn new(alloc: Global) -> Self
        ensures { result ≡ record {
          orders = [];
          exporters = [];
          importers = [];
          dropped = [];
          spare = result.spare;
        } }
    {
        ExportTable {
            rows: Vec::new(alloc),
        }
    }

    /// How many exports were started.
    pub(crate) fn len(&self) -> usize
        ensures { result ≡ length self.now.orders }
    {
        self.rows.len()
    }

    /// What an export moves.
    pub(crate) fn order(&self, export: u32) -> &Order
        requires near { export < length self.now.orders }
        ensures { result.now ≡ order_in self.now.orders export }
    {
        &self.rows[export as usize].order
    }

    /// What an export moves, if it is one.
    pub(crate) fn get(&self, export: u32) -> Option<&Order>
        ensures found { IsSome result ↔ (export < length self.now.orders) }
        ensures order { IfSome result (λ order. order.now ≡ order_in self.now.orders export) }
    {
        if export as usize >= self.rows.len() {
            return None;
        }
        Some(self.order(export))
    }

    pub(crate) fn exporter(&self, export: u32) -> ExporterState
        ensures { result ≡ slice_index_or self.now.exporters export ExporterState.Aborted }
    {
        match self.rows.get(export as usize) {
            Some(row) => row.exporter,
            None => ExporterState::Aborted,
        }
    }

    pub(crate) fn importer(&self, export: u32) -> ImporterState
        ensures { result ≡ slice_index_or self.now.importers export ImporterState.Unknown }
    {
        match self.rows.get(export as usize) {
            Some(row) => row.importer,
            None => ImporterState::Unknown,
        }
    }

    pub(crate) fn dropped(&self, export: u32) -> bool
        ensures { result ≡ slice_index_or self.now.dropped export false }
    {
        match self.rows.get(export as usize) {
            Some(row) => row.dropped,
            None => false,
        }
    }

    /// Takes room for one more export.
    pub(crate) fn reserve(&mut self) -> Result<(), AllocError>
        ensures others { self.new ≡ record self.old { spare = self.new.spare } }
        ensures room { OnOk result (self.new.spare ≡ true) }
        ensures ready { self.old.spare ≡ true → IsOk result }
        ensures spare { self.old.spare ≡ true → self.new.spare ≡ true }
    {
        self.rows.reserve(1)
    }

    /// One more export, of which the importer doesn't know yet.
    pub(crate) fn push_reserved(&mut self, order: Order)
        requires room { self.old.spare ≡ true }
        ensures { self.new ≡ record {
          orders = self.old.orders ++ order ∷ [];
          exporters = self.old.exporters ++ ExporterState.Discovering ∷ [];
          importers = self.old.importers ++ ImporterState.Unknown ∷ [];
          dropped = self.old.dropped ++ false ∷ [];
          spare = self.new.spare;
        } }
    {
        self.rows.push_reserved(ExportRow {
            order,
            exporter: ExporterState::Discovering,
            importer: ImporterState::Unknown,
            dropped: false,
        });
    }

    /// The export's next state at the exporter.
    pub(crate) fn set_exporter(&mut self, export: u32, state: ExporterState)
        ensures { self.new ≡ record self.old { exporters = slice_set self.old.exporters export state } }
    {
        let index = export as usize;
        if index < self.rows.len() {
            self.rows[index].exporter = state;
        }
    }

    /// The export's next state at the importer.
    pub(crate) fn set_importer(&mut self, export: u32, state: ImporterState)
        ensures { self.new ≡ record self.old { importers = slice_set self.old.importers export state } }
    {
        let index = export as usize;
        if index < self.rows.len() {
            self.rows[index].importer = state;
        }
    }

    /// Whether the importer's journal has the export as dropped.
    pub(crate) fn set_dropped(&mut self, export: u32, dropped: bool)
        ensures { self.new ≡ record self.old { dropped = slice_set self.old.dropped export dropped } }
    {
        let index = export as usize;
        if index < self.rows.len() {
            self.rows[index].dropped = dropped;
        }
    }
}
