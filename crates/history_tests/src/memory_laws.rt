//! What a call gives that was out of memory and is made again: what one call gives of the untouched object.
//!
//! Each function makes a call, and once more where memory was refused, and promises what the one call promises. No
//! other call on a `Tree`, `Share`, `Book`, `Cluster`, `Pins`, `Heat` or the map takes memory and changes anything:
//! `Tree::add` is what `make` calls, `reserve` takes room only, and the map's `open` hands back what the book's does.
//! Of a board's changes `mds_board::laws::refused_once` says so, but for the share of a deposit.
ghost use Rattle.std.specs.Prelude.{◌≡◌, ◌+◌, ◌≤◌, ◌++◌, [], Some, None, Err, IfErr, IfOk, IsOkUnless, OnErr, OnOk};
ghost use Rattle.std.specs.Prelude.{length, replicate, true};
ghost use Rattle.mds_board.specs.Steps.{spelled};
ghost use Rattle.dirtree.specs.Tree.{make_refusal, with_child};
ghost use Rattle.export_machine.specs.Kept.{is_ready};
ghost use Rattle.export_machine.specs.Room.{IsRefusal, KeepsRoom};
ghost use Rattle.export_protocol.specs.Step.{refusal};
ghost use Rattle.export_protocol.specs.View.{AreAnswers, IsAnswer};
ghost use Rattle.heat_ledger.specs.Rows.{counted_rows};
ghost use Rattle.mds_board.specs.History.{IsAnswer as IsBoardAnswer};

use authority_map::{MapError, Publisher};
use dirtree::{Tree, TreeError};
use export_machine::Cluster;
use export_protocol::{Event, Reply, StepError};
use heat_ledger::{Book, NewBook, Share};
use mds_board::{Answer, Board, BoardError, Change};
use mds_types::Dir;
use mds_types::limits::DIR_LIMIT;
use proof_names::Naming;
use std::alloc::{AllocError, AllocFailed, Global};

/// Makes a directory, as `Tree::make`.
pub fn make_again(
    tree: &mut Tree,
    alloc: Global,
    parent: Dir,
    name: &str,
    inodes: u32,
) -> Result<Dir, TreeError>
    ensures made { OnOk result (tree.new ≡ with_child tree.old parent name.now inodes) }
    ensures number { IfOk result (λ dir. dir ≡ length tree.old.entries) }
    ensures unchanged { OnErr result (tree.new ≡ tree.old) }
    ensures refused { (e : TreeError) → make_refusal tree.old parent name.now ≡ Some e → result ≡ Err e }
    ensures memory { make_refusal tree.old parent name.now ≡ None → IsOkUnless result TreeError.Memory }
{
    match tree.make(alloc, parent, name, inodes) {
        Err(TreeError::Memory) => tree.make(alloc, parent, name, inodes),
        answer => answer,
    }
}

/// Opens a book, as `Book::open`, the second time with what was handed back.
pub fn open_book_again<J: Naming>(
    alloc: Global,
    opened: NewBook,
    limit: u32,
    shares: u8,
) -> Result<(Book<J>, Vec<Share<J>>), AllocFailed<NewBook>>
    requires name { opened ≡ J.ledger }
    requires limit { (limit ≡ J.limit) × (1 ≤ limit) × (limit ≤ DIR_LIMIT) }
    requires shares { (1 ≤ shares) × (shares ≤ 64) }
    ensures book { IfOk result (λ r. r.0 ≡ record {
      is_open = true;
      shares = shares;
      counted = replicate (limit + limit) 0;
      begun = replicate limit 0;
    }) }
    ensures shares { IfOk result (λ r. r.1.items ≡ replicate shares (record {
      weight = 1;
      hits = replicate (limit + limit) 0;
      pending = replicate (limit + limit) 0;
      begun = replicate limit 0;
    })) }
    ensures err { IfErr result (λ e. e.value ≡ opened) }
{
    match Book::<J>::open(alloc, opened, limit, shares) {
        Err(AllocFailed { value }) => Book::<J>::open(alloc, value, limit, shares),
        answer => answer,
    }
}

/// Shows readers all that is pending, as `Publisher::publish`.
pub fn publish_again<J: Naming, M: Publisher<J>>(map: &mut M) -> Result<(), MapError>
    ensures ok { OnOk result ((M.published map.new ≡ M.published map.old ++ M.pending map.old)
        × (M.pending map.new ≡ [])) }
    ensures refused { IfErr result (λ e. e ≡ MapError.Memory) }
    ensures unchanged { OnErr result ((M.published map.new ≡ M.published map.old)
        × (M.pending map.new ≡ M.pending map.old)) }
{
    match map.publish() {
        Err(_) => map.publish(),
        Ok(()) => Ok(()),
    }
}

/// Applies an event, as `Cluster::apply`, the second time its copy.
pub fn apply_again(cluster: &mut Cluster, event: Event, copy: Event) -> Result<Reply, StepError>
    requires { copy ≡ event }
    ensures { IsAnswer cluster.old.world (event) result cluster.new.world }
{
    match cluster.apply(event) {
        Err(StepError::Memory) => cluster.apply(copy),
        answer => answer,
    }
}

/// Takes the memory that an event needs, as `Cluster::prepare`.
pub fn prepare_again(cluster: &mut Cluster, event: &Event) -> Result<(), StepError>
    ensures accepted { OnOk result (refusal cluster.old.world (event.now) ≡ None) }
    ensures room { OnOk result (is_ready cluster.new (event.now) ≡ true) }
    ensures err { IfErr result (IsRefusal cluster.old.world (event.now)) }
    ensures world { cluster.new.world ≡ cluster.old.world }
    ensures spare { KeepsRoom cluster.old cluster.new }
{
    match cluster.prepare(event) {
        Err(StepError::Memory) => cluster.prepare(event),
        answer => answer,
    }
}

/// Applies events, as `Cluster::run`.
pub fn run_again(
    cluster: &mut Cluster,
    alloc: Global,
    events: &[Event],
) -> Result<Vec<Result<Reply, StepError>>, AllocError>
    ensures answers { IfOk result (λ answers.
        AreAnswers cluster.old.world (events.now) answers.items cluster.new.world) }
    ensures err { OnErr result (cluster.new.world ≡ cluster.old.world) }
{
    match cluster.run(alloc, events) {
        Err(AllocError) => cluster.run(alloc, events),
        answers => answers,
    }
}

/// Counts what a share has pending, as `Board::deposit`.
pub fn deposit_again<J: Naming, M: Publisher<J>>(
    board: &mut Board<J, M>,
    alloc: Global,
    share: &mut Share<J>,
) -> Result<(), BoardError>
    ensures answer { IsBoardAnswer board.old (Change.Deposit (counted_rows share.old.pending))
        (spelled (λ _. Answer.Done) result) board.new }
    ensures share { OnOk result (share.new ≡ record share.old { pending = replicate (J.limit + J.limit) 0 }) }
    ensures unchanged { OnErr result (share.new ≡ share.old) }
{
    match board.deposit(alloc, share) {
        Err(BoardError::Memory) => board.deposit(alloc, share),
        answer => answer,
    }
}
