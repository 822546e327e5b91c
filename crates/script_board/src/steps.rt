//! The steps of exports and requests, one by one.
ghost use Rattle.std.specs.Prelude.{◌≡◌, ◌<◌, ◌≤◌, [], IfErr, IfOk, OnErr, Ok, Err, length, map, true, vec_capacity};
ghost use Rattle.mds_board.specs.Steps.{is_inner};
ghost use Rattle.script_board.specs.Fault.{IsDue};
ghost use Rattle.script_board.specs.Steps.{begin_at, begin_on, find_all, share_of, start, take_step};

use crate::fault::Fault;
use crate::script_board::ScriptBoard;
use authority_map::Publisher;
use export_protocol::{Event, Reply};
use mds_types::{Dir, Dirs, Rank};
use proof_names::Naming;
use rank_threads::Unsettled;
use std::alloc::Global;

impl<J: Naming, M: Publisher<J>> ScriptBoard<J, M> {
    /// An event of the cluster that neither makes nor removes a directory nor begins a request, and the reply to it.
    /// The next `move` looks at all exports and messages, since a message that comes late can wake an export that was
    /// settled.
    #[tactic(auto, unfolding(mds_board::specs::State::happens))]
    pub fn step(&mut self, alloc: Global, event: Event) -> Result<Reply, Fault>
        requires inner { is_inner event ≡ true }
        ensures done { IfOk result (λ reply. take_step self.old event ≡ Ok (reply, self.new)) }
        ensures fault { IfErr result (IsDue (take_step self.old event)) }
        ensures unchanged { OnErr result (self.new ≡ self.old) }
    {
        let reply = self.board.step(alloc, event)?;
        self.shortcuts.unsettled = Unsettled::new(alloc);
        Ok(reply)
    }

    // The directories that paths name, in a list that has room for them.
    fn find_all(&self, paths: &[&str], room: Vec<Dir>) -> Result<Vec<Dir>, Fault>
        requires empty { room.items ≡ [] }
        requires enough { length paths.now ≤ vec_capacity room }
        ensures dirs { IfOk result (λ dirs. find_all self.now (map (λ path. path.now) paths.now) ≡ Ok dirs.items) }
        ensures fault { IfErr result (λ fault. find_all self.now (map (λ path. path.now) paths.now) ≡ Err fault) }
    {
        let mut dirs = room;
        for path in paths {
            let dir = self.find(path)?;
            dirs.push_reserved(dir);
        }
        Ok(dirs)
    }

    /// Starts an export of the directories that paths name, for which `room` has room.
    pub fn start(
        &mut self,
        alloc: Global,
        from: Rank,
        to: Rank,
        paths: &[&str],
        room: Vec<Dir>,
    ) -> Result<Reply, Fault>
        requires empty { room.items ≡ [] }
        requires enough { length paths.now ≤ vec_capacity room }
        ensures done { IfOk result (λ reply. start self.old from to (map (λ path. path.now) paths.now)
            ≡ Ok (reply, self.new)) }
        ensures fault { IfErr result (IsDue (start self.old from to (map (λ path. path.now) paths.now))) }
        ensures unchanged { OnErr result (self.new ≡ self.old) }
    {
        let dirs = self.find_all(paths, room)?;
        self.step(alloc, Event::Start(from, to, Dirs::new(dirs)))
    }

    // The share of a rank, or share 0 where it has none.
    fn share_of(&self, rank: Rank) -> usize
        ensures number { result ≡ share_of self.now.shares rank }
        ensures inside { result < length self.now.shares }
    {
        let number = usize::from(rank.number());
        if number < self.shares.len() {
            number
        } else {
            0
        }
    }

    // A request on a directory begins at a rank, and is counted in the rank's share.
    #[tactic(auto, unfolding(mds_board::specs::State::happens))]
    fn begin_on(&mut self, rank: Rank, dir: Dir) -> Result<Reply, Fault>
        ensures done { IfOk result (λ reply. begin_on self.old rank dir ≡ Ok (reply, self.new)) }
        ensures fault { IfErr result (IsDue (begin_on self.old rank dir)) }
        ensures unchanged { OnErr result (self.new ≡ self.old) }
    {
        let number = self.share_of(rank);
        let reply = self.board.begin(&mut self.shares[number], rank, dir)?;
        Ok(reply)
    }

    /// A request on the directory that a path names begins at a rank, and is counted in the rank's share.
    pub fn begin(&mut self, rank: Rank, path: &str) -> Result<Reply, Fault>
        ensures done { IfOk result (λ reply. begin_at self.old rank path.now ≡ Ok (reply, self.new)) }
        ensures fault { IfErr result (IsDue (begin_at self.old rank path.now)) }
        ensures unchanged { OnErr result (self.new ≡ self.old) }
    {
        let dir = self.find(path)?;
        self.begin_on(rank, dir)
    }
}
