//! The lines of `stat`. Each is made in a text, in place of what it held.
ghost use Rattle.std.specs.Prelude.{◌≡◌, ◌<◌, ◌+◌, ◌++◌, ◌∷◌, [], OnOk, codes, decimal, length, string_bytes, true};
ghost use Rattle.dirtree.specs.Tree.{is_there};
ghost use Rattle.script_board.specs.Stat.{directories};
ghost use Rattle.script_session.specs.Stat.{cluster_line, dir_line, rank_text};

use crate::line_end::LineEnd;
use authority_map::Publisher;
use mds_types::{Dir, Kind, Rank};
use proof_names::Naming;
use script_board::ScriptBoard;
use std::alloc::{AllocError, Global};

pub(crate) fn cluster_line<J: Naming, M: Publisher<J>>(
    board: &ScriptBoard<J, M>,
    count: usize,
    line: &mut String,
) -> Result<(), AllocError>
    requires { count ≡ length (directories board.now.world.state.directories.entries) }
    ensures { OnOk result (string_bytes line.new ≡ cluster_line board.now) }
{
    let active = board.active();
    let usable = board.usable().len();
    line.clear();
    write!(
        line,
        "stat ranks {active} usable {usable} directories {count}\n"
    )
}

// What a line says of a directory after its path.
#[derive(Drop)]
struct DirFacts {
    pin: Option<Rank>,
    rank: Option<Rank>,
    heat: u64,
    reads: u64,
    writes: u64,
}

pub(crate) fn dir_line<J: Naming, M: Publisher<J>>(
    alloc: Global,
    board: &mut ScriptBoard<J, M>,
    dir: Dir,
    field: &mut String,
    line: &mut String,
) -> Result<(), AllocError>
    requires there { is_there board.old.world.state.directories.entries dir ≡ true }
    requires below { dir < board.old.world.state.directories.limit }
    ensures line { OnOk result (string_bytes line.new ≡ dir_line board.old dir) }
    ensures same { board.new ≡ board.old }
{
    board.write_path(alloc, dir, field)?;
    let facts = DirFacts {
        pin: board.pin_of(dir),
        rank: board.rank_of(dir),
        heat: board.heat_of(dir),
        reads: board.hits_of(dir, Kind::Read),
        writes: board.hits_of(dir, Kind::Write),
    };
    write_dir(dir, field.as_str(), &facts, line)
}

fn write_dir(dir: Dir, path: &str, facts: &DirFacts, line: &mut String) -> Result<(), AllocError>
    ensures { OnOk result (string_bytes line.new ≡ codes "dir " ++ decimal dir ++ codes " " ++ path.now
        ++ codes " pin " ++ rank_text facts.now.pin ++ codes " rank " ++ rank_text facts.now.rank
        ++ codes " heat " ++ decimal facts.now.heat ++ codes " hits " ++ decimal (facts.now.reads + facts.now.writes)
        ++ codes " writes " ++ decimal facts.now.writes ++ 10 ∷ []) }
{
    let mut front = LineEnd::new();
    front.put(" ");
    front.put_number(dir.number() as u64);
    front.put("dir ");
    let mut end = LineEnd::new();
    put_facts(facts, &mut end);
    line.clear();
    line.push_str(front.text())?;
    line.push_str(path)?;
    line.push_str(end.text())?;
    Ok(())
}

// Writes what comes after the path.
fn put_facts(facts: &DirFacts, end: &mut LineEnd)
    requires { end.old ≡ [] }
    ensures { end.new ≡ codes " pin " ++ (rank_text facts.now.pin ++ (codes " rank " ++ (rank_text facts.now.rank
        ++ (codes " heat " ++ (decimal facts.now.heat ++ (codes " hits "
        ++ (decimal (facts.now.reads + facts.now.writes) ++ (codes " writes "
        ++ (decimal facts.now.writes ++ 10 ∷ []))))))))) }
{
    end.put("\n");
    end.put_number(facts.writes);
    end.put(" writes ");
    end.put_sum(facts.reads, facts.writes);
    end.put(" hits ");
    end.put_number(facts.heat);
    end.put(" heat ");
    end.put_rank(facts.rank);
    end.put(" rank ");
    end.put_rank(facts.pin);
    end.put(" pin ");
}
