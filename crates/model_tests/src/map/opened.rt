//! The one place that opens a map. A function that knows the type of the map's writer takes ten seconds to prove for
//! that reason, so all that is tried is generic in it.
ghost use Rattle.std.specs.Prelude.{◌≡◌};

use crate::map::maps::look;
use crate::map::published::{follow, give_many};
use crate::map::reopened::reopen;
use crate::map::watched::never_go_back;
use crate::same::Sure;
use authority_map::{Found, MapError, MapReader, MapWriter, NewMap, Publisher};
use mds_types::Dir;
use proof_names::Naming;
use std::alloc::Global;
use std::marker::Brand;
use std::process::Abort;
use std::sync::Wait;
use std::thread::Threads;

/// What is tried on a map of 96 directories with three readers.
#[derive(Clone, Copy)]
pub(crate) enum Trial {
    Follows,
    Refusals,
    Reopens,
    Watches,
}

// Whether all is as it is to be.
fn is_well<J: Naming + Send + Sync, M: Publisher<J> + Send, R: Threads + Sync>(
    rt: &R,
    alloc: Global,
    writer: &mut M,
    readers: &mut [MapReader<J>],
    trial: Trial,
) -> Result<bool, MapError>
    requires { J.limit ≡ 96 }
{
    let [first, second, third] = readers else {
        return Ok(false);
    };
    match trial {
        Trial::Watches => Ok(never_go_back(rt, alloc, writer, first, second, third)),
        Trial::Refusals => give_many::<J, M>(alloc, writer, first),
        Trial::Follows => follow::<J, M>(alloc, writer, first),
        Trial::Reopens => reopen::<J, M>(alloc, writer, first),
    }
}

// Whether a reader finds the map closed.
fn is_closed<J: Naming>(readers: &mut Vec<MapReader<J>>) -> bool {
    match readers.first_mut() {
        Some(reader) => look(reader, Dir::new(1)) == Found::Closed,
        None => false,
    }
}

// Whether all is as it is to be, and closed once the writer ends.
fn go_on<J: Naming + Send + Sync, R: Threads + Wait + Sync>(
    rt: &R,
    alloc: Global,
    mut writer: MapWriter<J, &R>,
    mut readers: Vec<MapReader<J>>,
    trial: Trial,
) -> Result<bool, MapError>
    requires { J.limit ≡ 96 }
{
    let done = is_well::<J, MapWriter<J, &R>, R>(rt, alloc, &mut writer, &mut readers, trial);
    writer.end();
    Ok(is_closed(&mut readers) && done?)
}

// Opens a map, again where memory was refused, and says whether all is as it is to be.
fn on_map<J: Naming + Send + Sync, R: Threads + Wait + Sync>(
    rt: &R,
    alloc: Global,
    opened: NewMap,
    trial: Trial,
) -> Result<bool, MapError>
    requires name { opened ≡ J.map }
    requires limit { J.limit ≡ 96 }
{
    let opened = match MapWriter::<J, &R>::open(rt, alloc, opened, 96, 3) {
        Ok((writer, readers)) => return go_on(rt, alloc, writer, readers, trial),
        Err((_error, opened)) => opened,
    };
    match MapWriter::<J, &R>::open(rt, alloc, opened, 96, 3) {
        Ok((writer, readers)) => go_on(rt, alloc, writer, readers, trial),
        Err((error, _opened)) => Err(error),
    }
}

/// Tries it on a new map.
pub(crate) fn try_trial<R: Abort + AllocGlobal + Threads + Wait + Sync>(rt: &R, trial: Trial) {
    let is_well = on_map::<Brand, R>(rt, rt.alloc(), NewMap::new(), trial).sure(rt);
    assert!(rt; is_well);
}
