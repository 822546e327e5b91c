//! A share that counts in another thread.
ghost use Rattle.std.specs.Prelude.{◌≡◌};

use crate::same::{Sure, same};
use heat_ledger::{Book, NewBook, Share};
use mds_types::{Dir, Kind};
use proof_names::Naming;
use std::alloc::AllocError;
use std::marker::Brand;
use std::process::Abort;
use std::thread;
use std::thread::Threads;

/// A share with this many more reads.
fn worked<J: Naming>(mut share: Share<J>, dir: Dir, times: u32) -> Share<J> {
    for _hit in 0..times {
        if share.hit(dir, Kind::Read).is_err() {
            return share;
        }
    }
    share
}

/// A share that was moved to another thread, hit there and given back.
fn hit_there<J: Naming + Send + Sync + 'static, R: Threads + Sync>(
    rt: &R,
    share: Share<J>,
    dir: Dir,
    times: u32,
) -> Result<Share<J>, AllocError> {
    let there = thread::spawn(rt, move || worked(share, dir, times))?;
    Ok(there.join(rt))
}

/// Five hits in another thread and two here, by two shares of a book, are seven deposited hits.
fn count_seven<J: Naming + Send + Sync + 'static, R: AllocGlobal + Threads + Abort + Sync>(
    rt: &R,
    opened: NewBook,
)
    requires name { opened ≡ J.ledger }
    requires limit { J.limit ≡ 4 }
{
    let dir = Dir::new(1);
    let Ok((mut book, mut shares)) = Book::<J>::open(rt.alloc(), opened, 4, 2) else {
        panic!(rt; "no book");
    };
    let (Some(second), Some(first)) = (shares.pop(), shares.pop()) else {
        panic!(rt; "not two shares");
    };
    let mut second = worked(second, dir, 2);
    let mut first = hit_there(rt, first, dir, 5).sure(rt);
    book.deposit(&mut first);
    book.deposit(&mut second);
    same(rt, &book.counted(dir, Kind::Read), &7);
}

#[test]
fn a_share_moves_through_a_thread(rt: HostRuntime) {
    count_seven::<Brand, HostRuntime>(&rt, NewBook::new(rt.alloc()).sure(&rt));
}
