//! A responder on a thread beside the writer's.
ghost use Rattle.std.specs.Prelude.{◌≡◌, [], IsTrue};

use crate::board::Sum;
use crate::board::pending::ask;
use shown_board::{BoardWriter, Naming, Opened, Post, Responder, board};
use std::alloc::Global;
use std::marker::Brand;
use std::process::Abort;
use std::sync::Wait;
use std::sync::atomic::{AtomicU64, Ordering};
use std::test::Fail;
use std::thread::{Threads, join};

const LOOKS: u64 = 1_000_000_000;

/// Asks until the sum is so, at most so many times, and tells that by the flag.
fn look<J: Naming>(mut responder: Responder<Sum, u64, J>, want: u64, flag: &AtomicU64) -> bool {
    for _ in 0..LOOKS {
        if matches!(ask(&mut responder), Some((total, _)) if total == want) {
            flag.store(1, Ordering::SeqCst);
            return true;
        }
    }
    false
}

/// Whether the flag is set within so many looks.
fn is_set(flag: &AtomicU64) -> bool {
    for _ in 0..LOOKS {
        if flag.load(Ordering::SeqCst) == 1 {
            return true;
        }
    }
    false
}

/// Appends the number, and publishes it.
fn show<P: Post<u64, J>, J: Naming, R: Wait>(
    rt: &R,
    writer: &mut BoardWriter<P, u64, J>,
    number: u64,
) -> bool
    requires { writer.old.pending ≡ [] }
    ensures { IsTrue result → writer.new.pending ≡ [] }
{
    writer.tell().len() < 100 && writer.append(number).is_ok() && writer.publish(rt).is_ok()
}

/// Publishes 3, waits for the flag, and publishes 4.
fn show_both<P: Post<u64, J>, J: Naming, R: Wait>(
    rt: &R,
    writer: &mut BoardWriter<P, u64, J>,
    flag: &AtomicU64,
) -> bool
    requires { writer.old.pending ≡ [] }
{
    show(rt, writer, 3) && is_set(flag) && show(rt, writer, 4)
}

fn is_met<J: Naming + Send + Sync, R: Threads + Wait + Abort + Sync>(
    rt: &R,
    alloc: Global,
    opened: Opened<u64>,
) -> Result<(), Fail>
    requires { opened.seen.book ≡ J.book }
{
    let nothing = Sum { total: 0 };
    let Ok((mut writer, responder)) = board::<Sum, u64, J, R>(rt, alloc, opened, nothing, nothing)
    else {
        return Err("no memory".into());
    };
    let flag = AtomicU64::new(0);
    let (looked, showed) = join(
        rt,
        || -> bool { look(responder, 3, &flag) },
        || -> bool
            requires { writer.pending ≡ [] }
        { show_both(rt, &mut writer, &flag) },
    );
    writer.end(rt);
    assert!(rt; looked && showed);
    Ok(())
}

/// The second number is published only once the first was seen, and the responder asks until it is:
/// neither thread can do without the other.
#[test]
fn the_responder_meets_the_writer(rt: HostRuntime) -> Result<(), Fail> {
    is_met::<Brand, _>(&rt, rt.alloc(), Opened::new())
}
