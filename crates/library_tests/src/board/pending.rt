//! What is pending, and what is published.
ghost use Rattle.std.specs.Prelude.{◌≡◌};

use crate::board::{AskTotal, Sum};
use shown_board::{Naming, Opened, Responder, board};
use std::alloc::Global;
use std::marker::Brand;
use std::process::Abort;
use std::sync::Wait;
use std::test::Fail;

/// The total, and of how many numbers it is.
pub fn ask<J: Naming>(responder: &mut Responder<Sum, u64, J>) -> Option<(u64, u64)> {
    let reply = responder.respond(&AskTotal)?;
    Some((reply.answer, reply.seen))
}

fn is_told<J: Naming, R: Wait + Abort>(
    rt: &R,
    alloc: Global,
    opened: Opened<u64>,
) -> Result<(), Fail>
    requires { opened.seen.book ≡ J.book }
{
    let nothing = Sum { total: 0 };
    let Ok((mut writer, mut responder)) = board::<Sum, u64, J, R>(
        rt, alloc, opened, nothing, nothing,
    ) else {
        return Err("no memory".into());
    };
    let appended = writer.append(3).is_ok() && writer.append(4).is_ok();
    let before = ask(&mut responder);
    let published = writer.publish(rt).is_ok();
    responder.learn(writer.tell());
    let after = ask(&mut responder);
    writer.end(rt);
    let ended = ask(&mut responder);
    assert!(rt; appended && published);
    assert_eq!(rt; before, Some((0, 0)));
    assert_eq!(rt; after, Some((7, 2)));
    assert_eq!(rt; ended, None);
    Ok(())
}

/// What is pending isn't seen; what is published is, once it was told of. Once the writer has ended
/// nothing is.
#[test]
fn what_was_told_of_is_seen(rt: HostRuntime) -> Result<(), Fail> {
    is_told::<Brand, _>(&rt, rt.alloc(), Opened::new())
}
