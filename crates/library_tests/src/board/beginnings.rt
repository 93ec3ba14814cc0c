//! Beginnings of a list that grows.
ghost use Rattle.std.specs.Prelude.{◌≡◌};

use shown_board::{Naming, Opened};
use std::marker::Brand;
use std::process::Abort;
use std::test::Fail;

fn is_grown<J: Naming, R: Abort>(rt: &R, opened: Opened<u64>) -> Result<(), Fail>
    requires { opened.seen.book ≡ J.book }
{
    let mut all = opened.named::<J>();
    let none = all.whole();
    let added = all.add(&7) && all.add(&8);
    assert!(rt; added);
    let both = all.whole();
    assert_eq!(rt; both.len(), 2);
    assert!(rt; none.begins(&both) && both.begins(&both.again()) && !both.begins(&none));
    Ok(())
}

#[test]
fn the_shorter_begins_the_longer(rt: HostRuntime) -> Result<(), Fail> {
    is_grown::<Brand, _>(&rt, Opened::new())
}
