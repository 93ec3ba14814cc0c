//! Objects by a test or by their place, and lists with an item that passes a test.
ghost use Rattle.std.specs.Prelude.{◌≡◌};
ghost use Rattle.std.specs.Fn.{FnReturnsAt};
ghost use Rattle.std.specs.Option.{option_copied};
ghost use Rattle.pool_config.specs.Objects.{named};
ghost use Rattle.pool_config.specs.Search.{FindsFirst, TellsAny, name_at};

use kube_labels::Text;
use versioned_map::VersionedMap;

/// The name of the first object that passes the test.
pub(crate) fn first_name<T, F: Fn(&T) -> bool>(
    objects: &VersionedMap<Text, T>,
    test: F,
) -> Option<&Text>
    requires { F.IsAlwaysCallable test }
    ensures { FindsFirst (FnReturnsAt F.Fn test) (named objects.now) (option_copied result) }
{
    for (name, held) in objects.iter() {
        if test(&held.object) {
            return Some(name);
        }
    }
    None
}

/// The name of the object at the place, counted from 0.
pub(crate) fn name_at<T>(objects: &VersionedMap<Text, T>, place: usize) -> Option<&Text>
    ensures { option_copied result ≡ name_at place (named objects.now) }
{
    let mut left = place;
    for (name, _) in objects.iter() {
        if left == 0 {
            return Some(name);
        }
        left -= 1;
    }
    None
}

/// Whether any of the items passes the test.
pub(crate) fn any_passes<T, F: Fn(&T) -> bool>(items: &[T], test: F) -> bool
    requires { F.IsAlwaysCallable test }
    ensures { TellsAny (FnReturnsAt F.Fn test) items.now result }
{
    for item in items {
        if test(item) {
            return true;
        }
    }
    false
}
