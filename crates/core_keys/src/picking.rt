//! Keys that pass a test.
ghost use Rattle.std.specs.Prelude.{◌≡◌, ◌++◌, ◌∷◌, [], if◌then◌else◌, filter, IfOk, OnOk};
ghost use Rattle.std.specs.BTreeSet.{IsOrdered};
ghost use Rattle.core_keys.specs.Picked.{keys_where};

use key_queue::KeyTest;
use kube_model::Key;
use mlb_base::{NoMemory, TryCopy};
use std::alloc::Global;
use std::collections::BTreeSet;
use versioned_map::{Versioned, VersionedMap};

/// A test of objects by key.
pub(crate) trait ObjectTest<T> {
    ghost use Rattle.std.specs.Prelude.{◌≡◌, Bool};
    ghost use Rattle.kube_model.specs.declared.key.Key.{Key as KeyValue};
    ghost use Rattle.versioned_map.specs.declared.map.Versioned.{Versioned as VersionedValue};

    ghost passes: { Self → KeyValue → VersionedValue T → Bool };

    fn passes(&self, key: &Key, held: &Versioned<T>) -> bool
        ensures { result ≡ passes self.now key.now held.now };
}

/// The keys of the objects that pass, to the end of these.
pub(crate) fn push_passing<T, P: ObjectTest<T>>(
    keys: &mut Vec<Key>,
    test: &P,
    objects: &VersionedMap<Key, T>,
) -> Result<(), NoMemory>
    ensures { OnOk result (keys.new.items
        ≡ keys.old.items ++ keys_where (P.passes test.now) objects.now) }
{
    for (key, held) in objects.iter() {
        if test.passes(key, held) {
            push_copy(keys, key)?;
        }
    }
    Ok(())
}

/// The keys that pass, ascending, where they are asked for.
pub(crate) fn passing_where<K: Ord + TryCopy, P: KeyTest<K>>(
    alloc: Global,
    are_asked: bool,
    test: &P,
    keys: &BTreeSet<K>,
) -> Result<Vec<K>, NoMemory>
    ensures keys { IfOk result (λ found. found.items
        ≡ (if are_asked then filter (P.passes test.now) keys.now.keys else [])) }
    ensures ordered { IsOrdered K.cmp keys.now }
{
    let mut found = Vec::new(alloc);
    push_where(&mut found, are_asked, test, keys)?;
    Ok(found)
}

/// The keys that pass, ascending, to the end of the found ones, where they are asked for.
fn push_where<K: Ord + TryCopy, P: KeyTest<K>>(
    found: &mut Vec<K>,
    are_asked: bool,
    test: &P,
    keys: &BTreeSet<K>,
) -> Result<(), NoMemory>
    ensures keys { OnOk result (found.new.items
        ≡ found.old.items ++ (if are_asked then filter (P.passes test.now) keys.now.keys else [])) }
    ensures ordered { IsOrdered K.cmp keys.now }
{
    let each = keys.iter();
    if !are_asked {
        return Ok(());
    }
    for key in each {
        if test.passes(key) {
            push_copy(found, key)?;
        }
    }
    Ok(())
}

/// A copy of the key to the end of the keys.
pub(crate) fn push_copy<K: TryCopy>(keys: &mut Vec<K>, key: &K) -> Result<(), NoMemory>
    ensures { OnOk result (keys.new.items ≡ keys.old.items ++ key.now ∷ []) }
{
    keys.push(key.copy()?)?;
    Ok(())
}
