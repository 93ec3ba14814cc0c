//! Keys that await a newer event.
ghost use Rattle.std.specs.Prelude.{◌≡◌, ◌++◌, ◌∷◌, [], false, OnOk, OnErr};
ghost use Rattle.kube_model.specs.Keys.{has_key, without};
ghost use Rattle.core_rules.specs.Take.{listed_keys};

use crate::keys::Services;
use crate::listing::Listed;
use key_queue::KeyList;
use kube_model::Key;
use mlb_base::{NoMemory, TryCopy};

/// Keys that await a newer event, in the order in which they began to. Any of them may be the next
/// that is shown.
pub type AwaitingKeys = KeyList<Key>;

/// Whether the key awaits a newer event.
pub(crate) fn awaits(awaiting: &AwaitingKeys, key: &Key) -> bool
    ensures { result ≡ has_key awaiting.now key.now }
{
    awaiting.contains(key)
}

/// The key, which awaits no newer event yet, awaits one. Where memory ran out they are unchanged.
pub fn await_newer(awaiting: &mut AwaitingKeys, key: &Key) -> Result<(), NoMemory>
    requires { has_key awaiting.old key.now ≡ false }
    ensures ok { OnOk result (awaiting.new ≡ awaiting.old ++ key.now ∷ []) }
    ensures err { OnErr result (awaiting.new ≡ awaiting.old) }
{
    awaiting.push(key.copy()?)
}

/// The key awaits no newer event.
pub fn stop_awaiting(awaiting: &mut AwaitingKeys, key: &Key)
    ensures { awaiting.new ≡ without key.now awaiting.old }
{
    awaiting.remove(key);
}

/// Those that aren't held, or weren't listed, are dropped.
pub fn keep_awaiting(awaiting: &mut AwaitingKeys, services: &Services)
    ensures { awaiting.new ≡ listed_keys services.now awaiting.old }
{
    awaiting.retain(&Listed { services });
}
