ghost use Rattle.std.specs.Prelude.{◌≡◌, ◌≢◌, ◌==◌, ℕ, List, [], OnOk, OnErr, option_map, length};
ghost use Rattle.std.specs.List.{list_all};
ghost use Rattle.kube_labels.specs.Pairs.{IsAscending, value_of, with_pair, pairs_of, has_pair};

use crate::Text;
use mlb_base::{NoMemory, TryCopy};
use std::alloc::Global;
use std::collections::BTreeMap;
use std::collections::btree_map::Iter;
use std::marker::Model;

/// Names with values, as in `metadata.labels` (Kubernetes, "Labels and Selectors"). Contracts see
/// the pairs, whose names ascend by their bytes, so that no two are the same.
#[derive(Debug)]
pub struct Labels {
    values: BTreeMap<String, Text>,
}

impl Drop for Labels {
    fn drop(self) {
        let Labels { values: _ } = self;
    }
}

impl Model for Labels {
    ghost use Rattle.std.specs.Prelude.{ℕ, List};
    ghost use Rattle.kube_labels.specs.Pairs.{pairs_of, IsAscending};

    ghost Value = { List (List ℕ × List ℕ) };

    ghost view = { λ l. pairs_of l.values.entries };

    ghost invariant = { λ l. IsAscending (pairs_of l.values.entries) };
}

impl Labels {
    /// No pairs, which takes no memory.
    pub fn new(alloc: Global) -> Labels
        ensures { result ≡ [] }
    {
        Labels {
            values: BTreeMap::new(alloc),
        }
    }

    /// How many pairs there are.
    pub fn len(&self) -> usize
        ensures count { result ≡ length self.now }
        ensures ordered { IsAscending self.now }
    {
        self.values.len()
    }

    pub fn is_empty(&self) -> bool
        ensures { result ≡ (length self.now == 0) }
    {
        self.values.is_empty()
    }

    /// Puts the value in place of the key's earlier one. Where there is no memory all stay.
    pub fn set(&mut self, key: Text, value: Text) -> Result<(), NoMemory>
        ensures ok { OnOk result (self.new ≡ with_pair key value self.old) }
        ensures err { OnErr result (self.new ≡ self.old) }
        ensures ordered { IsAscending self.new }

        // The key has the value, and every other key the one that it had.
        ensures at_key { OnOk result (value_of key self.new ≡ Some value) }
        ensures others { OnOk result ((other : List ℕ) → other ≢ key
            → value_of other self.new ≡ value_of other self.old) }
    {
        self.values.insert(key.into_string(), value)?;
        Ok(())
    }

    /// The key's value, if the key is there.
    pub fn get(&self, key: &str) -> Option<&Text>
        ensures value { option_map (λ v. v.now) result ≡ value_of key.now self.now }
        ensures ordered { IsAscending self.now }
    {
        self.values.get(key)
    }

    /// The pairs, by ascending names.
    pub fn iter(&self) -> Iter<'_, String, Text>
        ensures pairs { pairs_of result ≡ self.now }
        ensures ordered { IsAscending self.now }
    {
        self.values.iter()
    }

    /// Whether each of the pairs wanted is there.
    pub(crate) fn has_all(&self, wanted: &Labels) -> bool
        ensures value { result ≡ list_all (has_pair self.now) wanted.now }
        ensures ordered { IsAscending self.now }
    {
        let held = &self.values;
        wanted.values.iter().all(|(key, value)| held
            .get(key.as_str())
            .is_some_and(|found| found == value))
    }
}

impl TryCopy for Labels {
    fn copy(&self) -> Result<Labels, NoMemory> {
        Ok(Labels {
            values: self.values.clone()?,
        })
    }
}

impl PartialEq for Labels {
    ghost use Rattle.std.specs.Cmp.Lexicographic.{pointwise};
    ghost use Rattle.std.specs.Cmp.{partial_equiv_from_equiv};
    ghost use Rattle.kube_labels.specs.Pairs.{pair_eq, pairs_equiv};

    ghost eq = { pointwise pair_eq };

    ghost laws = { partial_equiv_from_equiv pairs_equiv };

    fn eq(&self, other: &Labels) -> bool {
        self.values == other.values
    }
}

impl Eq for Labels {
    ghost use Rattle.kube_labels.specs.Pairs.{pairs_equiv};

    ghost laws = { pairs_equiv };
}
