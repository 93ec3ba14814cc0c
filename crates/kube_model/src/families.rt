//! The families that a service wants addresses of.
ghost use Rattle.std.specs.Prelude.{◌≡◌, ◌≢◌, [], ◌∷◌, IfOk, IfSome, IfNone};
ghost use Rattle.kube_model.specs.Families.{AreFamilies};

use ip_ranges::Family;
use mlb_base::{NoMemory, Sequence, TryCopy};
use std::alloc::Global;
use std::marker::Model;

/// One or two distinct families, in the order in which they are wanted.
pub struct FamilyList {
    families: Sequence<Family>,
}

impl Drop for FamilyList {
    fn drop(self) {
        let FamilyList { families: _ } = self;
    }
}

impl Model for FamilyList {
    ghost use Rattle.std.specs.Prelude.{List};
    ghost use Rattle.ip_ranges.specs.declared.family.Family.{Family};
    ghost use Rattle.kube_model.specs.Families.{AreFamilies};

    ghost Value = { List Family };

    ghost view = { λ f. f.families };

    ghost invariant = { λ f. AreFamilies f.families };
}

impl FamilyList {
    /// The list, or nothing where it isn't one of one or two distinct families.
    pub fn new(families: Sequence<Family>) -> Option<FamilyList>
        ensures listed { IfSome result (λ made. made ≡ families) }
        ensures refused { IfNone result (¬ AreFamilies families) }
    {
        match families.as_slice() {
            [_] => Some(FamilyList { families }),
            [first, second] if first != second => Some(FamilyList { families }),
            _ => {
                drop(families);
                None
            }
        }
    }

    /// The family alone.
    pub fn one(alloc: Global, family: Family) -> Result<FamilyList, NoMemory>
        ensures { IfOk result (λ made. made ≡ family ∷ []) }
    {
        Ok(FamilyList {
            families: Sequence::from_slice(alloc, [family].as_slice())?,
        })
    }

    /// The two families, in this order.
    pub fn two(alloc: Global, first: Family, second: Family) -> Result<FamilyList, NoMemory>
        requires { first ≢ second }
        ensures { IfOk result (λ made. made ≡ first ∷ second ∷ []) }
    {
        Ok(FamilyList {
            families: Sequence::from_slice(alloc, [first, second].as_slice())?,
        })
    }

    pub fn as_slice(&self) -> &[Family]
        ensures listed { result.now ≡ self.now }
        ensures distinct { AreFamilies self.now }
    {
        self.families.as_slice()
    }
}

impl TryCopy for FamilyList {
    fn copy(&self) -> Result<FamilyList, NoMemory> {
        Ok(FamilyList {
            families: self.families.copy()?,
        })
    }
}
