//! What addresses contribute, made anew at some of them.
ghost use Rattle.std.specs.Prelude.{◌≡◌, OnOk};
ghost use Rattle.bgp_routes.specs.Contributors.{AreTouched, IsPutByAll, IsTouched, StandRight};
ghost use Rattle.bgp_routes.specs.KeptConfig.{kept_config_for};

use crate::announced::counts;
use crate::contributors::Contributors;
use crate::kept_config::{Advertisement, KeptConfig, is_set};
use ip_ranges::Address;
use kube_labels::Text;
use mlb_base::NoMemory;
use speaker_view::View;

/// Makes what these addresses contribute right for the view, where addresses of IPv6 count with
/// `both` alone.
pub(crate) fn touch_all(
    contributors: &mut Contributors,
    held: &KeptConfig,
    view: &View,
    node: &Text,
    both: bool,
    addresses: &[Address],
) -> Result<(), NoMemory>
    requires held { held.now ≡ kept_config_for view.now node.now }
    requires stand { StandRight both held.now.advertisements contributors.old }
    ensures { OnOk result (AreTouched view.now node.now both addresses.now contributors.old
        contributors.new) }
{
    for address in addresses {
        touch(contributors, held, view, node, both, address)?;
    }
    Ok(())
}

fn touch(
    contributors: &mut Contributors,
    held: &KeptConfig,
    view: &View,
    node: &Text,
    both: bool,
    address: &Address,
) -> Result<(), NoMemory>
    requires held { held.now ≡ kept_config_for view.now node.now }
    requires stand { StandRight both held.now.advertisements contributors.old }
    ensures { OnOk result (IsTouched view.now node.now both address.now contributors.old
        contributors.new) }
{
    if counts(both, address.family) {
        let choice = held.choice_at(view, node, address);
        put_by_all(contributors, held.advertisements(), choice, address)
    } else {
        Ok(())
    }
}

/// The address contributes to those of its own aggregates whose flag is set, and to no others.
fn put_by_all(
    contributors: &mut Contributors,
    advertisements: &[Advertisement],
    flags: &[bool],
    address: &Address,
) -> Result<(), NoMemory>
    ensures { OnOk result (IsPutByAll advertisements.now flags.now address.now contributors.old
        contributors.new) }
{
    for (place, advertisement) in advertisements.iter().enumerate() {
        let aggregate = advertisement.aggregate(place, address);
        contributors.put(aggregate, address, is_set(flags, place))?;
    }
    Ok(())
}
