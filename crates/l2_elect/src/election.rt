//! The election.
ghost use Rattle.std.specs.Prelude.{◌≡◌, ◌↔◌, ℕ, List, IsTrue, IfNone, Some};
ghost use Rattle.std.specs.Option.{option_copied, option_map, ForSome};
ghost use Rattle.ip_ranges.specs.AddressText.{canonical_text};
ghost use Rattle.std.specs.Prelude.{filter, not, ◌&&◌, ◌||◌};
ghost use Rattle.std.specs.BTreeSet.{contains};
ghost use Rattle.kube_labels.specs.Names.{has_text, name_cmp};
ghost use Rattle.l2_elect.specs.Eligible.{IsEligible, is_eligible_by};
ghost use Rattle.l2_elect.specs.Election.{announcer_of, announces_of, best_from, digest_of};
ghost use Rattle.l2_elect.specs.Election.{elected, is_better, is_named, IsAnnouncer};
ghost use Rattle.l2_elect.specs.Kept.{AreMembersAmong, WasKeptAt};

use crate::eligible::is_eligible;
use crate::listening::has_text;
use crate::winner::Winner;
use ip_ranges::{Address, write_address};
use kube_labels::Text;
use pool_config::{CompiledL2, CompiledPool};
use sha2::{Digest, Sha256};
use speaker_view::View;
use std::cmp::Ordering;
use std::collections::BTreeSet;

/// A node and its digest.
#[derive(Clone, Copy)]
pub(crate) struct Candidate<'a> {
    pub(crate) node: &'a Text,
    pub(crate) digest: [u8; 32],
}

/// The eligible node with the least SHA-256 of its name, `#` and the printed address, compared as
/// bytes; ties go by name. `None` exactly where no node is eligible. It takes no memory.
pub fn announcer<'a>(view: &'a View, address: &Address) -> Option<&'a Text>
    ensures value { option_copied result ≡ announcer_of view.now address.now }
    ensures meaning { (node : List ℕ)
        → (option_copied result ≡ Some node) ↔ IsAnnouncer view.now address.now node }
    ensures none { IfNone result ((node : List ℕ) → ¬ IsEligible view.now address.now node) }
{
    first(view, address)
}

/// The announcer of the address.
pub(crate) fn first<'a>(view: &'a View, address: &Address) -> Option<&'a Text>
    ensures { option_copied result ≡ announcer_of view.now address.now }
{
    match best(view, address) {
        Some(candidate) => Some(candidate.node),
        None => None,
    }
}

/// The announcer of the address, by its text. One that no service records, or behind which there is
/// no usable endpoint, costs a look-up.
pub(crate) fn best<'a>(view: &'a View, address: &Address) -> Option<Candidate<'a>>
    ensures node { option_map (λ c. c.node.now) result ≡ announcer_of view.now address.now }
    ensures digest { ForSome result
        (λ c. c.digest ≡ digest_of (canonical_text address.now) c.node.now) }
{
    if !view.is_served(address) {
        return None;
    }
    let mut buffer = [0; 39];
    let length = write_address(address, &mut buffer);
    elected(view, address, &buffer[..length])
}

/// The best of the eligible members, where the address has this text. Its pool is looked for once.
#[tactic(auto, using(crate::proofs::ByPool::no_config, crate::proofs::ByPool::no_pool, crate::proofs::ByPool::by_pool))]
fn elected<'a>(view: &'a View, address: &Address, text: &[u8]) -> Option<Candidate<'a>>
    ensures node { option_map (λ c. c.node.now) result ≡ elected view.now address.now text.now }
    ensures digest { ForSome result (λ c. c.digest ≡ digest_of text.now c.node.now) }
{
    let Some(config) = view.config() else {
        return None;
    };
    let Some(pool) = config.pool_with(address) else {
        return None;
    };
    let members = view.members().as_slice();
    best_among(
        view,
        address,
        text,
        pool,
        config.l2.as_slice(),
        None,
        members,
    )
}

/// The best of the one that is known, if any, and of those of the nodes that are eligible for the
/// address, which is of the pool, by the advertisements. Whether one is eligible is looked at only
/// where it would be the best.
fn best_among<'a>(
    view: &View,
    address: &Address,
    text: &[u8],
    pool: &CompiledPool,
    l2: &[CompiledL2],
    known: Option<Candidate<'a>>,
    nodes: &'a [Text],
) -> Option<Candidate<'a>>
    requires { ForSome known (λ c. c.digest ≡ digest_of text.now c.node.now) }
    ensures node { option_map (λ c. c.node.now) result
        ≡ best_from text.now (option_map (λ c. c.node.now) known.entry)
        (filter (is_eligible_by view.now address.now pool.now l2.now) nodes.now) }
    ensures digest { ForSome result (λ c. c.digest ≡ digest_of text.now c.node.now) }
{
    let mut best = known;
    for node in nodes {
        let candidate = Candidate {
            node,
            digest: digest(node, text),
        };
        if is_better(best, candidate) && is_eligible(view, node, address, pool, l2) {
            best = Some(candidate);
        }
    }
    best
}

/// The announcer of the address, where the one that is kept, if any, was it before, and all stays
/// since but at the nodes of these names, of which these are members. Each of them costs a hash,
/// unless the one that is kept isn't eligible any more.
#[tactic(auto, using(crate::proofs::ByPool::no_config, crate::proofs::ByPool::no_pool))]
pub(crate) fn best_since<'a>(
    view: &'a View,
    address: &Address,
    kept: Option<&'a Winner>,
    names: &BTreeSet<Text>,
    members: &'a [Text],
) -> Option<Candidate<'a>>
    requires kept { WasKeptAt names.now.keys address.now (option_copied kept) view.now }
    requires members { AreMembersAmong names.now.keys view.now members.now }
    ensures node { option_map (λ c. c.node.now) result ≡ announcer_of view.now address.now }
    ensures digest { ForSome result
        (λ c. c.digest ≡ digest_of (canonical_text address.now) c.node.now) }
{
    let Some(config) = view.config() else {
        return None;
    };
    let Some(pool) = config.pool_with(address) else {
        return None;
    };
    let l2 = config.l2.as_slice();
    let mut buffer = [0; 39];
    let length = write_address(address, &mut buffer);
    let text = &buffer[..length];
    let Some(kept) = kept else {
        return best_among(view, address, text, pool, l2, None, members);
    };
    if stands(view, kept.node(), address, pool, l2, names) {
        let known = Some(kept.candidate(address, text));
        return best_among(view, address, text, pool, l2, known, members);
    }
    best_among(
        view,
        address,
        text,
        pool,
        l2,
        None,
        view.members().as_slice(),
    )
}

/// Whether the node is none of these, or is eligible.
fn stands(
    view: &View,
    node: &Text,
    address: &Address,
    pool: &CompiledPool,
    l2: &[CompiledL2],
    names: &BTreeSet<Text>,
) -> bool
    ensures { result ≡ (not (contains name_cmp names.now node.now)
        || (has_text view.now.members node.now
        && is_eligible_by view.now address.now pool.now l2.now node.now)) }
{
    !names.contains(node)
        || (has_text(view.members().as_slice(), node.as_str())
            && is_eligible(view, node, address, pool, l2))
}

/// Whether the candidate comes before the one that is best so far, if any: by digests, ties by
/// name.
fn is_better(best: Option<Candidate<'_>>, candidate: Candidate<'_>) -> bool
    ensures { (text : List ℕ) → ForSome best.entry (λ c. c.digest ≡ digest_of text c.node.now)
        → candidate.entry.digest ≡ digest_of text candidate.entry.node.now
        → result ≡ is_better text (option_map (λ c. c.node.now) best.entry)
        candidate.entry.node.now }
{
    match best {
        None => true,
        Some(best) => {
            let order = candidate
                .digest
                .cmp(&best.digest)
                .then(candidate.node.cmp(best.node));
            order == Ordering::Less
        }
    }
}

#[tactic(auto, unfolding(crate::specs::Election::digest_of))]
pub(crate) fn digest(node: &Text, text: &[u8]) -> [u8; 32]
    ensures { result ≡ digest_of text.now node.now }
{
    let mut hasher = Sha256::new();
    hasher.update(node.as_str());
    hasher.update("#");
    hasher.update(text);
    hasher.finalize()
}

/// Whether the node announces the address. It takes no memory.
pub fn announces(view: &View, node: &str, address: &Address) -> bool
    ensures value { result ≡ announces_of view.now node.now address.now }
    ensures meaning { IsTrue result ↔ IsAnnouncer view.now address.now node.now }
{
    is_named(node, first(view, address))
}

fn is_named(node: &str, announcer: Option<&Text>) -> bool
    ensures { result ≡ is_named node.now (option_copied announcer.entry) }
{
    match announcer {
        Some(announcer) => announcer.as_str() == node,
        None => false,
    }
}
