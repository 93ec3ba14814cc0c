//! Which nodes an event changes.
ghost use Rattle.std.specs.Prelude.{◌≡◌, ◌∷◌, ◌&&◌, ◌==◌, [], length, not, filter, map};
ghost use Rattle.std.specs.Prelude.{if◌then◌else◌, IfOk, OnOk};
ghost use Rattle.std.specs.BTreeSet.{contains};
ghost use Rattle.std.specs.Cmp.Lexicographic.{pointwise};
ghost use Rattle.kube_labels.specs.Names.{name_cmp};
ghost use Rattle.kube_labels.specs.Pairs.{pair_eq};
ghost use Rattle.pool_config.specs.KeySets.{keys_with};
ghost use Rattle.versioned_map.specs.Objects.{is_newer};
ghost use Rattle.speaker_view.specs.Endpoints.{node_labels};
ghost use Rattle.speaker_view.specs.Nodes.{changed_members, deleted_nodes, drops_labels, nodes_by};
ghost use Rattle.speaker_view.specs.Nodes.{shown_nodes, unlisted_nodes};

use crate::view::View;
use kube_labels::{Text, TextList};
use kube_model::{Event, Key, Kind, ListGroup, Node, Object};
use mlb_base::{NoMemory, TryCopy};
use std::alloc::Global;
use std::collections::BTreeSet;
use versioned_map::Versioned;

/// The names of the nodes whose held labels or membership the event makes others, ascending.
pub(crate) fn changed_nodes(alloc: Global, view: &View, event: &Event) -> Result<TextList, NoMemory>
    ensures { IfOk result (λ names. names ≡ nodes_by view.now event.now) }
{
    match event {
        Event::Changed { version, object } => shown_nodes(alloc, view, *version, object),
        Event::Deleted { kind, key } => deleted_nodes(alloc, view, *kind, key),
        Event::ListEnd { group } => unlisted_nodes(alloc, view, *group),
        Event::Members { names } => changed_members(alloc, view.members(), names),
        Event::Expired | Event::Frame { .. } | Event::Ignored => Ok(TextList::new(alloc)),
    }
}

fn shown_nodes(
    alloc: Global,
    view: &View,
    version: u64,
    object: &Object,
) -> Result<TextList, NoMemory>
    ensures { IfOk result (λ names. names ≡ shown_nodes view.now version object.now) }
{
    match object {
        Object::Node(node) => one_if(alloc, is_relabelled(view, version, node), &node.name),
        Object::Service(_)
        | Object::Slice(_)
        | Object::Pool(_)
        | Object::L2(_)
        | Object::Bgp(_)
        | Object::Peer(_)
        | Object::Community(_)
        | Object::Namespace(_) => Ok(TextList::new(alloc)),
    }
}

/// Whether the node is newer than what is held of it, and has other labels.
fn is_relabelled(view: &View, version: u64, node: &Node) -> bool
    ensures { result ≡ (is_newer name_cmp view.now.held.nodes node.now.name version
        && not (pointwise pair_eq (node_labels view.now node.now.name) node.now.labels)) }
{
    version > view.nodes().version_of(&node.name) && *view.node_labels(&node.name) != node.labels
}

fn deleted_nodes(alloc: Global, view: &View, kind: Kind, key: &Key) -> Result<TextList, NoMemory>
    ensures { IfOk result (λ names. names ≡ deleted_nodes view.now kind key.now) }
{
    let _ascending = view.nodes().len();
    match kind {
        Kind::Node => one_if(alloc, has_labels(view, &key.name), &key.name),
        Kind::Service
        | Kind::Slice
        | Kind::Pool
        | Kind::L2
        | Kind::Bgp
        | Kind::Peer
        | Kind::Community
        | Kind::Namespace => Ok(TextList::new(alloc)),
    }
}

fn has_labels(view: &View, node: &Text) -> bool
    ensures { result ≡ not (length (node_labels view.now node.now) == 0) }
{
    !view.node_labels(node).is_empty()
}

/// The name alone, or none.
fn one_if(alloc: Global, is_there: bool, name: &Text) -> Result<TextList, NoMemory>
    ensures { IfOk result (λ names. names ≡ (if is_there then name.now ∷ [] else [])) }
{
    let mut names = TextList::new(alloc);
    if is_there {
        names.push(name.copy()?)?;
    }
    Ok(names)
}

/// Those that are dropped at the end of the list of configuration objects, where they have labels.
fn unlisted_nodes(alloc: Global, view: &View, group: ListGroup) -> Result<TextList, NoMemory>
    ensures { IfOk result (λ names. names ≡ unlisted_nodes view.now group) }
{
    match group {
        ListGroup::Config => dropped_nodes(alloc, view),
        ListGroup::Service | ListGroup::Endpoint => Ok(TextList::new(alloc)),
    }
}

fn dropped_nodes(alloc: Global, view: &View) -> Result<TextList, NoMemory>
    ensures { IfOk result (λ names. names
        ≡ map (λ e. e.0) (filter drops_labels view.now.held.nodes)) }
{
    let mut names = TextList::new(alloc);
    for (name, held) in view.nodes().iter() {
        if drops_labels(held) {
            names.push(name.copy()?)?;
        }
    }
    Ok(names)
}

/// Whether the node wasn't listed, and has labels.
fn drops_labels(held: &Versioned<Node>) -> bool
    ensures { result ≡ ((held.now.version == 0) && not (length held.now.object.labels == 0)) }
{
    held.version == 0 && !held.object.labels.is_empty()
}

/// The names that are among the one list and not among the other, each once, ascending.
fn changed_members(alloc: Global, before: &TextList, after: &TextList) -> Result<TextList, NoMemory>
    ensures { IfOk result (λ names. names ≡ changed_members before.now after.now) }
{
    let held = name_set(alloc, before.as_slice())?;
    let told = name_set(alloc, after.as_slice())?;
    let mut changed = BTreeSet::new(alloc);
    insert_missing(&mut changed, before.as_slice(), &told)?;
    insert_missing(&mut changed, after.as_slice(), &held)?;
    names_in(alloc, &changed)
}

/// The names, each once.
pub fn name_set(alloc: Global, names: &[Text]) -> Result<BTreeSet<Text>, NoMemory>
    ensures { IfOk result (λ set. set.keys ≡ keys_with name_cmp [] names.now) }
{
    let mut set = BTreeSet::new(alloc);
    for name in names {
        set.insert(name.copy()?)?;
    }
    Ok(set)
}

/// Adds those of the names that aren't among the others.
fn insert_missing(
    found: &mut BTreeSet<Text>,
    names: &[Text],
    others: &BTreeSet<Text>,
) -> Result<(), NoMemory>
    ensures { OnOk result (found.new.keys
        ≡ keys_with name_cmp found.old.keys
        (filter (λ name. not (contains name_cmp others.now name)) names.now)) }
{
    for name in names {
        if is_missing(others, name) {
            found.insert(name.copy()?)?;
        }
    }
    Ok(())
}

fn is_missing(names: &BTreeSet<Text>, name: &Text) -> bool
    ensures { result ≡ not (contains name_cmp names.now name.now) }
{
    !names.contains(name)
}

/// The names of the set, as a list.
fn names_in(alloc: Global, set: &BTreeSet<Text>) -> Result<TextList, NoMemory>
    ensures { IfOk result (λ names. names ≡ set.now.keys) }
{
    let mut names = TextList::new(alloc);
    for name in set {
        names.push(name.copy()?)?;
    }
    Ok(names)
}
