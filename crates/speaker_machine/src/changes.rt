//! What an event changes.
ghost use Rattle.std.specs.Prelude.{◌≡◌, ◌++◌, ℕ, None, Some, OnOk, IfOk, IsErrOf};
ghost use Rattle.std.specs.Option.{option_map};
ghost use Rattle.kube_model.specs.declared.object.Kind.{Kind};
ghost use Rattle.speaker_view.specs.View.{limit_by};
ghost use Rattle.speaker_view.specs.ViewValue.{ViewValue};
ghost use Rattle.kube_labels.specs.Names.{has_text};
ghost use Rattle.l2_elect.specs.Kept.{AreKeptFor, AreKnown, WereKept};
ghost use Rattle.announced_set.specs.Announced.{announced_by};
ghost use Rattle.speaker_machine.specs.Transcript.{entries_for};
ghost use Rattle.speaker_machine.specs.Kept.{AreRoutesKnown, AreRoutesOf, WereRoutes, of_node};
ghost use Rattle.speaker_machine.specs.Stream.{changes_of, state_after};
ghost use Rattle.speaker_machine.specs.Updates.{updates_by};

use crate::local_node::LocalNode;
use crate::peers::{renew_routes, routes_by};
use crate::speaker::Speaker;
use crate::transcript::{TranscriptEntry, entries_for};
use announced_set::renew_announcers;
use bgp_routes::KeptRoutes;
use kube_labels::Text;
use kube_model::Event;
use l2_elect::Announcers;
use mlb_base::{NoMemory, Sequence};
use object_cache::{ApplyFault, TakeNote};
use speaker_view::{View, ViewChange};
use std::alloc::Global;

/// What stands by a view: who announces each address, and the routes of the peers.
#[derive(Drop)]
struct Standing {
    announcers: Announcers,
    routes: KeptRoutes,
}

impl Speaker {
    /// Applies the event. What is to be told of what it changes.
    pub(crate) fn changes_by(
        &mut self,
        alloc: Global,
        event: Event,
    ) -> Result<Sequence<TranscriptEntry>, ApplyFault>
        ensures ok { IfOk result (λ entries. entries ≡ changes_of self.old event) }
        ensures state { OnOk result (self.new ≡ state_after self.old event) }
        ensures within { OnOk result (limit_by self.old.view event ≡ None) }
        ensures limit { (kind : Kind) (count : ℕ)
            → IsErrOf result (ApplyFault.Limit kind count)
            → limit_by self.old.view event ≡ Some (kind, count) }
    {
        // While the view changes, neither announcers nor routes are known to be those of it.
        let announcers = self.announcers.take();
        let routes = self.routes.take();
        let mut standing = match standing_by(alloc, announcers, routes, &self.view, &self.local) {
            Ok(standing) => standing,
            Err(NoMemory) => {
                drop(event);
                return Err(ApplyFault::NoMemory);
            }
        };
        let (note, change) = match self.view.apply_noting(event) {
            Ok(noted) => noted,
            Err(fault) => {
                drop(standing);
                return Err(fault);
            }
        };
        let Ok(entries) = told_since(alloc, &self.view, &self.local, note, change, &mut standing)
        else {
            drop(standing);
            return Err(ApplyFault::NoMemory);
        };
        let Standing { announcers, routes } = standing;
        drop(self.announcers.replace(announcers));
        drop(self.routes.replace(routes));
        Ok(entries)
    }
}

/// What stands by the view, where these are known to be its announcers and routes.
fn standing_by(
    alloc: Global,
    announcers: Option<Announcers>,
    routes: Option<KeptRoutes>,
    view: &View,
    local: &LocalNode,
) -> Result<Standing, NoMemory>
    requires announcers { AreKnown announcers view.now }
    requires routes { AreRoutesKnown routes view.now local.now }
    ensures announcers { IfOk result (λ s. AreKeptFor s.announcers view.now) }
    ensures routes { IfOk result (λ s. AreRoutesOf s.routes view.now local.now) }
{
    let announcers = match announcers_by(alloc, announcers, view) {
        Ok(announcers) => announcers,
        Err(refused) => {
            drop(routes);
            return Err(refused);
        }
    };
    match known_routes(alloc, routes, view, local) {
        Ok(routes) => Ok(Standing { announcers, routes }),
        Err(refused) => {
            drop(announcers);
            Err(refused)
        }
    }
}

/// The announcers by the view, which are these where they are known.
fn announcers_by(
    alloc: Global,
    known: Option<Announcers>,
    view: &View,
) -> Result<Announcers, NoMemory>
    requires { AreKnown known view.now }
    ensures { IfOk result (λ announcers. AreKeptFor announcers view.now) }
{
    match known {
        Some(announcers) => Ok(announcers),
        None => elected(alloc, view),
    }
}

/// The routes by the view, which are these where they are known.
fn known_routes(
    alloc: Global,
    known: Option<KeptRoutes>,
    view: &View,
    local: &LocalNode,
) -> Result<KeptRoutes, NoMemory>
    requires { AreRoutesKnown known view.now local.now }
    ensures { IfOk result (λ routes. AreRoutesOf routes view.now local.now) }
{
    match known {
        Some(routes) => Ok(routes),
        None => routes_by(alloc, view, local),
    }
}

/// The announcers by the view.
fn elected(alloc: Global, view: &View) -> Result<Announcers, NoMemory>
    ensures { IfOk result (λ announcers. AreKeptFor announcers view.now) }
{
    let mut announcers = Announcers::new(alloc);
    match announcers.rebuild(view) {
        Ok(()) => Ok(announcers),
        Err(refused) => {
            drop(announcers);
            Err(refused)
        }
    }
}

/// What is told where the view is this one now, and what stood before it becomes what stands by it.
fn told_since(
    alloc: Global,
    view: &View,
    local: &LocalNode,
    note: TakeNote,
    change: ViewChange,
    standing: &mut Standing,
) -> Result<Sequence<TranscriptEntry>, NoMemory>
    requires announcers { WereKept change standing.old.announcers view.now }
    requires routes { (before : ViewValue)
        × WereRoutes (of_node local.now.node change) standing.old.routes before view.now local.now }
    ensures entries { IfOk result (λ entries. (before : ViewValue)
        → AreKeptFor standing.old.announcers before
        → WereRoutes (of_node local.now.node change) standing.old.routes before view.now local.now
        → entries
        ≡ entries_for view.now local.now note (announced_by before local.now.node)
        (announced_by view.now local.now.node)
        ++ updates_by before view.now local.now.node local.now.next_hops) }
    ensures announcers { OnOk result (AreKeptFor standing.new.announcers view.now) }
    ensures routes { OnOk result (AreRoutesOf standing.new.routes view.now local.now) }
{
    let announcers = &mut standing.announcers;
    let mut entries = changed_entries(alloc, view, local, note, &change, announcers)?;
    let change = of_node(&local.node, change);
    renew_routes(
        alloc,
        &mut entries,
        view,
        local,
        &change,
        &mut standing.routes,
    )?;
    Ok(entries)
}

/// The change, for the routes of the node: all of them may be others where it names the node.
fn of_node(node: &Text, mut change: ViewChange) -> ViewChange
    ensures { result ≡ of_node node.now change }
{
    change.all = change.all || has_text(change.nodes.as_slice(), node);
    change
}

fn has_text(texts: &[Text], text: &Text) -> bool
    ensures { result ≡ has_text texts.now text.now }
{
    texts.iter().any(|held| held == text)
}

/// The note, and what is told of the addresses that are announced no more, or from now on.
fn changed_entries(
    alloc: Global,
    view: &View,
    local: &LocalNode,
    note: TakeNote,
    change: &ViewChange,
    announcers: &mut Announcers,
) -> Result<Sequence<TranscriptEntry>, NoMemory>
    requires { WereKept change.now announcers.old view.now }
    ensures entries { IfOk result (λ entries. (was : ViewValue) → AreKeptFor announcers.old was
        → entries ≡ entries_for view.now local.now note (announced_by was local.now.node)
        (announced_by view.now local.now.node)) }
    ensures announcers { OnOk result (AreKeptFor announcers.new view.now) }
{
    let changes = match renew_announcers(alloc, announcers, view, &local.node, change) {
        Ok(changes) => changes,
        Err(refused) => {
            drop(note);
            return Err(refused);
        }
    };
    let entries = entries_for(alloc, view, announcers, local, note, &changes);
    drop(changes);
    entries
}
