//! What a world is made of, and which steps there are in it.
ghost use Rattle.std.specs.Prelude.{◌≡◌, ◌<◌, ◌-◌, ◌^◌, false, IsTrue};
ghost use Rattle.kube_model.specs.Records.{is_assigned};
ghost use Rattle.status_store.specs.Changes.{record_of};
ghost use Rattle.ctl_world.specs.Steps.{is_enabled, is_used_up, may_edit, has_event, has_lane};
ghost use Rattle.ctl_world.specs.Steps.{has_turn, takes_version};

use ctl_core::Core;
use kube_labels::Text;
use kube_model::{Event, ListGroup, Object};
use status_store::{Edit, Store};
use std::alloc::Global;
use std::collections::VecDeque;
use std::marker::Model;
use world_rules::Step;

/// A store, what of it is still to be shown to the controller, and the controller's core while it
/// is up.
#[derive(Drop)]
pub(crate) struct WorldState {
    pub(crate) alloc: Global,
    pub(crate) class: Option<Text>,
    pub(crate) store: Store,
    pub(crate) config_lane: VecDeque<Event>,
    pub(crate) service_lane: VecDeque<Event>,
    pub(crate) core: Option<Core>,
}

impl Model for WorldState {
    ghost use Rattle.world_rules.specs.World.{WorldValue};

    ghost Value = { WorldValue };

    ghost view = { λ w. record {
      class = w.class;
      store = w.store;
      config_lane = w.config_lane.items;
      service_lane = w.service_lane.items;
      core = w.core;
    } };
}

impl WorldState {
    /// Whether there is such a step.
    pub(crate) fn is_enabled(&self, step: &Step) -> bool
        ensures { result ≡ is_enabled step.now self.now }
    {
        match step {
            Step::Edit { edit } => self.may_edit(edit),
            Step::Take { group } => self.core.is_some() && self.has_event(*group),
            Step::Turn { .. } => self.has_turn(),
            Step::Crash { .. } => self.core.is_some(),
            Step::Restart { .. } => self.core.is_none(),
            Step::Expire { group, .. } => self.core.is_some() && has_lane(*group),
        }
    }

    fn may_edit(&self, edit: &Edit) -> bool
        ensures { result ≡ may_edit edit.now self.now.store }
    {
        match edit {
            Edit::Set { .. } => true,
            Edit::Reset { object } => !is_assigned(object),
            Edit::Delete { kind, key } => self.store.get(*kind, key).is_some(),
        }
    }

    fn has_event(&self, group: ListGroup) -> bool
        ensures { result ≡ has_event group self.now }
    {
        match group {
            ListGroup::Config => !self.config_lane.is_empty(),
            ListGroup::Service => !self.service_lane.is_empty(),
            ListGroup::Endpoint => false,
        }
    }

    fn has_turn(&self) -> bool
        ensures { result ≡ has_turn self.now.core }
    {
        match &self.core {
            None => false,
            Some(core) => core.has_turn(),
        }
    }

    /// Whether the step would take a version, and every version has been given.
    pub(crate) fn is_used_up(&self, step: &Step) -> bool
        ensures value { result ≡ is_used_up step.now self.now }
        ensures room { result ≡ false → IsTrue (takes_version step.now)
            → self.now.store.counter < 2 ^ 64 - 1 }
    {
        takes_version(step) && self.store.counter() == u64::MAX
    }
}

/// Whether it is a service whose record has an address.
fn is_assigned(object: &Object) -> bool
    ensures { result ≡ is_assigned (record_of object.now) }
{
    match object {
        Object::Service(service) => service.holding.is_assigned(),
        _ => false,
    }
}

fn has_lane(group: ListGroup) -> bool
    ensures { result ≡ has_lane group }
{
    match group {
        ListGroup::Config | ListGroup::Service => true,
        ListGroup::Endpoint => false,
    }
}

fn takes_version(step: &Step) -> bool
    ensures { result ≡ takes_version step.now }
{
    match step {
        Step::Edit { .. } | Step::Turn { .. } => true,
        Step::Crash { applied } => *applied,
        Step::Take { .. } | Step::Restart { .. } | Step::Expire { .. } => false,
    }
}
