//! The core as others use it: each of its states is one that a run leads to.
ghost use Rattle.std.specs.Prelude.{◌≡◌, ◌↔◌, ◌⊎◌, ◌+◌, ◌<◌, length, None, true, IsErrOf, IfOk};
ghost use Rattle.std.specs.Prelude.{IfErr, OnOk, OnErr, IsSome, IsTrue};
ghost use Rattle.std.specs.Option.{option_copied};
ghost use Rattle.object_cache.specs.Limits.{most_services};
ghost use Rattle.core_laws.specs.Quiet.{IsQuiet};
ghost use Rattle.core_rules.specs.Core.{fresh, is_ready, record_of, is_settled};
ghost use Rattle.core_rules.specs.Replied.{core_reply};
ghost use Rattle.core_rules.specs.Take.{core_take, core_note, core_expired, limits};
ghost use Rattle.core_rules.specs.Turn.{core_turn, after_turn};

use crate::state::{CoreState, is_ready};
use core_keys::is_free;
use core_rules::{TakeFault, Turn};
use kube_labels::Text;
use kube_model::{Event, Key, ListGroup, Put, PutReply, Record};
use mlb_base::NoMemory;
use object_cache::TakeNote;
use std::alloc::Global;
use std::marker::Model;

/// What the controller knows of the cluster, and what it still has to decide. Whatever it was told,
/// each settled service, but the one that is being written, has the record that was chosen for it;
/// where none could be chosen, none can be now.
pub struct Core {
    state: CoreState,
}

impl Drop for Core {
    fn drop(self) {
        let Core { state: _ } = self;
    }
}

impl Model for Core {
    ghost use Rattle.core_rules.specs.Core.{State};
    ghost use Rattle.ctl_core.specs.Reached.{IsReached};

    ghost Value = { State };

    ghost view = { λ c. c.state };

    ghost invariant = { λ c. IsReached c.state };
}

impl Core {
    /// A core that holds nothing. It handles the services of the class (`spec.loadBalancerClass`),
    /// and with none those that name none.
    pub fn new(alloc: Global, class: Option<Text>) -> Result<Core, NoMemory>
        ensures { IfOk result (λ core. core ≡ fresh class) }
    {
        let state = CoreState::new(alloc, class)?;
        Ok(Core { state })
    }

    /// Whether the lists of the configuration and of the services have ended, and a configuration
    /// is in force.
    pub fn is_ready(&self) -> bool
        ensures { result ≡ is_ready self.now.held }
    {
        is_ready(&self.state.cache)
    }

    /// Whether a service is queued, so that there is a turn to make.
    pub fn has_turn(&self) -> bool
        ensures { IsTrue result ↔ (0 < length self.now.queue) }
    {
        !self.state.queue.is_empty()
    }

    /// The record last shown for a held service.
    pub fn record_of(&self, key: &Key) -> Option<&Record>
        ensures { option_copied result ≡ record_of self.now.held key.now }
    {
        match self.state.cache.service(key) {
            Some(service) => Some(&service.holding),
            None => None,
        }
    }

    /// Whether the core is ready and holds the service, which is neither queued nor awaits a newer
    /// event.
    pub fn is_settled(&self, key: &Key) -> bool
        ensures { result ≡ is_settled self.now key.now }
    {
        is_ready(&self.state.cache)
            && self.state.cache.service(key).is_some()
            && is_free(&self.state.queue, &self.state.awaiting, key)
    }

    /// The put that has no reply yet.
    pub fn put_out(&self) -> Option<&Put>
        ensures { option_copied result ≡ self.now.out }
    {
        self.state.out.as_ref()
    }

    /// Takes an event: what it shows of the cluster is held. It is refused where one service more
    /// would be held than may be, with their number. After a refusal the core is unchanged.
    pub fn take(&mut self, event: Event) -> Result<TakeNote, TakeFault>
        requires { self.old.out ≡ None }
        ensures note { IfOk result (λ note. note ≡ core_note self.old event) }
        ensures ok { OnOk result (self.new ≡ core_take self.old event) }
        ensures limit { IsErrOf result (TakeFault.Limit (most_services + 1))
            ↔ (limits self.old event ≡ true) }
        ensures faults { IfErr result (λ fault. (fault ≡ TakeFault.Limit (most_services + 1))
            ⊎ (fault ≡ TakeFault.NoMemory)) }
        ensures err { OnErr result (self.new ≡ self.old) }
        ensures quiet { IsQuiet self.new }
    {
        self.state.take(event)
    }

    /// The watch of this list has expired, and begins anew. It takes no memory.
    pub fn take_expired(&mut self, group: ListGroup)
        requires { self.old.out ≡ None }
        ensures core { self.new ≡ core_expired self.old group }
        ensures quiet { IsQuiet self.new }
    {
        self.state.take_expired(group);
    }

    /// What the next turn comes to. It isn't made, and the core stays as it is.
    pub fn next_turn(&self) -> Result<Turn, NoMemory>
        ensures { IfOk result (λ turn. turn ≡ core_turn self.now) }
    {
        self.state.next_turn()
    }

    /// Makes the next turn: the front key is taken out of the queue and chosen for. A put that is
    /// wanted is out until it is answered. Where memory ran out the core is unchanged.
    pub fn next_put(&mut self) -> Result<Turn, NoMemory>
        requires { self.old.out ≡ None }
        ensures turn { IfOk result (λ turn. turn ≡ core_turn self.old) }
        ensures ok { OnOk result (self.new ≡ after_turn self.old) }
        ensures err { OnErr result (self.new ≡ self.old) }
        ensures quiet { IsQuiet self.new }
    {
        self.state.next_put()
    }

    /// Takes the reply to the put in flight. Where memory ran out the put is still in flight, and
    /// nothing changed.
    pub fn answered(&mut self, reply: PutReply) -> Result<(), NoMemory>
        requires { IsSome self.old.out }
        ensures ok { OnOk result (self.new ≡ core_reply self.old reply) }
        ensures err { OnErr result (self.new ≡ self.old) }
        ensures quiet { IsQuiet self.new }
    {
        self.state.answered(reply)
    }
}
