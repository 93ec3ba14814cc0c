//! What a bridge knows of the Lease.
ghost use Rattle.std.specs.Prelude.{◌≡◌, [], None, IfOk, slice_get};
ghost use Rattle.std.specs.Option.{option_copied};
ghost use Rattle.put_fence.specs.Fences.{asking, but_first, chased_by, fencing, first_last};
ghost use Rattle.put_fence.specs.Fences.{forgets, is_gone, is_held_back, is_named, is_owed, is_own};
ghost use Rattle.put_fence.specs.Fences.{is_quiet, may_send, named_in, owed_and, owes, reads};
ghost use Rattle.put_fence.specs.Fences.{relisted_by, sees_gone, sending_by, to};

use crate::fence::Fence;
use crate::lease::{Asked, Lease, ServiceVersion, ServiceVersions};
use crate::output::{Output, Request, Taken};
use crate::stage::{CheckCall, LeaseCall, Stage};
use kube_labels::Text;
use kube_model::{Key, Put};
use mlb_base::{NoMemory, Sequence, TryCopy};
use std::alloc::Global;
use versioned_map::VersionedMap;

/// What a bridge knows of the Lease, whatever its stage.
#[derive(Drop)]
pub struct Known {
    /// The bridge's name, which no other bridge of the cluster ever has.
    pub name: Text,
    /// The Lease as it was read last.
    pub seen: Option<Lease>,
    /// The last request for it; version 0 before the first.
    pub asked: Asked,
    /// The puts that were answered `unknown` and may still be carried out, one of a service at
    /// most: each is named in every request for the Lease until it is seen to be gone.
    pub owed: ServiceVersions,
    /// Each service of which a put was seen to be gone, at the last such put's version: none at it
    /// or before is sent. It is forgotten once a later one is stored, and where the services are
    /// listed anew.
    pub gone: VersionedMap<Key, ()>,
}

/// So many puts are owed at most.
const MOST_OWED: usize = 1_000;

impl Known {
    pub(crate) fn new(alloc: Global, name: Text) -> Known
        ensures name { result.name ≡ name }
        ensures seen { result.seen ≡ None }
        ensures at { result.asked.at ≡ 0 }
        ensures named { result.asked.named ≡ [] }
        ensures owed { result.owed ≡ [] }
        ensures gone { result.gone ≡ [] }
    {
        Known {
            name,
            seen: None,
            asked: Asked {
                at: 0,
                named: Sequence::new(alloc),
            },
            owed: Sequence::new(alloc),
            gone: VersionedMap::new(alloc),
        }
    }

    pub(crate) fn to(self, stage: Stage, output: Output) -> Taken
        ensures { result ≡ to stage output self }
    {
        Taken {
            fence: Fence { known: self, stage },
            output,
        }
    }

    /// The Lease was read.
    pub(crate) fn reads(self, lease: Lease) -> Known
        ensures { result ≡ reads lease self }
    {
        Known {
            seen: Some(lease),
            ..self
        }
    }

    pub(crate) fn is_own(&self, lease: &Lease) -> bool
        ensures { result ≡ is_own self.now lease.now }
    {
        lease.holder == self.name
    }

    pub(crate) fn is_quiet(&self, lease: &Lease) -> bool
        ensures { result ≡ is_quiet self.now lease.now }
    {
        self.asked.at < lease.version
    }

    /// The service at the place of what the Lease names.
    pub fn named_at(&self, place: usize) -> Option<&ServiceVersion>
        ensures { option_copied result ≡ slice_get (named_in self.now.seen) place }
    {
        match &self.seen {
            None => None,
            Some(lease) => lease.named.as_slice().get(place),
        }
    }

    /// Asks that the Lease, at this version, be one's own and name these; or once more as before,
    /// where that request may be under way.
    pub(crate) fn asking(self, version: u64, named: ServiceVersions, stage: Stage) -> Taken
        ensures { result ≡ asking version named stage self }
    {
        if self.asked.at < version {
            let asked = Asked { at: version, named };
            let request = Request::ChangeLease;
            return Known { asked, ..self }.to(stage, Output::Ask { request });
        }
        let request = Request::ChangeLease;
        self.to(stage, Output::Again { request })
    }

    /// Fences what the Lease names from this place on, and lists the services after the last.
    pub(crate) fn fencing(self, next: usize) -> Taken
        ensures { result ≡ fencing next self }
    {
        if self.named_at(next).is_none() {
            let request = Request::List;
            return self.to(Stage::Listing, Output::Ask { request });
        }
        let call = CheckCall::Get;
        let request = Request::Get;
        self.to(Stage::Fencing { call, next }, Output::Ask { request })
    }
}

impl Known {
    /// Sends the put, or asks that the Lease, at this version, name it.
    pub(crate) fn sending(self, put: Put, version: u64, may_send: bool) -> Result<Taken, NoMemory>
        ensures { IfOk result (λ taken. taken ≡ sending_by may_send put version self) }
    {
        if may_send {
            let request = Request::Patch;
            return Ok(self.to(Stage::Sent { put }, Output::Ask { request }));
        }
        let named = self.owed_and(&put)?;
        let call = LeaseCall::Change;
        Ok(self.asking(version, named, Stage::Naming { put, call }))
    }

    /// Whether the put may be sent where this is the Lease, and it is one's own.
    pub(crate) fn may_send(&self, put: &Put, lease: &Lease) -> bool
        ensures { result ≡ may_send put.now lease.now self.now }
    {
        self.is_quiet(lease) && is_named(put, lease.named.as_slice())
    }
}

impl Known {
    /// What is owed, and this put.
    fn owed_and(&self, put: &Put) -> Result<ServiceVersions, NoMemory>
        ensures { IfOk result (λ names. names ≡ owed_and put.now self.now) }
    {
        let mut names = self.owed.copy()?;
        names.push(ServiceVersion {
            key: put.key.copy()?,
            version: put.version,
        })?;
        Ok(names)
    }

    /// This put is owed too.
    pub(crate) fn owes(self, put: &Put) -> Result<Known, NoMemory>
        ensures { IfOk result (λ known. known ≡ owes put.now self) }
    {
        let owed = self.owed_and(put)?;
        Ok(Known { owed, ..self })
    }

    /// Whether the put isn't sent: one of its service is owed, or as many as may be are, or it is
    /// known to be gone.
    pub(crate) fn holds_back(&self, put: &Put) -> bool
        ensures { result ≡ is_held_back put.now self.now }
    {
        self.is_owed(put) || MOST_OWED <= self.owed.len() || self.is_gone(put)
    }

    fn is_gone(&self, put: &Put) -> bool
        ensures { result ≡ is_gone put.now self.now }
    {
        put.version <= self.gone.version_of(&put.key)
    }

    /// The put can't be carried out any more.
    pub(crate) fn sees_gone(mut self, put: Put) -> Result<Known, NoMemory>
        ensures { IfOk result (λ known. known ≡ sees_gone put self) }
    {
        let Put { key, version, .. } = put;
        let _shown = self.gone.show(key, version, ())?;
        Ok(self)
    }

    /// The put was stored.
    pub(crate) fn forgets(mut self, put: &Put) -> Known
        ensures { result ≡ forgets put.now self }
    {
        let _before = self.gone.remove(&put.key);
        self
    }

    fn is_owed(&self, put: &Put) -> bool
        ensures { result ≡ is_owed put.now self.now }
    {
        self.owed.as_slice().iter().any(|n| n.key == put.key)
    }

    /// The put that is fenced next of those that are owed.
    pub fn first_owed(&self) -> Option<&ServiceVersion>
        ensures { option_copied result ≡ slice_get self.now.owed 0 }
    {
        self.owed.as_slice().get(0)
    }

    /// The first isn't owed any more.
    pub(crate) fn but_first(self) -> Known
        ensures { result ≡ record self { owed = but_first self.owed } }
    {
        let owed = but_first(self.owed);
        Known { owed, ..self }
    }

    /// The first that is owed stands after the others.
    pub(crate) fn first_last(self) -> Result<Known, NoMemory>
        ensures { IfOk result (λ known. known ≡ record self { owed = first_last self.owed }) }
    {
        let owed = first_last(self.owed)?;
        Ok(Known { owed, ..self })
    }

    /// Fences the first put that is owed.
    pub(crate) fn chased(self) -> Taken
        ensures { result ≡ chased_by self.owed self }
    {
        let call = LeaseCall::Idle;
        if self.owed.is_empty() {
            return self.to(Stage::Free { call }, Output::Nothing);
        }
        let call = CheckCall::Get;
        let request = Request::Get;
        self.to(Stage::Chasing { call, put: None }, Output::Ask { request })
    }

    /// Lists the services anew, where nothing is owed.
    pub(crate) fn relisted(self, alloc: Global) -> Taken
        ensures { result ≡ relisted_by self.owed self }
    {
        let call = LeaseCall::Idle;
        if !self.owed.is_empty() {
            return self.to(Stage::Free { call }, Output::Nothing);
        }
        let gone = VersionedMap::new(alloc);
        let request = Request::List;
        Known { gone, ..self }.to(Stage::Relisting, Output::Ask { request })
    }
}

#[tactic(auto, using(crate::proofs::Owed::rest_removed, crate::proofs::Owed::none_first))]
fn but_first(owed: ServiceVersions) -> ServiceVersions
    ensures { result ≡ but_first owed }
{
    if owed.is_empty() {
        return owed;
    }
    let mut items = owed.into_vec();
    drop(items.remove(0));
    Sequence::from_vec(items)
}

#[tactic(auto, using(crate::proofs::Owed::last_moved, crate::proofs::Owed::none_last))]
fn first_last(owed: ServiceVersions) -> Result<ServiceVersions, NoMemory>
    ensures { IfOk result (λ names. names ≡ first_last owed) }
{
    if owed.is_empty() {
        return Ok(owed);
    }
    let mut items = owed.into_vec();
    let first = items.remove(0);
    items.push(first)?;
    Ok(Sequence::from_vec(items))
}

/// Whether the put is among those that are named.
fn is_named(put: &Put, named: &[ServiceVersion]) -> bool
    ensures { result ≡ is_named put.now named.now }
{
    named
        .iter()
        .any(|n| n.key == put.key && n.version == put.version)
}
