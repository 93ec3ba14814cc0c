//! A bridge of one program.
ghost use Rattle.std.specs.Prelude.{◌≡◌, IfOk};
ghost use Rattle.std.specs.Option.{option_copied};
ghost use Rattle.put_fence.specs.Fences.{answered, chased, lapsed, lapsed_by, names_at, own_names};
ghost use Rattle.put_fence.specs.Fences.{relisted, renewed, renewed_by, started, taken, ticked};
ghost use Rattle.put_fence.specs.Fences.{unexpected, wanted, wanted_by, wanted_free, way_of};

use crate::answer::{Answer, Input};
use crate::answers::{
    chasing_told, checking_told, fencing_told, free_told, listing_told, naming_told,
    relisting_told, sent_told, waiting_told,
};
use crate::known::Known;
use crate::lease::{Lease, ServiceVersions};
use crate::output::{Output, Request, Taken};
use crate::stage::{LeaseCall, Stage};
use kube_labels::Text;
use kube_model::{Put, PutReply};
use mlb_base::{NoMemory, TryCopy};
use std::alloc::Global;

/// A bridge of one program, which is started once: what it knows of the Lease, and its stage. At
/// most one request is under way.
#[derive(Drop)]
pub struct Fence {
    pub known: Known,
    pub stage: Stage,
}

impl Fence {
    /// A bridge with this name, which no other bridge of the cluster ever has. It reads the Lease
    /// first.
    pub fn start(alloc: Global, name: Text) -> Taken
        ensures { result ≡ started name }
    {
        let call = LeaseCall::Read;
        let request = Request::ReadLease;
        Known::new(alloc, name).to(Stage::Waiting { call }, Output::Ask { request })
    }

    /// The bridge after it was told this, and what is to be done. Where there is no memory, it is
    /// gone.
    pub fn take(self, alloc: Global, input: Input) -> Result<Taken, NoMemory>
        ensures { IfOk result (λ t. t ≡ taken input self) }
    {
        let Fence { known, stage } = self;
        match input {
            Input::Tick => Ok(ticked(stage, known)),
            Input::Renew => renewed(stage, known),
            Input::Lapsed { version } => lapsed(stage, version, known),
            Input::Chase => Ok(chased(stage, known)),
            Input::Relist => Ok(relisted(alloc, stage, known)),
            Input::Put { put } => wanted(stage, put, known),
            Input::Answer { answer } => answered(stage, answer, known),
        }
    }
}

/// The Lease is read, where nothing else is under way.
fn ticked(stage: Stage, known: Known) -> Taken
    ensures { result ≡ ticked stage known }
{
    let call = LeaseCall::Read;
    let request = Request::ReadLease;
    match stage {
        Stage::Waiting {
            call: LeaseCall::Idle,
        } => known.to(Stage::Waiting { call }, Output::Ask { request }),
        Stage::Free {
            call: LeaseCall::Idle,
        } => known.to(Stage::Free { call }, Output::Ask { request }),
        stage => known.to(stage, Output::Nothing),
    }
}

/// The holder changes the Lease, which names what it named.
fn renewed(stage: Stage, known: Known) -> Result<Taken, NoMemory>
    ensures { IfOk result (λ t. t ≡ renewed stage known) }
{
    match stage {
        Stage::Free {
            call: LeaseCall::Idle,
        } => renewed_free(known),
        stage => Ok(known.to(stage, Output::Nothing)),
    }
}

fn renewed_free(known: Known) -> Result<Taken, NoMemory>
    ensures { IfOk result (λ t. t ≡ renewed_by known.seen known) }
{
    let Some((version, named)) = own_names(&known)? else {
        let call = LeaseCall::Idle;
        return Ok(known.to(Stage::Free { call }, Output::Nothing));
    };
    let call = LeaseCall::Change;
    Ok(known.asking(version, named, Stage::Free { call }))
}

/// The version of the Lease and what it names, where it is one's own.
fn own_names(known: &Known) -> Result<Option<(u64, ServiceVersions)>, NoMemory>
    ensures { IfOk result (λ names. names ≡ own_names known.now.seen known.now) }
{
    match &known.seen {
        Some(lease) if known.is_own(lease) => Ok(Some((lease.version, lease.named.copy()?))),
        _ => Ok(None),
    }
}

/// The version of the Lease and what it names, where it is at this version.
fn names_at(seen: Option<&Lease>, version: u64) -> Result<Option<ServiceVersions>, NoMemory>
    ensures { IfOk result (λ names. names ≡ names_at (option_copied seen.entry) version) }
{
    match seen {
        Some(lease) if lease.version == version => Ok(Some(lease.named.copy()?)),
        _ => Ok(None),
    }
}

/// The Lease is taken over, where it stayed at this version.
fn lapsed(stage: Stage, version: u64, known: Known) -> Result<Taken, NoMemory>
    ensures { IfOk result (λ t. t ≡ lapsed stage version known) }
{
    match stage {
        Stage::Waiting {
            call: LeaseCall::Idle,
        } => lapsed_waiting(version, known),
        stage => Ok(known.to(stage, Output::Nothing)),
    }
}

fn lapsed_waiting(version: u64, known: Known) -> Result<Taken, NoMemory>
    ensures { IfOk result (λ t. t ≡ lapsed_by known.seen version known) }
{
    let Some(named) = names_at(known.seen.as_ref(), version)? else {
        let call = LeaseCall::Idle;
        return Ok(known.to(Stage::Waiting { call }, Output::Nothing));
    };
    let call = LeaseCall::Change;
    Ok(known.asking(version, named, Stage::Waiting { call }))
}

/// The program wants a put.
fn wanted(stage: Stage, put: Put, known: Known) -> Result<Taken, NoMemory>
    ensures { IfOk result (λ t. t ≡ wanted stage put known) }
{
    let reply = PutReply::Stale;
    match stage {
        Stage::Free { call } => {
            if known.holds_back(&put) {
                return Ok(known.to(Stage::Free { call }, Output::Reply { reply }));
            }
            wanted_free(call, put, known)
        }
        Stage::Chasing { call, put: None } => {
            if known.holds_back(&put) {
                return Ok(known.to(Stage::Chasing { call, put: None }, Output::Reply { reply }));
            }
            let put = Some(put);
            Ok(known.to(Stage::Chasing { call, put }, Output::Nothing))
        }
        stage => Ok(unexpected(stage, known)),
    }
}

fn wanted_free(call: LeaseCall, put: Put, known: Known) -> Result<Taken, NoMemory>
    ensures { IfOk result (λ t. t ≡ wanted_free call put known) }
{
    match call {
        LeaseCall::Idle => wanted_by(put, known),
        LeaseCall::Read | LeaseCall::Change => {
            Ok(known.to(Stage::Naming { put, call }, Output::Nothing))
        }
    }
}

/// The put is sent, or named first; it is `stale` where the Lease is another's.
pub(crate) fn wanted_by(put: Put, known: Known) -> Result<Taken, NoMemory>
    ensures { IfOk result (λ t. t ≡ wanted_by known.seen put known) }
{
    let Some((version, may_send)) = way_of(&put, &known) else {
        let call = LeaseCall::Idle;
        let reply = PutReply::Stale;
        return Ok(known.to(Stage::Free { call }, Output::Reply { reply }));
    };
    known.sending(put, version, may_send)
}

/// The version of the Lease, and whether the put may be sent, where the Lease is one's own.
fn way_of(put: &Put, known: &Known) -> Option<(u64, bool)>
    ensures { result ≡ way_of put.now known.now.seen known.now }
{
    match &known.seen {
        Some(lease) if known.is_own(lease) => Some((lease.version, known.may_send(put, lease))),
        _ => None,
    }
}

/// The first put that is owed is fenced, where nothing else is under way.
fn chased(stage: Stage, known: Known) -> Taken
    ensures { result ≡ chased stage known }
{
    match stage {
        Stage::Free {
            call: LeaseCall::Idle,
        } => known.chased(),
        stage => known.to(stage, Output::Nothing),
    }
}

/// The services are listed anew, where nothing is owed and nothing else is under way.
fn relisted(alloc: Global, stage: Stage, known: Known) -> Taken
    ensures { result ≡ relisted stage known }
{
    match stage {
        Stage::Free {
            call: LeaseCall::Idle,
        } => known.relisted(alloc),
        stage => known.to(stage, Output::Nothing),
    }
}

/// What was asked for is answered.
fn answered(stage: Stage, answer: Answer, known: Known) -> Result<Taken, NoMemory>
    ensures { IfOk result (λ t. t ≡ answered stage answer known) }
{
    match stage {
        Stage::Waiting { call } => Ok(match call {
            LeaseCall::Idle => unexpected(Stage::Waiting { call }, known),
            LeaseCall::Read | LeaseCall::Change => waiting_told(call, answer, known),
        }),
        Stage::Free { call } => Ok(match call {
            LeaseCall::Idle => unexpected(Stage::Free { call }, known),
            LeaseCall::Read | LeaseCall::Change => free_told(call, answer, known),
        }),
        Stage::Naming { put, call } => match call {
            LeaseCall::Idle => Ok(unexpected(Stage::Naming { put, call }, known)),
            LeaseCall::Read | LeaseCall::Change => naming_told(put, call, answer, known),
        },
        Stage::Fencing { call, next } => Ok(fencing_told(call, next, answer, known)),
        Stage::Listing => Ok(listing_told(answer, known)),
        Stage::Sent { put } => Ok(sent_told(put, answer, known)),
        Stage::Checking { put, call, tries } => checking_told(put, call, tries, answer, known),
        Stage::Chasing { call, put } => chasing_told(call, put, answer, known),
        Stage::Relisting => Ok(relisting_told(answer, known)),
        Stage::Lost => Ok(unexpected(Stage::Lost, known)),
    }
}

/// Nothing comes of it.
fn unexpected(stage: Stage, known: Known) -> Taken
    ensures { result ≡ unexpected stage known }
{
    known.to(stage, Output::Unexpected)
}
