//! What comes of an answer, stage by stage.
ghost use Rattle.std.specs.Prelude.{◌≡◌, IfOk, slice_get};
ghost use Rattle.put_fence.specs.Fences.{behind_chase, chasing_on, chasing_told, check_behind};
ghost use Rattle.put_fence.specs.Fences.{check_request, checking_on, checking_told, fencing_told};
ghost use Rattle.put_fence.specs.Fences.{free_told, is_other, lease_request, listing_told};
ghost use Rattle.put_fence.specs.Fences.{naming_told, named_in, relisting_told, sent_told};
ghost use Rattle.put_fence.specs.Fences.{shows_gone, to, waiting_told};

use crate::answer::Answer;
use crate::fence::wanted_by;
use crate::known::Known;
use crate::output::{Output, Request, Taken};
use crate::stage::{CheckCall, LeaseCall, Stage};
use kube_model::{Put, PutReply};
use mlb_base::NoMemory;

/// After so many tries that came to nothing, and one more, a put that can't be fenced is owed.
const TRIES_BEFORE_LAST: u8 = 2;

/// The request that a call makes.
fn lease_request(call: LeaseCall) -> Request
    ensures { result ≡ lease_request call }
{
    match call {
        LeaseCall::Idle | LeaseCall::Read => Request::ReadLease,
        LeaseCall::Change => Request::ChangeLease,
    }
}

/// Whoever reads that it has the Lease fences what the Lease names.
pub(crate) fn waiting_told(call: LeaseCall, answer: Answer, known: Known) -> Taken
    ensures { result ≡ waiting_told call answer known }
{
    match answer {
        Answer::Lease { lease } => {
            let takes = known.is_own(&lease) && known.is_quiet(&lease);
            let known = known.reads(lease);
            if takes {
                known.fencing(0)
            } else {
                known.to(waiting(LeaseCall::Idle), Output::Nothing)
            }
        }
        Answer::Missing => known.to(waiting(LeaseCall::Idle), Output::Absent),
        Answer::Refused => known.to(
            waiting(LeaseCall::Read),
            Output::Ask {
                request: Request::ReadLease,
            },
        ),
        Answer::Unknown => known.to(
            waiting(call),
            Output::Again {
                request: lease_request(call),
            },
        ),
        Answer::At { .. } | Answer::Listed => known.to(waiting(call), Output::Unexpected),
    }
}

/// Whoever reads that the Lease is another's ends its program.
pub(crate) fn free_told(call: LeaseCall, answer: Answer, known: Known) -> Taken
    ensures { result ≡ free_told call answer known }
{
    match answer {
        Answer::Lease { lease } => {
            let own = known.is_own(&lease);
            let known = known.reads(lease);
            if own {
                known.to(free(LeaseCall::Idle), Output::Nothing)
            } else {
                known.to(Stage::Lost, Output::Lost)
            }
        }
        Answer::Missing => known.to(free(LeaseCall::Idle), Output::Absent),
        Answer::Refused => known.to(
            free(LeaseCall::Read),
            Output::Ask {
                request: Request::ReadLease,
            },
        ),
        Answer::Unknown => known.to(
            free(call),
            Output::Again {
                request: lease_request(call),
            },
        ),
        Answer::At { .. } | Answer::Listed => known.to(free(call), Output::Unexpected),
    }
}

/// The put is sent once the Lease was read to name it.
pub(crate) fn naming_told(
    put: Put,
    call: LeaseCall,
    answer: Answer,
    known: Known,
) -> Result<Taken, NoMemory>
    ensures { IfOk result (λ t. t ≡ naming_told put call answer known) }
{
    match answer {
        Answer::Lease { lease } => {
            if !known.is_own(&lease) {
                return Ok(known.reads(lease).to(Stage::Lost, Output::Lost));
            }
            let may_send = known.may_send(&put, &lease);
            let version = lease.version;
            known.reads(lease).sending(put, version, may_send)
        }
        Answer::Missing => Ok(known.to(
            free(LeaseCall::Idle),
            Output::Reply {
                reply: PutReply::Stale,
            },
        )),
        Answer::Refused => Ok(known.to(
            Stage::Naming {
                put,
                call: LeaseCall::Read,
            },
            Output::Ask {
                request: Request::ReadLease,
            },
        )),
        Answer::Unknown => Ok(known.to(
            Stage::Naming { put, call },
            Output::Again {
                request: lease_request(call),
            },
        )),
        Answer::At { .. } | Answer::Listed => {
            Ok(known.to(Stage::Naming { put, call }, Output::Unexpected))
        }
    }
}

fn waiting(call: LeaseCall) -> Stage
    ensures { result ≡ Stage.Waiting call }
{
    Stage::Waiting { call }
}

fn free(call: LeaseCall) -> Stage
    ensures { result ≡ Stage.Free call }
{
    Stage::Free { call }
}

/// Whether the service is at a later version, or isn't there: no put at this version can be carried
/// out any more.
fn shows_gone(version: u64, answer: &Answer) -> bool
    ensures { result ≡ shows_gone version answer.now }
{
    match answer {
        Answer::At { version: found } => version < *found,
        Answer::Missing => true,
        Answer::Lease { .. } | Answer::Listed | Answer::Refused | Answer::Unknown => false,
    }
}

/// A service that is read and isn't later is changed; after anything else it is read.
fn check_behind(call: CheckCall, answer: &Answer) -> CheckCall
    ensures { result ≡ check_behind call answer.now }
{
    match answer {
        Answer::At { .. } => match call {
            CheckCall::Get => CheckCall::Touch,
            CheckCall::Touch => CheckCall::Get,
        },
        Answer::Lease { .. }
        | Answer::Listed
        | Answer::Missing
        | Answer::Refused
        | Answer::Unknown => CheckCall::Get,
    }
}

fn check_request(call: CheckCall) -> Request
    ensures { result ≡ check_request call }
{
    match call {
        CheckCall::Get => Request::Get,
        CheckCall::Touch => Request::Touch,
    }
}

/// Whether no request for a service is answered so.
fn is_other(answer: &Answer) -> bool
    ensures { result ≡ is_other answer.now }
{
    matches!(answer, Answer::Lease { .. } | Answer::Listed)
}

/// The next of what the Lease names is fenced.
pub(crate) fn fencing_told(call: CheckCall, next: usize, answer: Answer, known: Known) -> Taken
    ensures { result ≡ fencing_told (slice_get (named_in known.seen) next) call next answer known }
{
    let Some(version) = known.named_at(next).map(|n| n.version) else {
        return known.to(Stage::Fencing { call, next }, Output::Unexpected);
    };
    if is_other(&answer) {
        return known.to(Stage::Fencing { call, next }, Output::Unexpected);
    }
    if shows_gone(version, &answer) {
        return known.fencing(next + 1);
    }
    let call = check_behind(call, &answer);
    let request = check_request(call);
    known.to(Stage::Fencing { call, next }, Output::Ask { request })
}

/// The program is started with the list.
pub(crate) fn listing_told(answer: Answer, known: Known) -> Taken
    ensures { result ≡ listing_told answer known }
{
    match answer {
        Answer::Listed => known.to(free(LeaseCall::Idle), Output::Nothing),
        Answer::Missing | Answer::Refused | Answer::Unknown => known.to(
            Stage::Listing,
            Output::Again {
                request: Request::List,
            },
        ),
        Answer::Lease { .. } | Answer::At { .. } => known.to(Stage::Listing, Output::Unexpected),
    }
}

/// A put that is answered with success is `ok`; else it is fenced.
pub(crate) fn sent_told(put: Put, answer: Answer, known: Known) -> Taken
    ensures { result ≡ sent_told put answer known }
{
    match answer {
        Answer::At { version } => {
            let reply = PutReply::Ok { version };
            known
                .forgets(&put)
                .to(free(LeaseCall::Idle), Output::Reply { reply })
        }
        Answer::Missing | Answer::Refused | Answer::Unknown => checks(put, known),
        Answer::Lease { .. } | Answer::Listed => {
            known.to(Stage::Sent { put }, Output::Unexpected)
        }
    }
}

/// The service of the put is read.
fn checks(put: Put, known: Known) -> Taken
    ensures { result ≡ to (Stage.Checking put CheckCall.Get 0) (Output.Ask Request.Get) known }
{
    checks_on(put, CheckCall::Get, 0, known)
}

fn checks_on(put: Put, call: CheckCall, tries: u8, known: Known) -> Taken
    ensures { result
        ≡ to (Stage.Checking put call tries) (Output.Ask (check_request call)) known }
{
    let request = check_request(call);
    known.to(
        Stage::Checking { put, call, tries },
        Output::Ask { request },
    )
}

/// A put that can't be carried out any more is `unknown`.
pub(crate) fn checking_told(
    put: Put,
    call: CheckCall,
    tries: u8,
    answer: Answer,
    known: Known,
) -> Result<Taken, NoMemory>
    ensures { IfOk result (λ t. t ≡ checking_told put call tries answer known) }
{
    if is_other(&answer) {
        return Ok(known.to(Stage::Checking { put, call, tries }, Output::Unexpected));
    }
    if shows_gone(put.version, &answer) {
        let reply = PutReply::Unknown;
        return Ok(
            known
                .sees_gone(put)?
                .to(free(LeaseCall::Idle), Output::Reply { reply }),
        );
    }
    checking_on(check_behind(call, &answer), put, tries, known)
}

/// A put that can't be fenced is owed, and `unknown` too.
fn checking_on(call: CheckCall, put: Put, tries: u8, known: Known) -> Result<Taken, NoMemory>
    ensures { IfOk result (λ t. t ≡ checking_on call put tries known) }
{
    match call {
        CheckCall::Touch => Ok(checks_on(put, call, tries, known)),
        CheckCall::Get => {
            if tries < TRIES_BEFORE_LAST {
                return Ok(checks_on(put, call, tries + 1, known));
            }
            let reply = PutReply::Unknown;
            Ok(
                known
                    .owes(&put)?
                    .to(free(LeaseCall::Idle), Output::Reply { reply }),
            )
        }
    }
}

/// What is gone isn't owed any more.
pub(crate) fn chasing_told(
    call: CheckCall,
    put: Option<Put>,
    answer: Answer,
    known: Known,
) -> Result<Taken, NoMemory>
    ensures { IfOk result (λ t. t
        ≡ chasing_told (slice_get known.owed 0) call put answer known) }
{
    let Some(version) = known.first_owed().map(|n| n.version) else {
        return Ok(known.to(Stage::Chasing { call, put }, Output::Unexpected));
    };
    if is_other(&answer) {
        return Ok(known.to(Stage::Chasing { call, put }, Output::Unexpected));
    }
    if shows_gone(version, &answer) {
        return behind_chase(put, known.but_first());
    }
    chasing_on(check_behind(call, &answer), put, known)
}

/// What can't be fenced stands after the others.
fn chasing_on(call: CheckCall, put: Option<Put>, known: Known) -> Result<Taken, NoMemory>
    ensures { IfOk result (λ t. t ≡ chasing_on call put known) }
{
    match call {
        CheckCall::Touch => {
            let request = Request::Touch;
            Ok(known.to(Stage::Chasing { call, put }, Output::Ask { request }))
        }
        CheckCall::Get => behind_chase(put, known.first_last()?),
    }
}

/// The put that was awaited is looked at.
fn behind_chase(put: Option<Put>, known: Known) -> Result<Taken, NoMemory>
    ensures { IfOk result (λ t. t ≡ behind_chase put known) }
{
    match put {
        None => Ok(known.to(free(LeaseCall::Idle), Output::Nothing)),
        Some(put) => wanted_by(put, known),
    }
}

/// The program goes on with the list.
pub(crate) fn relisting_told(answer: Answer, known: Known) -> Taken
    ensures { result ≡ relisting_told answer known }
{
    match answer {
        Answer::Listed => known.to(free(LeaseCall::Idle), Output::Nothing),
        Answer::Missing | Answer::Refused | Answer::Unknown => known.to(
            Stage::Relisting,
            Output::Again {
                request: Request::List,
            },
        ),
        Answer::Lease { .. } | Answer::At { .. } => known.to(Stage::Relisting, Output::Unexpected),
    }
}
