//! What a fence writes.
ghost use Rattle.std.specs.Prelude.{◌≡◌, IfOk, OnOk, false};
ghost use Rattle.serde_json.specs.Data.{array};
ghost use Rattle.serde_json.specs.View.{view, members_view};
ghost use Rattle.serde_json.specs.Written.{compact_text, has_float};
ghost use Rattle.fence_lines.specs.Lines.{check_data, check_text, lease_data, named_items};
ghost use Rattle.put_fence.specs.Fences.{checked};
ghost use Rattle.fence_lines.specs.Lines.{output_text, patch_text, request_text, service_data};
ghost use Rattle.fence_lines.specs.Lines.{with_lease};

use kube_labels::Text;
use kube_lines::{object_value, put_line};
use kube_model::Key;
use mlb_base::NoMemory;
use put_fence::{Fence, Known, Output, Request, ServiceVersion, Stage, Taken};
use serde_json::{Map, Value, put as put_member};
use std::alloc::Global;

/// The text of a value without floats.
fn written(alloc: Global, value: &Value) -> Result<Text, NoMemory>
    requires { has_float (view value.now) ≡ false }
    ensures { IfOk result (λ line. line ≡ compact_text (view value.now)) }
{
    Ok(Text::from_string(value.to_string(alloc)?))
}

/// A service at a version.
fn service_value(alloc: Global, n: &ServiceVersion) -> Result<Value, NoMemory>
    ensures { IfOk result (λ v. view v ≡ service_data n.now) }
{
    object_value(
        alloc,
        &[
            ("name", n.key.name.as_str()),
            ("namespace", n.key.namespace.as_str()),
        ],
        &[("version", n.version)],
    )
}

fn named_value(alloc: Global, named: &[ServiceVersion]) -> Result<Value, NoMemory>
    ensures { IfOk result (λ v. view v ≡ array (named_items named.now)) }
{
    let mut services = Vec::new(alloc);
    for n in named {
        let service = service_value(alloc, n)?;
        services.push(service)?;
    }
    Ok(Value::Array(services))
}

/// The request for the Lease.
fn lease_value(alloc: Global, known: &Known) -> Result<Value, NoMemory>
    ensures { IfOk result (λ v. view v ≡ lease_data known.now) }
{
    let mut members = Map::new(alloc);
    match put_lease(&mut members, alloc, known) {
        Ok(()) => Ok(Value::Object(members)),
        Err(NoMemory) => {
            drop(members);
            Err(NoMemory)
        }
    }
}

fn put_lease(members: &mut Map<String, Value>, alloc: Global, known: &Known) -> Result<(), NoMemory>
    ensures { OnOk result (members_view members.new.entries
        ≡ with_lease known.now (members_view members.old.entries)) }
{
    let named = named_value(alloc, known.asked.named.as_slice())?;
    let holder = Value::try_from_str(alloc, known.name.as_str())?;
    put_member(members, alloc, "holder", holder)?;
    put_member(members, alloc, "named", named)?;
    put_member(members, alloc, "op", Value::try_from_str(alloc, "lease")?)?;
    put_member(members, alloc, "version", Value::from(known.asked.at))?;
    Ok(())
}

fn lease_line(alloc: Global, known: &Known) -> Result<Text, NoMemory>
    ensures { IfOk result (λ line. line ≡ compact_text (lease_data known.now)) }
{
    let value = lease_value(alloc, known)?;
    written(alloc, &value)
}

fn check_value(alloc: Global, op: &str, key: &Key, version: u64) -> Result<Value, NoMemory>
    ensures { IfOk result (λ v. view v
        ≡ check_data op.now (record { key = key.now; version = version })) }
{
    object_value(
        alloc,
        &[
            ("name", key.name.as_str()),
            ("namespace", key.namespace.as_str()),
            ("op", op),
        ],
        &[("version", version)],
    )
}

fn check_line(alloc: Global, op: &str, key: &Key, version: u64) -> Result<Text, NoMemory>
    ensures { IfOk result (λ line. line
        ≡ compact_text (check_data op.now (record { key = key.now; version = version }))) }
{
    let value = check_value(alloc, op, key, version)?;
    written(alloc, &value)
}

/// The line about the service that is fenced, where one is.
fn checked_line(alloc: Global, op: &str, fence: &Fence) -> Result<Option<Text>, NoMemory>
    ensures { IfOk result (λ line. line
        ≡ check_text op.now (checked fence.now.stage fence.now.known)) }
{
    match &fence.stage {
        Stage::Fencing { next, .. } => match fence.known.named_at(*next) {
            Some(n) => Ok(Some(check_line(alloc, op, &n.key, n.version)?)),
            None => Ok(None),
        },
        Stage::Checking { put, .. } => Ok(Some(check_line(alloc, op, &put.key, put.version)?)),
        Stage::Chasing { .. } => match fence.known.first_owed() {
            Some(n) => Ok(Some(check_line(alloc, op, &n.key, n.version)?)),
            None => Ok(None),
        },
        Stage::Waiting { .. }
        | Stage::Listing
        | Stage::Free { .. }
        | Stage::Naming { .. }
        | Stage::Sent { .. }
        | Stage::Relisting
        | Stage::Lost => Ok(None),
    }
}

/// The line of the put that is sent.
fn patch_line(alloc: Global, stage: &Stage) -> Result<Option<Text>, NoMemory>
    ensures { IfOk result (λ line. line ≡ patch_text stage.now) }
{
    match stage {
        Stage::Sent { put } => Ok(Some(put_line(alloc, put)?)),
        Stage::Waiting { .. }
        | Stage::Fencing { .. }
        | Stage::Listing
        | Stage::Free { .. }
        | Stage::Naming { .. }
        | Stage::Checking { .. }
        | Stage::Chasing { .. }
        | Stage::Relisting
        | Stage::Lost => Ok(None),
    }
}

fn request_line(alloc: Global, request: Request, fence: &Fence) -> Result<Option<Text>, NoMemory>
    ensures { IfOk result (λ line. line ≡ request_text request fence.now) }
{
    match request {
        Request::ReadLease => Ok(Some(Text::new(alloc, "{\"lease\":1,\"op\":\"get\"}")?)),
        Request::ChangeLease => Ok(Some(lease_line(alloc, &fence.known)?)),
        Request::Get => checked_line(alloc, "get", fence),
        Request::Touch => checked_line(alloc, "touch", fence),
        Request::List => Ok(Some(Text::new(alloc, "{\"op\":\"list\"}")?)),
        Request::Patch => patch_line(alloc, &fence.stage),
    }
}

/// The line of what is to be done, without its end, where there is one: a request, or what became
/// of the Lease. A reply goes to the program.
pub fn output_line(alloc: Global, taken: &Taken) -> Result<Option<Text>, NoMemory>
    ensures { IfOk result (λ line. line ≡ output_text taken.now.output taken.now.fence) }
{
    match taken.output {
        Output::Nothing | Output::Reply { .. } => Ok(None),
        Output::Ask { request } | Output::Again { request } => {
            request_line(alloc, request, &taken.fence)
        }
        Output::Lost => Ok(Some(Text::new(alloc, "{\"op\":\"lost\"}")?)),
        Output::Absent => Ok(Some(Text::new(alloc, "{\"op\":\"absent\"}")?)),
        Output::Unexpected => Ok(Some(Text::new(alloc, "{\"op\":\"unexpected\"}")?)),
    }
}
