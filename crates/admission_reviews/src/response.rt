//! What a review is answered by.
ghost use Rattle.std.specs.Prelude.{◌≡◌, IfOk, false};
ghost use Rattle.serde_json.specs.View.{view};
ghost use Rattle.serde_json.specs.Written.{has_float, compact_text};
ghost use Rattle.admission_reviews.specs.Responses.{allowed_data, refused_data, verdict_data};
ghost use Rattle.admission_reviews.specs.Responses.{response_data, response_text};

use kube_labels::Text;
use mlb_base::NoMemory;
use serde_json::{Value, json};
use std::alloc::Global;

/// Whether a change may be made.
#[derive(Drop)]
pub enum Verdict {
    Allowed,
    Refused { message: Text },
}

fn allowed_value(alloc: Global, uid: &Text) -> Result<Value, NoMemory>
    ensures { IfOk result (λ v. view v ≡ allowed_data uid.now) }
{
    Ok(json!(in alloc; {
        "allowed": true,
        "uid": uid.as_str()
    })?)
}

fn refused_value(alloc: Global, uid: &Text, message: &Text) -> Result<Value, NoMemory>
    ensures { IfOk result (λ v. view v ≡ refused_data uid.now message.now) }
{
    Ok(json!(in alloc; {
        "allowed": false,
        "status": {
            "message": message.as_str()
        },
        "uid": uid.as_str()
    })?)
}

/// The response of an AdmissionReview.
fn verdict_value(alloc: Global, uid: &Text, verdict: &Verdict) -> Result<Value, NoMemory>
    ensures { IfOk result (λ v. view v ≡ verdict_data uid.now verdict.now) }
{
    match verdict {
        Verdict::Allowed => allowed_value(alloc, uid),
        Verdict::Refused { message } => refused_value(alloc, uid, message),
    }
}

fn response_value(alloc: Global, uid: &Text, verdict: &Verdict) -> Result<Value, NoMemory>
    ensures { IfOk result (λ v. view v ≡ response_data uid.now verdict.now) }
{
    Ok(json!(in alloc; {
        "apiVersion": "admission.k8s.io/v1",
        "kind": "AdmissionReview",
        "response": verdict_value(alloc, uid, verdict)?
    })?)
}

/// The text of a value without floats: compact JSON, the members in the byte order of their names.
pub fn written(alloc: Global, value: &Value) -> Result<Text, NoMemory>
    requires { has_float (view value.now) ≡ false }
    ensures { IfOk result (λ line. line ≡ compact_text (view value.now)) }
{
    Ok(Text::from_string(value.to_string(alloc)?))
}

/// The line that answers the review of this uid.
pub fn response_line(alloc: Global, uid: &Text, verdict: &Verdict) -> Result<Text, NoMemory>
    ensures { IfOk result (λ line. line ≡ response_text uid.now verdict.now) }
{
    let value = response_value(alloc, uid, verdict)?;
    written(alloc, &value)
}
