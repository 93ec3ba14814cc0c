//! What each service of the type has: terms that there can be.
ghost use Rattle.std.specs.Prelude.{◌<◌, IsUtf8};
ghost use Rattle.std.specs.List.{AllByRecursion};
ghost use Rattle.kube_labels.specs.Pairs.{IsAscending};
ghost use Rattle.sharing_terms.specs.Marked.{AreSmall, AreTexts, AreTerms};
ghost use Rattle.sharing_terms.specs.Terms.{terms_of};
ghost use Rattle.world_rules.specs.Safe.{HasTerms, SetsTerms, StepsTerms};

use kube_labels::{Labels, Text};
use kube_model::{Object, Port, Service};
use status_store::Edit;
use world_rules::Step;

/// Whatever the object is: a service has terms that there can be. Its texts are UTF-8, its ports
/// have 16 bits, and its selector ascends.
pub fn has_terms(object: &Object)
    ensures { HasTerms object.now }
{
    match object {
        Object::Service(service) => service_has_terms(service),
        _ => {}
    }
}

/// So it is of each object of a list.
pub(crate) fn have_terms(objects: &[Object])
    ensures { AllByRecursion HasTerms objects.now }
{
    for object in objects {
        has_terms(object);
    }
}

/// So it is of what a step sets.
pub(crate) fn steps_terms(step: &Step)
    ensures { StepsTerms step.now }
{
    match step {
        Step::Edit { edit } => sets_terms(edit),
        _ => {}
    }
}

fn sets_terms(edit: &Edit)
    ensures { SetsTerms edit.now }
{
    match edit {
        Edit::Set { object } | Edit::Reset { object } => has_terms(object),
        Edit::Delete { .. } => {}
    }
}

fn service_has_terms(service: &Service)
    ensures { AreTerms (terms_of service.now) }
{
    is_text(&service.share_key);
    is_text(&service.key.namespace);
    are_small(service.ports.as_slice());
    are_pairs(&service.selector);
}

fn is_text(text: &Text)
    ensures { IsUtf8 text.now }
{
    let _bytes = text.as_str();
}

fn are_small(ports: &[Port])
    ensures { AreSmall ports.now }
{
    for port in ports {
        is_small(port);
    }
}

fn is_small(port: &Port)
    ensures { port.now.port < 65536 }
{
    let _number = port.port;
}

fn are_pairs(labels: &Labels)
    ensures texts { AreTexts labels.now }
    ensures ordered { IsAscending labels.now }
{
    for (name, value) in labels.iter() {
        is_pair(name.as_str(), value.as_str());
    }
}

fn is_pair(name: &str, value: &str)
    ensures { IsUtf8 name.now × IsUtf8 value.now }
{
    let _name = name.as_bytes();
    let _value = value.as_bytes();
}
