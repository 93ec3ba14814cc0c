//! The lines that say what lines are read as.
ghost use Rattle.std.specs.Prelude.{◌≡◌, [], map, IfOk, OnOk};
ghost use Rattle.std.specs.Option.{option_map};
ghost use Rattle.serde_json.specs.Data.{array, object, string};
ghost use Rattle.serde_json.specs.View.{view, items_of, members_view};
ghost use Rattle.kube_lines.specs.OutputLines.{pair_text};
ghost use Rattle.explained_lines.specs.Lines.{with_line};
ghost use Rattle.explained_lines.specs.Lines.{object_data, set_data, put_unused, with_unused};
ghost use Rattle.explained_lines.specs.Lines.{list_data, plain_data, ignored_data, name_of};
ghost use Rattle.explained_lines.specs.Lines.{namespace_of, namespace_in, ending_kind, event_data};
ghost use Rattle.explained_lines.specs.Lines.{path_data, reason_data, refused_data, asked_data};
ghost use Rattle.explained_lines.specs.Lines.{unread_data, review_data, explained_data};
ghost use Rattle.explained_lines.specs.Lines.{explained_text};

use crate::explained::Explained;
use admission_reviews::{Change, Review, written};
use kube_labels::Text;
use kube_lines::object_value;
use kube_model::{Event, EventFault, Key, Kind, ListGroup, Object};
use mlb_base::NoMemory;
use serde_json::{Map, Value, put as put_member};
use std::alloc::Global;

/// An object with the number of the line and these texts.
fn line_value(alloc: Global, number: u64, texts: &[(&str, &str)]) -> Result<Value, NoMemory>
    ensures { IfOk result (λ v. view v ≡ object (with_line number (map pair_text texts.now))) }
{
    object_value(alloc, texts, &[("line", number)])
}

fn texts_value(alloc: Global, texts: &[Text]) -> Result<Value, NoMemory>
    ensures { IfOk result (λ v. view v ≡ array (items_of (map string texts.now))) }
{
    let mut strings = Vec::new(alloc);
    for text in texts {
        let string = Value::try_from_str(alloc, text.as_str())?;
        strings.push(string)?;
    }
    Ok(Value::Array(strings))
}

/// The paths of what no program reads come to the members, where there are any.
fn put_unused(
    members: &mut Map<String, Value>,
    alloc: Global,
    unused: &[Text],
) -> Result<(), NoMemory>
    ensures { OnOk result (members_view members.new.entries
        ≡ put_unused unused.now (members_view members.old.entries)) }
{
    if !unused.is_empty() {
        put_member(members, alloc, "unused", texts_value(alloc, unused)?)?;
    }
    Ok(())
}

/// The object with the paths of what no program reads.
fn with_unused(alloc: Global, value: Value, unused: &[Text]) -> Result<Value, NoMemory>
    ensures { IfOk result (λ v. view v ≡ with_unused unused.now (view value)) }
{
    match value {
        Value::Object(mut members) => match put_unused(&mut members, alloc, unused) {
            Ok(()) => Ok(Value::Object(members)),
            Err(NoMemory) => {
                drop(members);
                Err(NoMemory)
            }
        },
        value => Ok(value),
    }
}

/// An object is there or gone, as `what` says.
fn shown_value<'a>(
    alloc: Global,
    number: u64,
    kind: Kind,
    namespace: Option<&'a Text>,
    name: &'a Text,
    what: &'a str,
) -> Result<Value, NoMemory>
    ensures { IfOk result (λ v. view v
        ≡ object_data number kind (option_map (λ t. t.now) namespace.entry) name.now what.now []) }
{
    match namespace {
        Some(namespace) => line_value(
            alloc,
            number,
            &[
                ("kind", kind.as_str()),
                ("name", name.as_str()),
                ("namespace", namespace.as_str()),
                ("op", "event"),
                ("type", what),
            ],
        ),
        None => line_value(
            alloc,
            number,
            &[
                ("kind", kind.as_str()),
                ("name", name.as_str()),
                ("op", "event"),
                ("type", what),
            ],
        ),
    }
}

/// An object is there, of which no program reads what stands at these paths.
fn set_value(
    alloc: Global,
    number: u64,
    object: &Object,
    unused: &[Text],
) -> Result<Value, NoMemory>
    ensures { IfOk result (λ v. view v ≡ set_data number object.now unused.now) }
{
    let value = shown_value(
        alloc,
        number,
        object.kind(),
        namespace_of(object),
        name_of(object),
        "set",
    )?;
    with_unused(alloc, value, unused)
}

/// The list of objects of the kind has ended.
fn list_value(alloc: Global, number: u64, kind: Kind) -> Result<Value, NoMemory>
    ensures { IfOk result (λ v. view v ≡ list_data number kind) }
{
    line_value(
        alloc,
        number,
        &[
            ("kind", kind.as_str()),
            ("op", "event"),
            ("type", "list-end"),
        ],
    )
}

/// An event of no object.
fn plain_value(alloc: Global, number: u64, what: &str) -> Result<Value, NoMemory>
    ensures { IfOk result (λ v. view v ≡ plain_data number what.now) }
{
    line_value(alloc, number, &[("op", "event"), ("type", what)])
}

fn ignored_value(alloc: Global, number: u64) -> Result<Value, NoMemory>
    ensures { IfOk result (λ v. view v ≡ ignored_data number) }
{
    line_value(alloc, number, &[("op", "ignored")])
}

fn name_of(object: &Object) -> &Text
    ensures { result.now ≡ name_of object.now }
{
    match object {
        Object::Service(service) => &service.key.name,
        Object::Pool(pool) => &pool.name,
        Object::L2(advertisement) => &advertisement.name,
        Object::Bgp(advertisement) => &advertisement.name,
        Object::Peer(peer) => &peer.name,
        Object::Community(community) => &community.name,
        Object::Namespace(namespace) => &namespace.name,
        Object::Node(node) => &node.name,
        Object::Slice(slice) => &slice.key.name,
    }
}

fn namespace_of(object: &Object) -> Option<&Text>
    ensures { option_map (λ t. t.now) result ≡ namespace_of object.now }
{
    match object {
        Object::Service(service) => Some(&service.key.namespace),
        Object::Slice(slice) => Some(&slice.key.namespace),
        Object::Pool(_)
        | Object::L2(_)
        | Object::Bgp(_)
        | Object::Peer(_)
        | Object::Community(_)
        | Object::Namespace(_)
        | Object::Node(_) => None,
    }
}

fn namespace_in(kind: Kind, key: &Key) -> Option<&Text>
    ensures { option_map (λ t. t.now) result ≡ namespace_in kind key.now }
{
    match kind {
        Kind::Service | Kind::Slice => Some(&key.namespace),
        Kind::Pool
        | Kind::L2
        | Kind::Bgp
        | Kind::Peer
        | Kind::Community
        | Kind::Namespace
        | Kind::Node => None,
    }
}

/// The kind whose bookmark ends the lists of the group.
fn ending_kind(group: ListGroup) -> Kind
    ensures { result ≡ ending_kind group }
{
    match group {
        ListGroup::Config => Kind::Pool,
        ListGroup::Service => Kind::Service,
        ListGroup::Endpoint => Kind::Slice,
    }
}

fn event_value(
    alloc: Global,
    number: u64,
    event: &Event,
    unused: &[Text],
) -> Result<Value, NoMemory>
    ensures { IfOk result (λ v. view v ≡ event_data number event.now unused.now) }
{
    match event {
        Event::Changed { object, .. } => set_value(alloc, number, object, unused),
        Event::Deleted { kind, key } => {
            shown_value(
                alloc,
                number,
                *kind,
                namespace_in(*kind, key),
                &key.name,
                "deleted",
            )
        }
        Event::ListEnd { group } => list_value(alloc, number, ending_kind(*group)),
        Event::Expired => plain_value(alloc, number, "expired"),
        Event::Members { .. } => plain_value(alloc, number, "members"),
        Event::Frame { .. } => plain_value(alloc, number, "frame"),
        Event::Ignored => ignored_value(alloc, number),
    }
}

/// The field at this path is invalid.
fn path_value(alloc: Global, number: u64, path: &Text) -> Result<Value, NoMemory>
    ensures { IfOk result (λ v. view v ≡ path_data number path.now) }
{
    line_value(alloc, number, &[("op", "refused"), ("path", path.as_str())])
}

/// No field is at fault.
fn reason_value(alloc: Global, number: u64, reason: &str) -> Result<Value, NoMemory>
    ensures { IfOk result (λ v. view v ≡ reason_data number reason.now) }
{
    line_value(alloc, number, &[("op", "refused"), ("reason", reason)])
}

fn refused_value(alloc: Global, number: u64, fault: &EventFault) -> Result<Value, NoMemory>
    ensures { IfOk result (λ v. view v ≡ refused_data number fault.now) }
{
    match fault {
        EventFault::NotJson => reason_value(alloc, number, "NotJson"),
        EventFault::NotEvent => reason_value(alloc, number, "NotEvent"),
        EventFault::Field { path } => path_value(alloc, number, path),
        EventFault::NoMemory => reason_value(alloc, number, "NoMemory"),
    }
}

fn asked_value(alloc: Global, number: u64, uid: &Text) -> Result<Value, NoMemory>
    ensures { IfOk result (λ v. view v ≡ asked_data number uid.now) }
{
    line_value(alloc, number, &[("op", "review"), ("uid", uid.as_str())])
}

/// The field of the review's object at this path is invalid.
fn unread_value<'a>(
    alloc: Global,
    number: u64,
    uid: &'a Text,
    path: &'a Text,
) -> Result<Value, NoMemory>
    ensures { IfOk result (λ v. view v ≡ unread_data number uid.now path.now) }
{
    line_value(
        alloc,
        number,
        &[
            ("op", "review"),
            ("path", path.as_str()),
            ("uid", uid.as_str()),
        ],
    )
}

fn review_value(alloc: Global, number: u64, review: &Review) -> Result<Value, NoMemory>
    ensures { IfOk result (λ v. view v ≡ review_data number review.now.uid review.now.change) }
{
    match &review.change {
        Change::Unread { path } => unread_value(alloc, number, &review.uid, path),
        Change::Set { .. } | Change::Remove { .. } | Change::Nothing => {
            asked_value(alloc, number, &review.uid)
        }
    }
}

fn explained_value(alloc: Global, number: u64, explained: &Explained) -> Result<Value, NoMemory>
    ensures { IfOk result (λ v. view v ≡ explained_data number explained.now) }
{
    match explained {
        Explained::Review { review } => review_value(alloc, number, review),
        Explained::Event { event, unused } => {
            event_value(alloc, number, event, unused.as_slice())
        }
        Explained::Refused { fault } => refused_value(alloc, number, fault),
    }
}

/// The line that says what the line of this number is read as.
pub fn explained_line(alloc: Global, number: u64, explained: &Explained) -> Result<Text, NoMemory>
    ensures { IfOk result (λ line. line ≡ explained_text number explained.now) }
{
    let value = explained_value(alloc, number, explained)?;
    written(alloc, &value)
}
