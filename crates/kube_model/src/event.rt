//! What a line of a watch says.

use crate::copies::copied;
use crate::key::Key;
use crate::object::{Kind, Object};
use json_fields::FieldFault;
use kube_labels::{Text, TextList};
use mlb_base::{ByteList, NoMemory, TryCopy};
use thiserror::Error;

/// The lists that a watch begins with.
#[derive(Clone, Copy, Debug, PartialEq, Eq)]
pub enum ListGroup {
    Config,
    Service,
    Endpoint,
}

/// What happened.
#[derive(Drop)]
pub enum Event {
    /// The object is there now, with this version, which is at least 1 where it was read from a
    /// line.
    Changed { version: u64, object: Object },
    /// The object isn't there any more.
    Deleted { kind: Kind, key: Key },
    /// The list of the group has been shown whole.
    ListEnd { group: ListGroup },
    /// The watch has expired; the lists begin anew.
    Expired,
    /// The speakers that are active, their names distinct and ascending where they were read from a
    /// line.
    Members { names: TextList },
    /// An interface received these bytes.
    Frame { interface: Text, bytes: ByteList },
    /// Nothing that matters here.
    Ignored,
}

/// Why a line is no event.
#[derive(Debug, Drop, Error)]
pub enum EventFault {
    #[error("the line is no JSON")]
    NotJson,
    #[error("the line is no event")]
    NotEvent,
    /// The field at this path is the first that is invalid.
    #[error("the field {path} is not as stated")]
    Field { path: Text },
    #[error("out of memory")]
    NoMemory,
}

impl From<FieldFault> for EventFault {
    ghost use Rattle.std.specs.Prelude.{◌≡◌};
    ghost use Rattle.kube_model.specs.EventFaults.{event_fault};

    ghost from_gives = { λ f e. e ≡ event_fault f };

    fn from(fault: FieldFault) -> EventFault {
        match fault {
            FieldFault::Faulty(path) => EventFault::Field { path },
            FieldFault::NoMemory => EventFault::NoMemory,
        }
    }
}

impl From<NoMemory> for EventFault {
    ghost use Rattle.std.specs.Prelude.{◌≡◌};
    ghost use Rattle.kube_model.specs.declared.event.EventFault.TheVariants.{NoMemory};

    ghost from_gives = { λ _ e. e ≡ NoMemory };

    fn from(_refused: NoMemory) -> EventFault {
        EventFault::NoMemory
    }
}

impl TryCopy for Event {
    fn copy(&self) -> Result<Event, NoMemory> {
        match self {
            Event::Changed { version, object } => Ok(Event::Changed {
                version: *version,
                object: object.copy()?,
            }),
            Event::Deleted { kind, key } => Ok(Event::Deleted {
                kind: *kind,
                key: key.copy()?,
            }),
            Event::ListEnd { group } => Ok(Event::ListEnd { group: *group }),
            Event::Expired => Ok(Event::Expired),
            Event::Members { names } => Ok(Event::Members {
                names: names.copy()?,
            }),
            Event::Frame { interface, bytes } => {
                let (interface, bytes) = copied(interface, bytes)?;
                Ok(Event::Frame { interface, bytes })
            }
            Event::Ignored => Ok(Event::Ignored),
        }
    }
}
