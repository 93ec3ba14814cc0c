//! What a line is read as.
ghost use Rattle.std.specs.Prelude.{◌≡◌, IfOk, Err};
ghost use Rattle.kube_events.specs.Event.{event_of_line};
ghost use Rattle.admission_reviews.specs.Reviews.{review_of_line};
ghost use Rattle.explained_lines.specs.Explained.{told_event, event_found, event_or, explained_of};

use crate::unused::unused_of;
use admission_reviews::{Review, read_review};
use kube_events::read_event;
use kube_labels::TextList;
use kube_model::{Event, EventFault};
use mlb_base::NoMemory;
use std::alloc::Global;

/// What a line is read as.
#[derive(Drop)]
pub enum Explained {
    Review { review: Review },
    /// `unused` are the paths of what no program reads of an object that is there: those members of its spec that MetalLB's API
    /// reference has for its kind, in byte order.
    Event { event: Event, unused: TextList },
    /// It is neither, and this is the first thing in it that is invalid.
    Refused { fault: EventFault },
}

/// This event, which is that of the line.
fn told_event(alloc: Global, event: Event, line: &[u8]) -> Result<Explained, NoMemory>
    ensures { IfOk result (λ e. e ≡ told_event line.now event) }
{
    let unused = unused_of(alloc, &event, line)?;
    Ok(Explained::Event { event, unused })
}

/// The event of the line, which is no AdmissionReview.
fn event_found(alloc: Global, line: &[u8]) -> Result<Explained, NoMemory>
    ensures { IfOk result (λ e. e ≡ event_found line.now (event_of_line line.now)) }
{
    match read_event(alloc, line) {
        Ok(event) => told_event(alloc, event, line),
        Err(EventFault::NoMemory) => Err(NoMemory),
        Err(EventFault::NotJson) => Ok(Explained::Refused {
            fault: EventFault::NotJson,
        }),
        Err(EventFault::NotEvent) => Ok(Explained::Refused {
            fault: EventFault::NotEvent,
        }),
        Err(EventFault::Field { path }) => Ok(Explained::Refused {
            fault: EventFault::Field { path },
        }),
    }
}

/// The event of the line, or this fault of its review.
fn event_or(alloc: Global, fault: EventFault, line: &[u8]) -> Result<Explained, NoMemory>
    ensures { IfOk result (λ e. e ≡ event_or line.now fault (event_of_line line.now)) }
{
    match read_event(alloc, line) {
        Ok(event) => {
            drop(fault);
            told_event(alloc, event, line)
        }
        Err(EventFault::NoMemory) => {
            drop(fault);
            Err(NoMemory)
        }
        Err(EventFault::NotJson) => Ok(Explained::Refused { fault }),
        Err(EventFault::NotEvent) => Ok(Explained::Refused { fault }),
        Err(EventFault::Field { path }) => {
            drop(path);
            Ok(Explained::Refused { fault })
        }
    }
}

/// What the line is read as: a readable review, or else a readable event. Where it is neither, the
/// first thing at fault is that of the review, where the line is an AdmissionReview, and else that
/// of the event.
#[tactic(auto, unfolding(crate::specs::Explained::explained_of))]
pub fn explain(alloc: Global, line: &[u8]) -> Result<Explained, NoMemory>
    ensures { IfOk result (λ e. e ≡ explained_of line.now) }
{
    match read_review(alloc, line) {
        Ok(Some(review)) => Ok(Explained::Review { review }),
        Ok(None) => event_found(alloc, line),
        Err(EventFault::NoMemory) => Err(NoMemory),
        Err(EventFault::NotJson) => event_or(alloc, EventFault::NotJson, line),
        Err(EventFault::NotEvent) => event_or(alloc, EventFault::NotEvent, line),
        Err(EventFault::Field { path }) => event_or(alloc, EventFault::Field { path }, line),
    }
}
