//! Which events a lane may carry.
ghost use Rattle.std.specs.Prelude.{◌≡◌, Bool};
ghost use Rattle.kube_model.specs.declared.event.Event.{Event};
ghost use Rattle.lane_mail.specs.declared.lane.Lane.{Lane};

use kube_model::Event;
use lane_mail::Lane;

/// Tells which events may come by which lane. An event may belong to both.
pub trait Lanes {
    /// Whether the event may come by the lane.
    ghost belongs: { Lane → Event → Bool };

    /// Whether the event may come by the lane.
    fn belongs(lane: Lane, event: &Event) -> bool
        ensures { result ≡ belongs lane event.now };
}
