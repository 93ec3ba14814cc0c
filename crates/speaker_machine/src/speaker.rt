//! The speaker, as a machine over lines.
ghost use Rattle.std.specs.Prelude.{◌≡◌, IfOk};
ghost use Rattle.std.specs.Option.{option_copied};
ghost use Rattle.l2_elect.specs.Election.{announces_of, is_named};
ghost use Rattle.l2_elect.specs.Kept.{AreKnown};
ghost use Rattle.speaker_words.specs.Seen.{said_seen};
ghost use Rattle.speaker_machine.specs.Stream.{first_state};

use crate::events::apply_event;
use crate::local_node::LocalNode;
use crate::output::write_entries;
use bgp_routes::KeptRoutes;
use ip_ranges::Address;
use kube_labels::Text;
use kube_model::Status;
use l2_elect::{Announcers, announces};
use line_run::{Machine, Refusal};
use mlb_base::NoMemory;
use mlb_edge::{Line, Sink};
use program_exit::owned_word;
use program_lines::event_of_line;
use speaker_view::View;
use speaker_words::SpeakerWords;
use std::alloc::Global;
use std::marker::Model;

/// Applies lines to a view, and tells what its node announces.
pub struct Speaker {
    pub(crate) view: View,
    pub(crate) local: LocalNode,
    // who announces each address by the view, once it is known: most events change it at few
    // addresses
    pub(crate) announcers: Option<Announcers>,
    // the routes of all peers by the view, where there is a next hop, once they are known
    pub(crate) routes: Option<KeptRoutes>,
}

impl Drop for Speaker {
    fn drop(self) {
        let Speaker {
            view: _,
            local: _,
            announcers: _,
            routes: _,
        } = self;
    }
}

impl Model for Speaker {
    ghost use Rattle.l2_elect.specs.Kept.{AreKnown};
    ghost use Rattle.speaker_machine.specs.Kept.{AreRoutesKnown};
    ghost use Rattle.speaker_machine.specs.Stream.{SpeakerState, state_of};

    ghost Value = { SpeakerState };

    ghost view = { λ s. state_of s.view s.local };

    ghost invariant = { λ s. AreKnown s.announcers s.view × AreRoutesKnown s.routes s.view s.local };
}

impl Speaker {
    /// A speaker that was shown nothing, where the words say. It announces services of their class,
    /// or those without one.
    pub fn new(alloc: Global, said: &SpeakerWords<'_>) -> Result<Speaker, NoMemory>
        ensures { IfOk result (λ speaker. speaker ≡ first_state (said_seen said.now)) }
    {
        let class = owned_word(alloc, said.class)?;
        let local = LocalNode::new(alloc, said)?;
        Ok(Speaker {
            view: View::new(alloc, class),
            local,
            announcers: None,
            routes: None,
        })
    }

    /// Whether the node announces the address by what was shown. It takes no memory, and is a
    /// look-up.
    pub fn announces(&self, address: &Address) -> bool
        ensures { result ≡ announces_of self.now.view self.now.local.node address.now }
    {
        let announcers = self.announcers.as_ref();
        announces_known(&self.view, announcers, &self.local.node, address)
    }
}

/// Whether the node announces the address, by the announcers of the view where they are known: then
/// no election is held.
fn announces_known(
    view: &View,
    announcers: Option<&Announcers>,
    node: &Text,
    address: &Address,
) -> bool
    requires { AreKnown (option_copied announcers) view.now }
    ensures { result ≡ announces_of view.now node.now address.now }
{
    match announcers {
        Some(announcers) => is_named(node, announcers.of(address)),
        None => announces(view, node.as_str(), address),
    }
}

/// Whether there is an announcer, and it is the node.
fn is_named(node: &Text, announcer: Option<&Text>) -> bool
    ensures { result ≡ is_named node.now (option_copied announcer.entry) }
{
    match announcer {
        Some(announcer) => announcer == node,
        None => false,
    }
}

impl Machine for Speaker {
    ghost use Rattle.speaker_machine.specs.Stream.{SpeakerState, speaker_rules, IsCause};
    ghost use Rattle.speaker_machine.specs.Causes.{line_causes, end_causes};
    ghost use Rattle.speaker_machine.specs.declared.transcript.TranscriptEntry.{TranscriptEntry as SpeakerEntry};

    ghost State = { SpeakerState };

    ghost TranscriptEntry = { SpeakerEntry };

    ghost state = { λ speaker. speaker };

    ghost rules = { speaker_rules };

    ghost cause = { IsCause };

    // The line's event is applied to the view, and what comes of it is written.
    fn take<K: Sink>(&mut self, alloc: Global, line: Line, out: &mut K) -> Result<(), Refusal> {
        let event = event_of_line(alloc, line)?;
        let entries = apply_event(alloc, self, event)?;
        let written = write_entries(alloc, out, entries.as_slice());
        drop(entries);
        Ok(written?)
    }

    fn end(&self) -> Result<Status, NoMemory> {
        Ok(Status::Done)
    }

    ghost stops = { line_causes };

    ghost ends = { end_causes };
}
