//! A view, as what follows events and answers frames.
ghost use Rattle.std.specs.Prelude.{◌≡◌, IfOk, OnOk, OnErr};
ghost use Rattle.speaker_view.specs.View.{fresh, view_after};
ghost use Rattle.l2_elect.specs.Kept.{AreKeptFor, AreKnown, WereKept};
ghost use Rattle.view_board.specs.Answers.{AreRightIfKnown};

use kube_labels::Text;
use kube_model::Event;
use l2_elect::Announcers;
use mlb_base::{NoMemory, TryCopy};
use object_cache::ApplyFault;
use shown_board::{Follower, Naming};
use speaker_view::{View, ViewChange};
use std::alloc::{AllocError, Global};
use std::marker::{Brand, Model, PhantomData};

/// Which board it is, and the class of the services that its view announces
/// (`spec.loadBalancerClass`), or those without one. Each call of a program picks both.
pub trait Classed: Naming {
    ghost use Rattle.std.specs.Prelude.{ℕ, List, Option};

    ghost class: { Option (List ℕ) };
}

impl Classed for Brand {
    ghost use Rattle.std.specs.Prelude.{None};

    ghost class = { None };
}

/// A view of the services of J's class, with who announces each address by it where that is known.
/// Contracts see the view.
#[derive(Drop)]
pub struct ElectedView<J: Classed> {
    alloc: Global,
    pub(crate) view: View,
    // not known before the first event, nor where memory was wanting for it
    pub(crate) announcers: Option<Announcers>,
    of: PhantomData<J>,
}

impl<J: Classed> Model for ElectedView<J> {
    ghost use Rattle.speaker_view.specs.ViewValue.{ViewValue};
    ghost use Rattle.l2_elect.specs.Kept.{AreKnown};

    ghost Value = { ViewValue };

    ghost view = { λ e. e.view };

    ghost invariant = { λ e. AreKnown e.announcers e.view };
}

impl<J: Classed> ElectedView<J> {
    /// The view of nothing, for the services of this class. It takes no memory.
    pub(crate) fn new(alloc: Global, class: Option<Text>) -> ElectedView<J>
        requires { class ≡ J.class }
        ensures { result ≡ fresh J.class }
    {
        ElectedView {
            alloc,
            view: View::new(alloc, class),
            announcers: None,
            of: PhantomData,
        }
    }

    /// Applies the event. After a refusal the view is unchanged.
    fn apply(&mut self, event: Event) -> Result<(), ApplyFault>
        ensures ok { OnOk result (self.new ≡ view_after event self.old) }
        ensures err { OnErr result (self.new ≡ self.old) }
    {
        // While the view changes, the announcers aren't known to be those of it.
        let known = self.announcers.take();
        match self.view.apply_noting(event) {
            Ok((note, change)) => {
                drop(note);
                let announcers = renewed(self.alloc, known, &self.view, &change);
                drop(change);
                self.announcers = announcers;
                Ok(())
            }
            Err(fault) => {
                self.announcers = known;
                Err(fault)
            }
        }
    }
}

impl<J: Classed> Follower<Event> for ElectedView<J> {
    ghost use Rattle.speaker_view.specs.View.{fresh, view_after};

    ghost start = { fresh J.class };

    ghost after = { λ view event. view_after event view };

    // An event that would pass a limit is refused: whoever appends it asks a view of its own first.
    fn follow(&mut self, event: &Event) -> Result<(), AllocError> {
        let Ok(event) = event.copy() else {
            return Err(AllocError);
        };
        match self.apply(event) {
            Ok(()) => Ok(()),
            Err(fault) => {
                drop(fault);
                Err(AllocError)
            }
        }
    }
}

/// The announcers by the view as it is after the change, if there is memory to know them: where
/// they were known before it, those that it moves are elected alone.
fn renewed(
    alloc: Global,
    known: Option<Announcers>,
    view: &View,
    change: &ViewChange,
) -> Option<Announcers>
    requires { AreRightIfKnown change.now known view.now }
    ensures { AreKnown result view.now }
{
    let elected = match known {
        Some(announcers) => moved(announcers, view, change),
        None => rebuilt(Announcers::new(alloc), view),
    };
    match elected {
        Ok(announcers) => Some(announcers),
        Err(NoMemory) => None,
    }
}

/// Makes the announcers those of the view.
fn rebuilt(mut announcers: Announcers, view: &View) -> Result<Announcers, NoMemory>
    ensures { IfOk result (λ elected. AreKeptFor elected view.now) }
{
    announcers.rebuild(view)?;
    Ok(announcers)
}

/// The same, where they were those of the view before.
fn moved(
    mut announcers: Announcers,
    view: &View,
    change: &ViewChange,
) -> Result<Announcers, NoMemory>
    requires { WereKept change.now announcers view.now }
    ensures { IfOk result (λ elected. AreKeptFor elected view.now) }
{
    let moves = announcers.moves(view, change)?;
    announcers.make(moves)?;
    Ok(announcers)
}
