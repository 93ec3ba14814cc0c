//! A responder that answers beside the writer, and what its answers are once both have ended.
ghost use Rattle.std.specs.Prelude.{◌≡◌, ◌++◌, ◌∷◌, ◌≤◌, List, [], fold, length, IfSome, IsTrue};
ghost use mathlib.Core.List.{IsPrefix};
ghost use Rattle.shown_board.specs.Replies.{AreReplies, AreAnswered};

use crate::follower::{Follower, Question, Reply};
use crate::posted::{Post, Posted};
use crate::responder::Responder;
use crate::writer::{BoardWriter, board};
use growing_list::{Beginning, Naming, Opened};
use std::alloc::Global;
use std::sync::Wait;
use std::thread::{Threads, join};

/// The answers to all questions, one after the other, unless one isn't answered or memory is
/// wanting.
pub fn answer_all<T: Follower<E>, E: Drop, J: Naming, Q: Question<T>>(
    alloc: Global,
    responder: &mut Responder<T, E, J>,
    questions: &[Q],
) -> Option<Vec<Reply<Q::Answer>>>
    ensures { IfSome result (λ replies. AreReplies T.after T.start Q.answers responder.old.seen
        questions.now replies.items responder.new.seen) }
{
    let mut replies = Vec::new(alloc);
    for question in questions {
        replies.reserve(1).ok()?;
        replies.push_reserved(responder.respond(question)?);
    }
    Some(replies)
}

/// Appends and publishes each of the events, and tells whether there was memory for all.
pub fn publish_all<P: Post<E, J>, E: Drop, J: Naming, R: Wait>(
    rt: &R,
    writer: &mut BoardWriter<P, E, J>,
    events: Vec<E>,
) -> bool
    requires fresh { (writer.old.published ≡ []) × (writer.old.pending ≡ []) }
    ensures { IsTrue result → writer.new.published ≡ events.items }
{
    for event in events {
        if !publish_one(rt, writer, event) {
            return false;
        }
    }
    true
}

/// Appends and publishes the event, behind which nothing else is pending then.
fn publish_one<P: Post<E, J>, E: Drop, J: Naming, R: Wait>(
    rt: &R,
    writer: &mut BoardWriter<P, E, J>,
    event: E,
) -> bool
    requires { writer.old.pending ≡ [] }
    ensures { IsTrue result → (writer.new.published ≡ writer.old.published ++ event ∷ [])
        × (writer.new.pending ≡ []) }
{
    match writer.append(event) {
        Ok(()) => writer.publish(rt).is_ok(),
        Err(back) => {
            drop(back);
            false
        }
    }
}

/// The answers, and what was seen for them.
fn read<T: Follower<E>, E: Drop, J: Naming, Q: Question<T>>(
    alloc: Global,
    mut responder: Responder<T, E, J>,
    questions: &[Q],
) -> Option<(Beginning<E, J>, Vec<Reply<Q::Answer>>)>
    ensures { IfSome result (λ r. AreReplies T.after T.start Q.answers responder.seen questions.now
        r.1.items r.0) }
{
    let read = match answer_all(alloc, &mut responder, questions) {
        Some(replies) => Some((responder.seen(), replies)),
        None => None,
    };
    drop(responder);
    read
}

/// All that is published, where there was memory for all of the events.
fn write<P: Post<E, J>, E: Drop, J: Naming, R: Wait>(
    rt: &R,
    writer: &mut BoardWriter<P, E, J>,
    events: Vec<E>,
) -> Option<Beginning<E, J>>
    requires fresh { (writer.old.published ≡ []) × (writer.old.pending ≡ []) }
    ensures { IfSome result (λ all. all ≡ events.items) }
{
    if publish_all(rt, writer, events) {
        Some(writer.tell())
    } else {
        None
    }
}

/// One thread publishes the events, each by itself, while another answers the questions. Each
/// answer is by the value after some first ones of the events, of which there are never fewer than
/// before. `None` says that memory was wanting, or that a question wasn't answered.
pub fn answer_beside<
    T: Follower<E> + Send + Sync,
    E: Drop + Send + Sync,
    J: Naming + Send + Sync,
    Q: Question<T> + Sync,
    R: Threads + Wait + Sync,
>(
    rt: &R,
    alloc: Global,
    opened: Opened<E>,
    first: T,
    second: T,
    events: Vec<E>,
    questions: &[Q],
) -> Option<Vec<Reply<Q::Answer>>>
where
    Q::Answer: Send,
    requires book { opened.seen.book ≡ J.book }
    requires start { (first ≡ T.start) × (second ≡ T.start) }
    ensures { IfSome result (λ replies. AreAnswered T.after T.start Q.answers events.items 0
        questions.now replies.items) }
{
    let (mut writer, responder) = match board::<T, E, J, R>(rt, alloc, opened, first, second) {
        Ok(sides) => sides,
        Err(_) => {
            drop(events);
            return None;
        }
    };
    let (read, written) = join(
        rt,
        || -> Option<(Beginning<E, J>, Vec<Reply<Q::Answer>>)>
            ensures { IfSome result (λ r. AreReplies T.after T.start Q.answers responder.seen
                questions.entry.now r.1.items r.0) }
        { read(alloc, responder, questions) },
        || -> Option<Beginning<E, J>>
            requires { (writer.published ≡ []) × (writer.pending ≡ []) }
            ensures { IfSome result (λ all. all ≡ events.items) }
        { write(rt, &mut writer, events) },
    );
    writer.end(rt);
    known::<T, E, J, Q>(read, written)
}

/// The replies, where what was seen for them begins what was written.
fn known<T: Follower<E>, E: Drop, J: Naming, Q: Question<T>>(
    read: Option<(Beginning<E, J>, Vec<Reply<Q::Answer>>)>,
    written: Option<Beginning<E, J>>,
) -> Option<Vec<Reply<Q::Answer>>>
    ensures { (questions : List Q) (events : List E)
        → IfSome read (λ r. AreReplies T.after T.start Q.answers [] questions r.1.items r.0)
        → IfSome written (λ all. all ≡ events)
        → IfSome result (λ replies. AreAnswered T.after T.start Q.answers events 0 questions
        replies.items) }
{
    let (seen, replies) = read?;
    if !seen.begins(&written?) {
        return None;
    }
    Some(replies)
}
