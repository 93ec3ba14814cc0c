//! What the words of the command line ask for.
ghost use Rattle.std.specs.Prelude.{◌≡◌, ◌∷◌, OnSome, IfSome, IfNone};
ghost use Rattle.command_options.specs.Options.{texts_of};
ghost use Rattle.admit_run.specs.Words.{AreKnown, begun_by, explained_by, asked_by};

use pool_config::ObjectSet;
use std::alloc::Global;

/// What a run does.
#[derive(Drop)]
pub(crate) enum Work {
    /// Answers reviews by the objects that watch lines show.
    Judging { objects: ObjectSet },
    /// Says of each line what it is read as.
    Explaining,
}

/// What the one word asks for.
fn explained_by(word: &str) -> Option<Work>
    ensures { result ≡ explained_by word.now }
{
    match word {
        "--explain" => Some(Work::Explaining),
        _ => None,
    }
}

fn asked_first(word: &str, rest: &[String]) -> Option<Work>
    ensures { result ≡ asked_by (word.now ∷ texts_of rest.now) }
{
    let [_other, _more @ ..] = rest else {
        return explained_by(word);
    };
    None
}

fn asked_by(alloc: Global, words: &[String]) -> Option<Work>
    ensures { result ≡ asked_by (texts_of words.now) }
{
    let [word, rest @ ..] = words else {
        return Some(Work::Judging {
            objects: ObjectSet::new(alloc),
        });
    };
    asked_first(word.as_str(), rest)
}

/// The work that a run begins with: no word asks for answers to reviews, `--explain` for what the
/// lines are read as. `None` where the words aren't of the table.
#[tactic(auto, using(crate::proofs::Asked::known_where, crate::proofs::Asked::begun_where, crate::proofs::Asked::unknown_where))]
pub(crate) fn work_asked(alloc: Global, words: &[String]) -> Option<Work>
    ensures known { OnSome result (AreKnown (texts_of words.now)) }
    ensures begun { IfSome result (λ work. work ≡ begun_by (texts_of words.now)) }
    ensures unknown { IfNone result (¬ (AreKnown (texts_of words.now))) }
{
    asked_by(alloc, words)
}
