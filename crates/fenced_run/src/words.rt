//! The words of the command line.
ghost use Rattle.std.specs.Prelude.{◌≡◌, IfSome, IfNone};
ghost use Rattle.std.specs.Option.{option_map};
ghost use Rattle.command_options.specs.Options.{is_value, texts_of};
ghost use Rattle.fenced_run.specs.Words.{AreKnown, Say, asks_for_fence, class_in, said_in};
ghost use Rattle.fenced_run.specs.Words.{said_seen};

const FENCE_OPTION: &str = "--fence";

const CLASS_OPTION: &str = "--lb-class";

/// A run behind the fence of this name, for the services of the class, or for those that name none.
#[derive(Clone, Copy)]
pub(crate) struct FenceWords<'a> {
    pub(crate) name: &'a str,
    pub(crate) class: Option<&'a str>,
}

/// Whether the first word is `--fence`: then the words ask for a run behind a fence, or for
/// nothing.
pub fn asks_for_fence(words: &[String]) -> bool
    ensures { result ≡ asks_for_fence (texts_of words.now) }
{
    match words {
        [option, ..] => option.as_str() == FENCE_OPTION,
        [] => false,
    }
}

/// Whether a name or a class may stand so, in a word of its own.
fn is_value(text: &str) -> bool
    ensures { result ≡ is_value text.now }
{
    !text.is_empty() && !text.starts_with('-')
}

/// The class that the words after the name ask for, where they are of the table.
fn class_in(words: &[String]) -> Option<Option<&str>>
    ensures { option_map (λ class. option_map (λ c. c.now) class) result
        ≡ class_in (texts_of words.now) }
{
    match words {
        [] => Some(None),
        [option, class] if option.as_str() == CLASS_OPTION && is_value(class.as_str()) => {
            Some(Some(class.as_str()))
        }
        _ => None,
    }
}

fn read_words(words: &[String]) -> Option<FenceWords<'_>>
    ensures { option_map said_seen result ≡ said_in (texts_of words.now) }
{
    let [option, name, rest @ ..] = words else {
        return None;
    };
    let name = name.as_str();
    if option.as_str() != FENCE_OPTION || !is_value(name) {
        return None;
    }
    let class = class_in(rest)?;
    Some(FenceWords { name, class })
}

/// What the words ask for, where they are of the table: `--fence NAME`, or `--fence NAME --lb-class
/// CLASS`, where neither is empty or begins with `-`.
pub(crate) fn fence_words(words: &[String]) -> Option<FenceWords<'_>>
    ensures said { IfSome result (λ said. Say (texts_of words.now) said.name.now
        (option_map (λ c. c.now) said.class)) }
    ensures unknown { IfNone result (¬ (AreKnown (texts_of words.now))) }
{
    read_words(words)
}
