//! The first option of some words.
ghost use Rattle.std.specs.Prelude.{◌≡◌, ◌<◌, IfSome, length};
ghost use Rattle.std.specs.Option.{option_map};
ghost use Rattle.command_options.specs.Options.{texts_of, first_of, joined_first, apart_first};
ghost use Rattle.command_options.specs.Seen.{seen};

/// An option, and the words after it.
#[derive(Clone, Copy)]
pub struct FirstOption<'a> {
    pub name: &'a str,
    /// A text that isn't empty.
    pub value: &'a str,
    pub rest: &'a [String],
}

/// The first option of the words: `NAME=VALUE` in one word, which is split at its first `=`, or
/// `NAME` and `VALUE` in two words, where the value doesn't begin with `-`. A value isn't empty.
/// `None` where the words don't begin so. It takes no memory.
pub fn first_option(words: &[String]) -> Option<FirstOption<'_>>
    ensures first { option_map seen result ≡ first_of (texts_of words.now) }
    ensures shorter { IfSome result (λ o. length o.rest.now < length words.now) }
{
    let [word, rest @ ..] = words else {
        return None;
    };
    match word.as_str().split_once('=') {
        Some((name, value)) => joined(name, value, rest),
        None => apart(word.as_str(), rest),
    }
}

fn joined<'a>(name: &'a str, value: &'a str, rest: &'a [String]) -> Option<FirstOption<'a>>
    ensures first { option_map seen result ≡ joined_first name.now value.now (texts_of rest.now) }
    ensures rest { IfSome result (λ o. length o.rest.now ≡ length rest.now) }
{
    if value.is_empty() {
        return None;
    }
    Some(FirstOption { name, value, rest })
}

fn apart<'a>(name: &'a str, words: &'a [String]) -> Option<FirstOption<'a>>
    ensures first { option_map seen result ≡ apart_first name.now (texts_of words.now) }
    ensures shorter { IfSome result (λ o. length o.rest.now < length words.now) }
{
    let [value, rest @ ..] = words else {
        return None;
    };
    let value = value.as_str();
    if value.is_empty() || value.starts_with('-') {
        return None;
    }
    Some(FirstOption { name, value, rest })
}
