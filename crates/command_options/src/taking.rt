//! What options say, taken one after the other.
ghost use Rattle.std.specs.Prelude.{◌≡◌, ℕ, List, Option, Some};
ghost use Rattle.std.specs.Option.{option_map};
ghost use Rattle.command_options.specs.Options.{texts_of};
ghost use Rattle.command_options.specs.Values.{once, text_of, taken_in};

use crate::options::first_option;

/// What options said so far.
pub trait TakesOptions<'a>: Sized {
    // What was said, as contracts see it.
    ghost Said: { Type 0 };

    ghost said: { Self → Said };

    // What an option's name and value make of it, where the option is taken.
    ghost step: { List ℕ → List ℕ → Said → Option Said };

    /// The option is taken too. `None` where it can't be.
    fn with_option(self, name: &'a str, value: &'a str) -> Option<Self>
        ensures taken { option_map said result ≡ step name.now value.now (said self) };
}

/// What is said once the options that the words are have been taken, one after the other. `None`
/// where the words aren't options, or where one can't be taken. It takes no memory of its own.
pub fn taken_options<'a, G: TakesOptions<'a> + Drop>(words: &'a [String], given: G) -> Option<G>
    ensures taken { option_map G.said result ≡ taken_in G.step (texts_of words.now) (G.said given) }
{
    let mut given = given;
    let mut rest = words;
    'options: while !rest.is_empty() {
        let option = first_option(rest)?;
        given = given.with_option(option.name, option.value)?;
        rest = option.rest;
    }
    Some(given)
}

/// The value of an option that stands at most once. `None` where one was held.
pub fn once_text<'a>(held: Option<&str>, value: &'a str) -> Option<&'a str>
    ensures once { option_map (λ t. Some t.now) result
        ≡ once text_of value.now (option_map (λ t. t.now) held.entry) }
{
    match held {
        Some(_) => None,
        None => Some(value),
    }
}
