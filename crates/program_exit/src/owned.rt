//! A word that is kept.
ghost use Rattle.std.specs.Prelude.{◌≡◌, IfOk};
ghost use Rattle.std.specs.Option.{option_map};

use kube_labels::Text;
use mlb_base::NoMemory;
use std::alloc::Global;

/// The word, if there is one, as a text of its own.
pub fn owned_word(alloc: Global, word: Option<&str>) -> Result<Option<Text>, NoMemory>
    ensures { IfOk result (λ text. text ≡ option_map (λ w. w.now) word.entry) }
{
    let Some(word) = word else {
        return Ok(None);
    };
    Ok(Some(Text::new(alloc, word)?))
}
