//! Numbers of words.
ghost use Rattle.std.specs.Prelude.{◌≡◌, ◌^◌};
ghost use Rattle.controller_words.specs.Reading.{number_below, steps_of};

/// The most steps of a trial.
const MOST_STEPS: u64 = 100_000;

/// The number that the text writes in decimal, without sign or leading zeros.
pub(crate) fn number_of(text: &str) -> Option<u64>
    ensures { result ≡ number_below (2 ^ 64) text.now }
{
    if text.starts_with('+') || (text.len() > 1 && text.starts_with('0')) {
        return None;
    }
    text.parse::<u64>().ok()
}

/// The number of a trial's steps that the text writes so.
pub(crate) fn steps_of(text: &str) -> Option<u32>
    ensures { result ≡ steps_of text.now }
{
    match number_of(text) {
        Some(steps) if steps <= MOST_STEPS => u32::try_from(steps).ok(),
        _ => None,
    }
}
