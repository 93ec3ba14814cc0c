//! The words of the command line.
ghost use Rattle.std.specs.Prelude.{◌≡◌, IfSome, IfNone};
ghost use Rattle.std.specs.Option.{option_map};
ghost use Rattle.command_options.specs.Options.{texts_of};
ghost use Rattle.controller_words.specs.Words.{Say, AreKnown};
ghost use Rattle.controller_words.specs.Reading.{asked_in, Given, with_option, with_class};
ghost use Rattle.controller_words.specs.Reading.{with_seed};
ghost use Rattle.controller_words.specs.Reading.{with_steps, with_config, with_service, finished};
ghost use Rattle.controller_words.specs.Seen.{asked_seen, given_seen};

use crate::numbers::{number_of, steps_of};
use command_options::{GivenLanes, LaneFiles, TakesOptions, lane_files, once_text, taken_options};

const CLASS_OPTION: &str = "--lb-class";

const TRIAL_OPTION: &str = "--trial";

const STEPS_OPTION: &str = "--steps";

const CONFIG_OPTION: &str = "--config-lane";

const SERVICE_OPTION: &str = "--service-lane";

/// What the words ask for.
#[derive(Clone, Copy)]
pub enum Asked<'a> {
    /// A run for the services of the class, a text that isn't empty; with none, for those that name
    /// none.
    Run {
        class: Option<&'a str>,
    },
    /// A trial of so many steps, 100000 at most, from the seed.
    Trial {
        seed: u64,
        steps: u32,
    },
    /// A run over two lane files, first that of the configuration, second that of the services, for
    /// the services of the class.
    Lanes {
        class: Option<&'a str>,
        files: LaneFiles<'a>,
    },
}

/// What options said so far.
#[derive(Clone, Copy)]
struct AskedSoFar<'a> {
    class: Option<&'a str>,
    seed: Option<u64>,
    steps: Option<u32>,
    lanes: GivenLanes<'a>,
}

/// What the words ask for, where they are of the controller's table.
///
/// The table: `--lb-class CLASS`, or nothing, for a run; `--config-lane FILE` and `--service-lane FILE`, both, of distinct names, beside
/// either for a run over these two files; `--trial SEED` and `--steps N` with nothing else for a trial. The seed is from 0 to 2^64 - 1, the
/// steps are from 0 to 100000, both decimal without sign or leading zeros. Options stand in any order, each at most once, in one word with
/// `=` or in two. `None` where the words aren't of the table. It takes no memory.
pub fn controller_words(words: &[String]) -> Option<Asked<'_>>
    ensures value { option_map asked_seen result ≡ asked_in (texts_of words.now) }

    // What is answered is what the words say, and nothing is where they aren't of the table.
    ensures said { IfSome result (λ asked. Say (texts_of words.now) (asked_seen asked)) }
    ensures unknown { IfNone result (¬ (AreKnown (texts_of words.now))) }
{
    read_words(words)
}

fn read_words(words: &[String]) -> Option<Asked<'_>>
    ensures { option_map asked_seen result ≡ asked_in (texts_of words.now) }
{
    let nothing = AskedSoFar {
        class: None,
        seed: None,
        steps: None,
        lanes: GivenLanes::new(),
    };
    finished(taken_options(words, nothing)?)
}

impl<'a> TakesOptions<'a> for AskedSoFar<'a> {
    ghost Said = { Given };

    ghost said = { given_seen };

    ghost step = { with_option };

    /// The option is given too, where it wasn't.
    fn with_option(self, name: &'a str, value: &'a str) -> Option<Self> {
        match name {
            CLASS_OPTION => with_class(self, value),
            TRIAL_OPTION => with_seed(self, value),
            STEPS_OPTION => with_steps(self, value),
            CONFIG_OPTION => with_config(self, value),
            SERVICE_OPTION => with_service(self, value),
            _ => None,
        }
    }
}

fn with_class<'a>(given: AskedSoFar<'a>, value: &'a str) -> Option<AskedSoFar<'a>>
    ensures { option_map given_seen result ≡ with_class value.now (given_seen given.entry) }
{
    Some(AskedSoFar {
        class: Some(once_text(given.class, value)?),
        ..given
    })
}

fn with_seed<'a>(given: AskedSoFar<'a>, value: &str) -> Option<AskedSoFar<'a>>
    ensures { option_map given_seen result ≡ with_seed value.now (given_seen given.entry) }
{
    match given.seed {
        Some(_) => None,
        None => Some(AskedSoFar {
            seed: Some(number_of(value)?),
            ..given
        }),
    }
}

fn with_steps<'a>(given: AskedSoFar<'a>, value: &str) -> Option<AskedSoFar<'a>>
    ensures { option_map given_seen result ≡ with_steps value.now (given_seen given.entry) }
{
    match given.steps {
        Some(_) => None,
        None => Some(AskedSoFar {
            steps: Some(steps_of(value)?),
            ..given
        }),
    }
}

fn with_config<'a>(given: AskedSoFar<'a>, value: &'a str) -> Option<AskedSoFar<'a>>
    ensures { option_map given_seen result ≡ with_config value.now (given_seen given.entry) }
{
    Some(AskedSoFar {
        lanes: given.lanes.with_first(value)?,
        ..given
    })
}

fn with_service<'a>(given: AskedSoFar<'a>, value: &'a str) -> Option<AskedSoFar<'a>>
    ensures { option_map given_seen result ≡ with_service value.now (given_seen given.entry) }
{
    Some(AskedSoFar {
        lanes: given.lanes.with_second(value)?,
        ..given
    })
}

fn finished(given: AskedSoFar<'_>) -> Option<Asked<'_>>
    ensures { option_map asked_seen result ≡ finished (given_seen given.entry) }
{
    let lanes = lane_files(given.lanes.first, given.lanes.second)?;
    match (given.class, given.seed, given.steps, lanes) {
        (class, None, None, None) => Some(Asked::Run { class }),
        (class, None, None, Some(files)) => Some(Asked::Lanes { class, files }),
        (None, Some(seed), Some(steps), None) => Some(Asked::Trial { seed, steps }),
        _ => None,
    }
}
