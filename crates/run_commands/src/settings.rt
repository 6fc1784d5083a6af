//! What the words say that name no file.

ghost use Rattle.std.specs.Prelude.{◌≡◌, option_map, map, string_bytes};
ghost use Rattle.run_commands.specs.Settings.{setting_label, settings_view, unsaid};
ghost use Rattle.run_commands.specs.Words.{said, may_be_left_out, takes_all, all_left, all_said};

use crate::request::named;
use crate::table::{USAGES, Usage};
use artery_model::bounds::LEAST_SIGNALS;
use artery_model::is_name;
use description_reader::Reference;
use narrow_fraction::Frac;
use run_inputs::{Label, USUAL_WORK, are_spelled, limit_in, seed_in, signals_in};

/// What a word that names no file says.
#[derive(Clone, Copy)]
pub enum Setting {
    /// How many signals to make.
    Signals,
    /// The seed of what is made.
    Seed,
    /// The limit of the work, or `all`.
    Limit,
    /// The same, which may be left out at the end.
    Work,
    /// The cycles of a sweep: all words that are left.
    Cycles,
    /// Cycles in whole seconds: all words that are left, which may be none.
    WholeCycles,
    /// The title of a picture, which may be left out at the end.
    Title,
    /// The moment from which offsets count, which may be left out at the end.
    Reference,
    /// The word of a command, which may be left out at the end.
    Word,
}

pub const SIGNALS: Label = ("SIGNALS", "how many signals, 2 to 16");

pub const SEED: Label = ("SEED", "a number from 0 to 18446744073709551615");

pub const LIMIT: Label = (
    "WORK",
    "the most units of work of a search, 1 to 18446744073709551615, or all for no limit",
);

pub const WORK: Label = (
    "[WORK]",
    "as many units of work at most, 1 to 18446744073709551615, or all for no limit; 100000 where it is left out",
);

pub const CYCLES: Label = (
    "CYCLE ..",
    "1 to 100 cycles in seconds, each a whole number, a decimal or a fraction",
);

pub const WHOLE_CYCLES: Label = (
    "[CYCLE ..]",
    "1 to 100 cycles in whole seconds, 1 to 3600; where they are left out, all within the limits of the street, or the nearest 100",
);

pub const TITLE: Label = (
    "[TITLE]",
    "a title for the picture, 1 to 60 bytes without control characters",
);

pub const REFERENCE: Label = (
    "[REFERENCE]",
    "from which moment offsets count: red, green_out, green_in, first_green, end_out or end_in; red where it is left out",
);

pub const WORD: Label = ("[WORD]", "the first word of a command");

impl Setting {
    /// What stands for such a word in a usage, and what it is.
    pub fn label(self) -> Label
        ensures name { result.0.now ≡ (setting_label self).name }
        ensures text { result.1.now ≡ (setting_label self).text }
    {
        match self {
            Setting::Signals => SIGNALS,
            Setting::Seed => SEED,
            Setting::Limit => LIMIT,
            Setting::Work => WORK,
            Setting::Cycles => CYCLES,
            Setting::WholeCycles => WHOLE_CYCLES,
            Setting::Title => TITLE,
            Setting::Reference => REFERENCE,
            Setting::Word => WORD,
        }
    }
}

/// What the words say that name no file. What a command's row doesn't ask for is as where no word says it.
#[derive(Clone, Copy)]
pub struct Settings<'a> {
    /// The units of work that a search may spend, where there is a limit.
    pub limit: Option<u64>,
    /// How many signals to make.
    pub signals: u32,
    pub seed: u64,
    /// The words that spell the cycles of a sweep.
    pub cycles: &'a [String],
    /// The words that spell cycles in whole seconds.
    pub whole_cycles: &'a [String],
    pub title: Option<&'a str>,
    /// The moment from which offsets count.
    pub reference: Reference,
    /// The command that is asked about.
    pub about: Option<Usage>,
}

/// Where no word says them.
pub fn unsaid() -> Settings<'static>
    ensures { settings_view result ≡ unsaid }
{
    Settings {
        limit: Some(USUAL_WORK),
        signals: LEAST_SIGNALS as u32,
        seed: 0,
        cycles: &[],
        whole_cycles: &[],
        title: None,
        reference: Reference::Red,
        about: None,
    }
}

/// With this title, which is to be a name as those of signals are.
fn titled<'a>(title: &'a str, settings: Settings<'a>) -> Option<Settings<'a>>
    ensures { option_map settings_view result ≡ said Setting.Title title.now (settings_view settings.entry) }
{
    if is_name(title) {
        Some(Settings {
            title: Some(title),
            ..settings
        })
    } else {
        None
    }
}

/// With what this word says.
fn said<'a>(kind: Setting, word: &'a str, settings: Settings<'a>) -> Option<Settings<'a>>
    ensures { option_map settings_view result ≡ said kind word.now (settings_view settings.entry) }
{
    match kind {
        Setting::Signals => {
            let signals = signals_in(word)?;
            Some(Settings {
                signals,
                ..settings
            })
        }
        Setting::Seed => {
            let seed = seed_in(word)?;
            Some(Settings { seed, ..settings })
        }
        Setting::Limit | Setting::Work => {
            let limit = limit_in(word)?;
            Some(Settings { limit, ..settings })
        }
        Setting::Cycles | Setting::WholeCycles => None,
        Setting::Title => titled(word, settings),
        Setting::Reference => {
            let reference = Reference::named(word)?;
            Some(Settings {
                reference,
                ..settings
            })
        }
        Setting::Word => {
            let usage = named(&USAGES, word)?;
            Some(Settings {
                about: Some(usage),
                ..settings
            })
        }
    }
}

/// Whether it may be left out where it stands last.
fn may_be_left_out(kind: Setting) -> bool
    ensures { result ≡ may_be_left_out kind }
{
    match kind {
        Setting::Work
        | Setting::WholeCycles
        | Setting::Title
        | Setting::Reference
        | Setting::Word => true,
        Setting::Signals | Setting::Seed | Setting::Limit | Setting::Cycles => false,
    }
}

/// Whether it takes all words that are left.
fn takes_all(kind: Setting) -> bool
    ensures { result ≡ takes_all kind }
{
    match kind {
        Setting::Cycles | Setting::WholeCycles => true,
        Setting::Signals
        | Setting::Seed
        | Setting::Limit
        | Setting::Work
        | Setting::Title
        | Setting::Reference
        | Setting::Word => false,
    }
}

/// With the cycles that these words spell.
fn cycles_said<'a>(words: &'a [String], settings: Settings<'a>) -> Option<Settings<'a>>
    ensures { option_map settings_view result ≡ all_left Setting.Cycles (map string_bytes words.now) (settings_view settings.entry) }
{
    if are_spelled::<Frac>(words) {
        Some(Settings {
            cycles: words,
            ..settings
        })
    } else {
        None
    }
}

/// With the cycles in whole seconds that these words spell.
fn whole_cycles_said<'a>(words: &'a [String], settings: Settings<'a>) -> Option<Settings<'a>>
    ensures { option_map settings_view result ≡ all_left Setting.WholeCycles (map string_bytes words.now) (settings_view settings.entry) }
{
    if are_spelled::<u64>(words) {
        Some(Settings {
            whole_cycles: words,
            ..settings
        })
    } else {
        None
    }
}

/// With what all words that are left say.
fn all_left<'a>(kind: Setting, words: &'a [String], settings: Settings<'a>) -> Option<Settings<'a>>
    ensures { option_map settings_view result ≡ all_left kind (map string_bytes words.now) (settings_view settings.entry) }
{
    match kind {
        Setting::Cycles => cycles_said(words, settings),
        Setting::WholeCycles => whole_cycles_said(words, settings),
        _ => None,
    }
}

/// With what the words say: one for each kind, but for a last one that takes all or is left out.
pub fn all_said<'a>(
    kinds: &[Setting],
    words: &'a [String],
    settings: Settings<'a>,
) -> Option<Settings<'a>>
    ensures { option_map settings_view result ≡ all_said kinds.now (map string_bytes words.now) (settings_view settings.entry) }
{
    match kinds {
        [] => {
            if words.is_empty() {
                Some(settings)
            } else {
                None
            }
        }
        [kind, kinds @ ..] => match words {
            [word, rest @ ..] => {
                if takes_all(*kind) {
                    return all_left(*kind, words, settings);
                }
                let more = said(*kind, word.as_str(), settings)?;
                all_said(kinds, rest, more)
            }
            [] => {
                if may_be_left_out(*kind) && kinds.is_empty() {
                    Some(settings)
                } else {
                    None
                }
            }
        },
    }
}
