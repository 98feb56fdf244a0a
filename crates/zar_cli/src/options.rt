// The options of a command.

ghost use Rattle.std.specs.Prelude.{◌≡◌, ◌+◌, ◌^◌, ◌<◌, ◌≤◌, [], ◌∷◌, length, map, option_map, take, None, IfSome};
ghost use Rattle.std.specs.List.{list_all};
ghost use Rattle.gcl_core.specs.meaning.LimitRange.{InRange};
ghost use Rattle.gcl_core.specs.text.Names.{value_named};
ghost use Rattle.zar_io.specs.declared.stream_bits.TheConstants.{MOST_BUDGET};
ghost use Rattle.zar_cli.specs.OptionWords.{excludes, bars, is_alone, is_barred, form_behind, wrong_behind, words_of, wrong_option};
ghost use Rattle.zar_cli.specs.OptionWords.{value_of, is_given, number_given, number_or, limits_of, cost_limits, has_source, no_options, range_of, is_range, wanted};
ghost use Rattle.stream_runs.specs.Ranges.{IsWorkers};
ghost use Rattle.zar_cli.specs.inner.OptionsView.{options_of, IsIn};

use crate::keys::key_named;
use crate::settings::{
    ATTEMPTS, BITS, BUDGET, FROM, Form, HOW_LONG, ROUNDS, SEED, STREAM, Setting, TO, TURNS,
    USUAL_BUDGET, USUAL_LIMIT, USUAL_MASS_TURNS, USUAL_WORKERS, WANT, WORKERS,
};
use gcl_core::{Limits, TallyKey, number_in, value_named};
use stream_runs::{MOST_STREAMS, SeedRange};

/// The options that a command was given: those that it takes, and the words that give some of them.
#[derive(Clone, Copy)]
pub struct Options<'a> {
    pub takes: &'a [Setting],
    pub words: &'a [String],
}

/// The limits of a run where no option is given.
pub fn usual_limits() -> Limits
    ensures limits { result ≡ limits_of no_options }
    ensures range { InRange result }
{
    Options {
        takes: &[],
        words: &[],
    }
    .limits()
}

// No value is behind an option of this form.
fn is_alone(form: Option<Form>) -> bool
    ensures { result ≡ is_alone form }
{
    matches!(form, Some(Form::Alone))
}

// Bits of a file and bits of a stream exclude each other, and so do how long a run takes and a limit.
fn excludes(name: &str, other: &str) -> bool
    ensures { result ≡ excludes name.now other.now }
{
    (BITS.0 == name && (SEED.0 == other || STREAM.0 == other || BUDGET.0 == other))
        || (HOW_LONG.0 == name && (TURNS.0 == other || ATTEMPTS.0 == other || ROUNDS.0 == other))
}

// One option rules out the other, which may be the same.
fn bars(other: &str, name: &str) -> bool
    ensures { result ≡ bars other.now name.now }
{
    other == name || excludes(other, name) || excludes(name, other)
}

// How many words an option has.
fn words_of(value: Option<&str>) -> u32
    ensures { result ≡ words_of (option_map (λ w. w.now) value.entry) }
{
    match value {
        None => 1,
        Some(_) => 2,
    }
}

// How many words from the name on the wrong one stands, by the form of the value.
fn wrong_behind(form: Option<Form>, value: Option<&str>) -> Option<u32>
    ensures behind { result ≡ wrong_behind form (option_map (λ w. w.now) value.entry) }
    ensures few { IfSome result (λ k. k ≤ 1) }
{
    match (form, value) {
        (None, _) => Some(0),
        (Some(Form::Alone), None) => None,
        (Some(_), None) => Some(1),
        (Some(form), Some(value)) if form.number(value).is_some() => None,
        (Some(_), Some(_)) => Some(1),
    }
}

impl<'a> Options<'a> {
    /// The first option: its name; the word behind it, unless it stands alone or is the last word; and the options that follow.
    pub fn first(self) -> Option<(&'a str, Option<&'a str>, Options<'a>)>
        ensures none { result ≡ None → options_of self.entry ≡ [] }
        ensures some { IfSome result (λ r. options_of self.entry ≡ (r.0.now, option_map (λ w. w.now) r.1) ∷ options_of r.2) }
        ensures takes { IfSome result (λ r. r.2.takes ≡ self.entry.takes) }
        ensures words { IfSome result (λ r.
            length self.entry.words.now ≡ words_of (option_map (λ w. w.now) r.1) + length r.2.words.now) }
    {
        match self.words {
            [] => None,
            [name] => Some((name.as_str(), None, self.behind(&self.words[1..]))),
            [name, value, rest @ ..] => {
                if is_alone(value_named(self.takes, name.as_bytes())) {
                    Some((name.as_str(), None, self.behind(&self.words[1..])))
                } else {
                    Some((name.as_str(), Some(value.as_str()), self.behind(rest)))
                }
            }
        }
    }

    // The options of other words.
    fn behind(self, words: &'a [String]) -> Options<'a>
        ensures { (result.takes ≡ self.entry.takes) × (result.words ≡ words.entry) }
    {
        Options {
            takes: self.takes,
            words,
        }
    }

    // One of the first options, so many, rules this one out.
    fn is_barred(self, mut count: usize, name: &str) -> bool
        ensures { result ≡ is_barred name.now (take count (options_of self.entry)) }
    {
        let mut options = self;
        while count > 0 {
            let Some((other, _, rest)) = options.first() else {
                return false;
            };
            if bars(other, name) {
                return true;
            }
            options = rest;
            count -= 1;
        }
        false
    }

    // The form of the value behind this option, where it is one of these and none of the first options, so many, rules it out.
    fn form_behind(self, count: usize, name: &str) -> Option<Form>
        ensures { result ≡ form_behind (map (λ s. (s.0.now, s.1)) self.entry.takes.now) (take count (options_of self.entry)) name.now }
    {
        if self.is_barred(count, name) {
            None
        } else {
            value_named(self.takes, name.as_bytes())
        }
    }

    /// The place of the first wrong word, where the options begin at place 2.
    pub(crate) fn wrong(self) -> Option<u32>
        requires { 2 + length self.words.now < 2 ^ 32 }
        ensures { result ≡ wrong_option (map (λ s. (s.0.now, s.1)) self.entry.takes.now) 2 [] (options_of self.entry) }
    {
        let mut at = 2;
        let mut count = 0;
        let mut options = self;
        while let Some((name, value, rest)) = options.first() {
            match wrong_behind(self.form_behind(count, name), value) {
                Some(behind) => return Some(at + behind),
                None => at += words_of(value),
            }
            count += 1;
            options = rest;
        }
        None
    }

    // What stands behind an option, where it is given.
    fn named(self, word: &str) -> Option<Option<&'a str>>
        ensures { option_map (λ value. option_map (λ w. w.now) value) result ≡ value_named (options_of self.entry) word.now }
    {
        let mut options = self;
        while let Some((name, value, rest)) = options.first() {
            if word == name {
                return Some(value);
            }
            options = rest;
        }
        None
    }

    /// The word behind an option, where the option is given and a word is behind it.
    pub(crate) fn value_of(self, word: &str) -> Option<&'a str>
        ensures { option_map (λ word. word.now) result ≡ value_of word.now (options_of self.entry) }
    {
        match self.named(word) {
            Some(value) => value,
            None => None,
        }
    }

    /// The option is given.
    pub(crate) fn is_given(self, setting: Setting) -> bool
        ensures { result ≡ is_given (setting.entry.0.now, setting.entry.1) (options_of self.entry) }
    {
        self.named(setting.0).is_some()
    }

    /// Each of these is given.
    pub(crate) fn are_given(self, mut settings: &[Setting]) -> bool
        ensures { result ≡ list_all (λ s. is_given s (options_of self.entry)) (map (λ s. (s.0.now, s.1)) settings.entry.now) }
    {
        while let [setting, rest @ ..] = settings {
            if !self.is_given(*setting) {
                return false;
            }
            settings = rest;
        }
        true
    }

    /// The number behind an option, where it is given.
    pub(crate) fn number(self, setting: Setting) -> Option<u64>
        ensures number { result ≡ number_given (setting.entry.0.now, setting.entry.1) (options_of self.entry) }
        ensures range { IfSome result (IsIn setting.entry.1) }
    {
        let word = self.value_of(setting.0)?;
        match setting.1 {
            Form::Number(least, most) => number_in(least, most, word),
            Form::Name | Form::Wanted | Form::Weights | Form::Alone => None,
        }
    }

    /// The number behind an option, or the usual where it is not given.
    pub(crate) fn number_or(self, usual: u64, setting: Setting) -> u64
        requires range { IsIn setting.1 usual }
        ensures number { result ≡ number_or usual (setting.entry.0.now, setting.entry.1) (options_of self.entry) }
        ensures range { IsIn setting.entry.1 result }
    {
        match self.number(setting) {
            Some(number) => number,
            None => usual,
        }
    }

    /// It is given where bits come from.
    pub(crate) fn has_source(self) -> bool
        ensures { result ≡ has_source (options_of self.entry) }
    {
        self.is_given(BITS) || self.is_given(SEED)
    }

    /// The streams that are gone through.
    pub(crate) fn range(self) -> SeedRange
        ensures range { result ≡ range_of (options_of self.entry) }
        ensures budget { result.budget ≤ MOST_BUDGET }
        ensures workers { IsWorkers result.workers }
    {
        SeedRange {
            seed: self.number_or(0, SEED),
            from: self.number_or(0, FROM),
            to: self.number_or(0, TO),
            budget: self.number_or(USUAL_BUDGET, BUDGET),
            workers: self.number_or(USUAL_WORKERS, WORKERS) as u32,
        }
    }

    /// The streams are in order, and no more than can be.
    pub(crate) fn has_range(self) -> bool
        ensures { result ≡ is_range (range_of (options_of self.entry)) }
    {
        let range = self.range();
        range.from <= range.to && range.to - range.from <= MOST_STREAMS
    }

    /// The way to end that a hunt wants.
    pub(crate) fn wanted(self) -> TallyKey
        ensures { result ≡ wanted (options_of self.entry) }
    {
        match self.value_of(WANT.0) {
            Some(word) => key_named(word).unwrap_or(TallyKey::MoreBits),
            None => TallyKey::MoreBits,
        }
    }

    /// The limits of a run, each the usual where it is not given.
    pub(crate) fn limits(self) -> Limits
        ensures limits { result ≡ limits_of (options_of self.entry) }
        ensures range { InRange result }
    {
        Limits {
            turns: self.number_or(USUAL_LIMIT, TURNS),
            attempts: self.number_or(USUAL_LIMIT, ATTEMPTS),
            rounds: self.number_or(USUAL_LIMIT, ROUNDS),
        }
    }

    /// The limits of expected bits, if one of attempts and one of rounds are given.
    pub(crate) fn cost_limits(self) -> Option<Limits>
        ensures limits { result ≡ cost_limits (options_of self.entry) }
        ensures range { IfSome result InRange }
    {
        let attempts = self.number(ATTEMPTS)?;
        let rounds = self.number(ROUNDS)?;
        Some(Limits {
            turns: self.number_or(USUAL_MASS_TURNS, TURNS),
            attempts,
            rounds,
        })
    }
}
