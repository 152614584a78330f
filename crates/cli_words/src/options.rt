//! `Options`, the options of a command with their values.
ghost use Rattle.std.specs.Prelude.{◌≡◌, true, is_none};
ghost use Rattle.cli_words.specs.Table.{option_row};
ghost use Rattle.cli_words.specs.Command.{is_given, with_given, has_conflict, part_of};
ghost use Rattle.cli_words.specs.Reading.{is_in_range};

use crate::table::OptionWord;
use record_text::ShowPart;

/// The options that were given, with their values.
#[derive(Clone, Copy, Debug, PartialEq, Eq)]
pub struct Options {
    /// 1 to 64.
    pub workers: Option<u32>,
    pub seed: Option<u64>,
    /// 1 to 1,000,000.
    pub cycle: Option<u32>,
    pub reports: bool,
    pub dissent: bool,
    pub strict: bool,
    pub json: bool,
}

/// No option is given.
pub const NOTHING_GIVEN: Options = Options {
    workers: None,
    seed: None,
    cycle: None,
    reports: false,
    dissent: false,
    strict: false,
    json: false,
};

impl Options {
    /// Whether an option is given.
    pub(crate) fn has(&self, option: OptionWord) -> bool
        ensures { result ≡ is_given option self.now }
    {
        match option {
            OptionWord::Workers => self.workers.is_some(),
            OptionWord::Seed => self.seed.is_some(),
            OptionWord::Cycle => self.cycle.is_some(),
            OptionWord::Reports => self.reports,
            OptionWord::Dissent => self.dissent,
            OptionWord::Strict => self.strict,
            OptionWord::Json => self.json,
        }
    }

    /// Sets an option that takes a value. The value is in the option's range, so it fits.
    pub(crate) fn with_value(mut self, option: OptionWord, value: u64) -> Options
        requires { is_in_range (option_row option).range value ≡ true }
        ensures { result ≡ with_given option value self }
    {
        match option {
            OptionWord::Workers => self.workers = Some(value as u32),
            OptionWord::Seed => self.seed = Some(value),
            OptionWord::Cycle => self.cycle = Some(value as u32),
            OptionWord::Reports => self.reports = true,
            OptionWord::Dissent => self.dissent = true,
            OptionWord::Strict => self.strict = true,
            OptionWord::Json => self.json = true,
        }
        self
    }

    /// Sets an option that takes no value.
    pub(crate) fn with_flag(mut self, option: OptionWord) -> Options
        requires { is_none (option_row option).range ≡ true }
        ensures { result ≡ with_given option 0 self }
    {
        match option {
            OptionWord::Reports => self.reports = true,
            OptionWord::Dissent => self.dissent = true,
            OptionWord::Strict => self.strict = true,
            OptionWord::Json => self.json = true,
            _ => {}
        }
        self
    }

    /// Whether an option is given that another one excludes.
    pub(crate) fn has_conflict(&self) -> bool
        ensures { result ≡ has_conflict self.now }
    {
        self.reports && (self.cycle.is_some() || self.json)
    }

    /// The part of a record that `show` prints.
    pub fn part(&self) -> ShowPart
        ensures { result ≡ part_of self.now }
    {
        if self.reports {
            return ShowPart::Reports;
        }
        match self.cycle {
            Some(cycle) => ShowPart::Cycle(cycle),
            None => ShowPart::All,
        }
    }
}
