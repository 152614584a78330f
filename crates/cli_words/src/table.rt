//! The table of commands and the table of options. The grammar and the hints take their limits from
//! here. A command is a row and not a variant with fields of its own, so reading, hints and laws
//! have no case for each command.
ghost use Rattle.std.specs.Prelude.{◌≡◌, ◌≤◌};
ghost use Rattle.cli_words.specs.Table.{row_of, row_value, row, command_word};
ghost use Rattle.cli_words.specs.Table.{option_row_value, option_row, is_among, option_word};
ghost use Rattle.cli_words.specs.Table.{option_in};

/// A command, named by its first argument.
#[derive(Clone, Copy, Debug, PartialEq, Eq)]
pub enum CommandWord {
    Demo,
    Record,
    Replay,
    Check,
    Compare,
    Show,
    Needs,
    Sim,
    Salvage,
    Upgrade,
    Vote,
    Chain,
    Help,
    Version,
}

/// All commands.
pub const COMMANDS: [CommandWord; 14] = [
    CommandWord::Demo,
    CommandWord::Record,
    CommandWord::Replay,
    CommandWord::Check,
    CommandWord::Compare,
    CommandWord::Show,
    CommandWord::Needs,
    CommandWord::Sim,
    CommandWord::Salvage,
    CommandWord::Upgrade,
    CommandWord::Vote,
    CommandWord::Chain,
    CommandWord::Help,
    CommandWord::Version,
];

/// An option, named by its argument.
#[derive(Clone, Copy, Debug, PartialEq, Eq)]
pub enum OptionWord {
    Workers,
    Seed,
    Cycle,
    Reports,
    Dissent,
    Strict,
    Json,
}

/// All options.
pub const OPTIONS: [OptionWord; 7] = [
    OptionWord::Workers,
    OptionWord::Seed,
    OptionWord::Cycle,
    OptionWord::Reports,
    OptionWord::Dissent,
    OptionWord::Strict,
    OptionWord::Json,
];

/// The kind of a command's names.
#[derive(Clone, Copy, Debug, PartialEq, Eq)]
pub enum NameKind {
    /// Paths of files.
    File,
    /// A 64-bit number in decimal.
    Number,
    /// The word of another command.
    Command,
}

/// The options that a command takes.
#[derive(Clone, Copy)]
pub struct OptionSet {
    pub workers: bool,
    pub seed: bool,
    pub cycle: bool,
    pub reports: bool,
    pub dissent: bool,
    pub strict: bool,
    pub json: bool,
}

/// No option.
pub const NO_OPTIONS: OptionSet = OptionSet {
    workers: false,
    seed: false,
    cycle: false,
    reports: false,
    dissent: false,
    strict: false,
    json: false,
};

impl OptionSet {
    /// Whether the set has an option.
    pub fn has(&self, option: OptionWord) -> bool
        ensures { result ≡ is_among self.now option }
    {
        match option {
            OptionWord::Workers => self.workers,
            OptionWord::Seed => self.seed,
            OptionWord::Cycle => self.cycle,
            OptionWord::Reports => self.reports,
            OptionWord::Dissent => self.dissent,
            OptionWord::Strict => self.strict,
            OptionWord::Json => self.json,
        }
    }

    /// The option of this set that an argument names.
    pub(crate) fn option(&self, word: &str) -> Option<OptionWord>
        ensures { result ≡ option_in self.now word.now }
    {
        let option = OptionWord::from_word(word)?;
        if self.has(option) { Some(option) } else { None }
    }
}

/// A row of the table: the command's word, the kind of its names, how few and how many it takes,
/// and its options.
#[derive(Clone, Copy)]
pub struct CommandRow {
    pub word: &'static str,
    pub names: NameKind,
    pub least: usize,
    pub most: usize,
    pub options: OptionSet,
}

impl CommandRow {
    fn files(word: &'static str, least: usize, most: usize, options: OptionSet) -> CommandRow
        ensures { row_value result ≡ row_of word.now NameKind.File least most options }
    {
        CommandRow {
            word,
            names: NameKind::File,
            least,
            most,
            options,
        }
    }
}

const WORKERS: OptionSet = OptionSet {
    workers: true,
    ..NO_OPTIONS
};

const RECORDING: OptionSet = OptionSet {
    seed: true,
    strict: true,
    ..WORKERS
};

const STRICT: OptionSet = OptionSet {
    strict: true,
    ..NO_OPTIONS
};

const REPORTS: OptionSet = OptionSet {
    reports: true,
    ..NO_OPTIONS
};

const PARTS: OptionSet = OptionSet {
    cycle: true,
    json: true,
    ..REPORTS
};

const DISSENT: OptionSet = OptionSet {
    dissent: true,
    ..NO_OPTIONS
};

impl CommandWord {
    /// The command's row of the table.
    pub fn row(self) -> CommandRow
        ensures is { row_value result ≡ row self }
        ensures few { result.most ≤ 8 }
    {
        match self {
            CommandWord::Demo => CommandRow::files("demo", 1, 1, NO_OPTIONS),
            CommandWord::Record => CommandRow::files("record", 2, 2, RECORDING),
            CommandWord::Replay => CommandRow::files("replay", 1, 1, WORKERS),
            CommandWord::Check => CommandRow::files("check", 1, 1, WORKERS),
            CommandWord::Compare => CommandRow::files("compare", 2, 8, NO_OPTIONS),
            CommandWord::Show => CommandRow::files("show", 1, 1, PARTS),
            CommandWord::Needs => CommandRow::files("needs", 1, 1, STRICT),
            CommandWord::Sim => CommandRow {
                names: NameKind::Number,
                ..CommandRow::files("sim", 1, 1, WORKERS)
            },
            CommandWord::Salvage => CommandRow::files("salvage", 1, 1, REPORTS),
            CommandWord::Upgrade => CommandRow::files("upgrade", 1, 1, WORKERS),
            CommandWord::Vote => CommandRow::files("vote", 3, 7, DISSENT),
            CommandWord::Chain => CommandRow::files("chain", 3, 3, RECORDING),
            CommandWord::Help => CommandRow {
                names: NameKind::Command,
                ..CommandRow::files("--help", 0, 1, NO_OPTIONS)
            },
            CommandWord::Version => CommandRow::files("--version", 0, 0, NO_OPTIONS),
        }
    }

    /// The command that an argument names.
    pub fn from_word(word: &str) -> Option<CommandWord>
        ensures { result ≡ command_word word.now }
    {
        for command in &COMMANDS {
            if command.row().word == word {
                return Some(*command);
            }
        }
        None
    }
}

/// A row of the table of options: the option's argument and, if it takes a value, its least and
/// greatest value.
#[derive(Clone, Copy)]
pub struct OptionRow {
    pub word: &'static str,
    pub range: Option<(u64, u64)>,
}

impl OptionWord {
    /// The option's row of the table.
    pub fn row(self) -> OptionRow
        ensures { option_row_value result ≡ option_row self }
    {
        let (word, range) = match self {
            OptionWord::Workers => ("--workers", Some((1, 64))),
            OptionWord::Seed => ("--seed", Some((0, u64::MAX))),
            OptionWord::Cycle => ("--cycle", Some((1, 1_000_000))),
            OptionWord::Reports => ("--reports", None),
            OptionWord::Dissent => ("--dissent", None),
            OptionWord::Strict => ("--strict", None),
            OptionWord::Json => ("--json", None),
        };
        OptionRow { word, range }
    }

    /// The option that an argument names.
    pub fn from_word(word: &str) -> Option<OptionWord>
        ensures { result ≡ option_word word.now }
    {
        for option in &OPTIONS {
            if option.row().word == word {
                return Some(*option);
            }
        }
        None
    }
}
