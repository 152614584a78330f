//! `LaneCommand`, what the arguments ask for.
ghost use Rattle.std.specs.Prelude.{◌≡◌, option_map};
ghost use Rattle.cli_words.specs.Names.{texts};
ghost use Rattle.lane.specs.Words.{are_names, command_of, command_value, lane_of};
ghost use Rattle.lane.specs.Words.{limit_in};

use crate::lane::Lane;
use crate::lane_options::options_of;
use cli_words::{TextWord, is_name, parse_copies};

/// What the arguments after the program's name ask for.
#[derive(Clone, Copy)]
pub enum LaneCommand<'a> {
    Text(TextWord),
    Run(Lane<'a>),
}

fn are_names(program: &str, manifest: &str, stimulus: &str) -> bool
    ensures { result ≡ are_names program.now manifest.now stimulus.now }
{
    is_name(program) && is_name(manifest) && is_name(stimulus)
}

fn lane_of<'a>(
    program: &'a str,
    copies: &str,
    manifest: &'a str,
    stimulus: &'a str,
    rest: &'a [String],
) -> Option<LaneCommand<'a>>
    ensures { option_map command_value result
        ≡ lane_of program.now copies.now manifest.now stimulus.now (texts rest.now) }
{
    if !are_names(program, manifest, stimulus) {
        return None;
    }
    let copies = parse_copies(copies)?;
    let options = options_of(rest)?;
    Some(LaneCommand::Run(Lane {
        program,
        copies,
        manifest,
        stimulus,
        options,
    }))
}

impl<'a> LaneCommand<'a> {
    /// Reads the arguments after the program's name. None if they are no command.
    pub fn from_words(words: &'a [String]) -> Option<LaneCommand<'a>>
        ensures { option_map command_value result ≡ command_of (texts words.now) }
    {
        match words {
            [word] => Some(LaneCommand::Text(TextWord::from_word(word.as_str())?)),
            [program, copies, manifest, stimulus, rest @ ..] => lane_of(
                program.as_str(),
                copies.as_str(),
                manifest.as_str(),
                stimulus.as_str(),
                rest,
            ),
            _ => None,
        }
    }
}

/// The most seconds for which a child of this command may write nothing, if there is a limit.
pub fn limit_of(words: &[String]) -> Option<u32>
    ensures { result ≡ limit_in (command_of (texts words.now)) }
{
    match LaneCommand::from_words(words)? {
        LaneCommand::Run(lane) => lane.options.limit,
        LaneCommand::Text(_) => None,
    }
}
