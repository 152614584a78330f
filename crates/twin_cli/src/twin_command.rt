//! `TwinCommand`, what the arguments ask for.
ghost use Rattle.std.specs.Prelude.{◌≡◌, option_map};
ghost use Rattle.cli_words.specs.Names.{texts};
ghost use Rattle.twin_cli.specs.Words.{one_option, both, command_of, command_value};
ghost use Rattle.twin_cli.specs.Words.{flip_in, flip_of, flip_options, is_strict, options_of};
ghost use Rattle.twin_cli.specs.Words.{twins_of};

use crate::options::{Flip, TwinOptions, Twins};
use cli_words::{TextWord, is_name, number_of, parse_copies};

/// What the arguments after the program's name ask for.
#[derive(Clone, Copy)]
pub enum TwinCommand<'a> {
    Text(TextWord),
    Run(Twins<'a>),
}

/// A frame of one of the copies, by its number of 32 bits.
fn flip_in(copies: u32, copy: u64, number: u64) -> Option<Flip>
    ensures { result ≡ flip_in copies copy number }
{
    if copy < copies as u64 && number <= u32::MAX as u64 {
        Some(Flip {
            copy: copy as u32,
            number: number as u32,
        })
    } else {
        None
    }
}

fn flip_of(copies: u32, copy: &str, number: &str) -> Option<Flip>
    ensures { result ≡ flip_of copies copy.now number.now }
{
    flip_in(copies, number_of(copy)?, number_of(number)?)
}

/// Reads `--flip K F`.
fn flip_options(
    copies: u32,
    strict: bool,
    word: &str,
    copy: &str,
    number: &str,
) -> Option<TwinOptions>
    ensures { result ≡ flip_options copies strict word.now copy.now number.now }
{
    if word != "--flip" {
        return None;
    }
    let flip = flip_of(copies, copy, number)?;
    Some(TwinOptions {
        strict,
        flip: Some(flip),
    })
}

fn is_strict(word: &str) -> bool
    ensures { result ≡ is_strict word.now }
{
    word == "--strict"
}

fn one_option(word: &str) -> Option<TwinOptions>
    ensures { result ≡ one_option word.now }
{
    if is_strict(word) {
        Some(TwinOptions {
            strict: true,
            flip: None,
        })
    } else {
        None
    }
}

/// Reads `--strict` and `--flip K F`, in either order.
fn both(copies: u32, a: &str, b: &str, c: &str, d: &str) -> Option<TwinOptions>
    ensures { result ≡ both copies a.now b.now c.now d.now }
{
    if is_strict(a) {
        return flip_options(copies, true, b, c, d);
    }
    if is_strict(d) {
        return flip_options(copies, true, a, b, c);
    }
    None
}

/// Reads the options after the names.
fn options_of(copies: u32, words: &[String]) -> Option<TwinOptions>
    ensures { result ≡ options_of copies (texts words.now) }
{
    match words {
        [] => Some(TwinOptions {
            strict: false,
            flip: None,
        }),
        [word] => one_option(word.as_str()),
        [word, copy, number] => flip_options(
            copies,
            false,
            word.as_str(),
            copy.as_str(),
            number.as_str(),
        ),
        [a, b, c, d] => both(copies, a.as_str(), b.as_str(), c.as_str(), d.as_str()),
        _ => None,
    }
}

fn twins_of<'a>(
    copies: &str,
    manifest: &'a str,
    stimulus: &'a str,
    rest: &[String],
) -> Option<TwinCommand<'a>>
    ensures { option_map command_value result
        ≡ twins_of copies.now manifest.now stimulus.now (texts rest.now) }
{
    if !(is_name(manifest) && is_name(stimulus)) {
        return None;
    }
    let copies = parse_copies(copies)?;
    let options = options_of(copies, rest)?;
    Some(TwinCommand::Run(Twins {
        copies,
        manifest,
        stimulus,
        options,
    }))
}

impl<'a> TwinCommand<'a> {
    /// Reads the arguments after the program's name. None if they are no command.
    pub fn from_words(words: &'a [String]) -> Option<TwinCommand<'a>>
        ensures { option_map command_value result ≡ command_of (texts words.now) }
    {
        match words {
            [word] => Some(TwinCommand::Text(TextWord::from_word(word.as_str())?)),
            [copies, manifest, stimulus, rest @ ..] => twins_of(
                copies.as_str(),
                manifest.as_str(),
                stimulus.as_str(),
                rest,
            ),
            _ => None,
        }
    }
}
