//! `LaneOptions`, the arguments of `det_lane` after the names.
ghost use Rattle.std.specs.Prelude.{◌≡◌, option_map};
ghost use Rattle.cli_words.specs.Names.{texts};
ghost use Rattle.lane.specs.Words.{extra_of, limited, options_of, options_value};
ghost use Rattle.lane.specs.Words.{seconds_in, seconds_of, unlimited};

use cli_words::number_of;

/// The arguments after the names.
#[derive(Clone, Copy)]
pub struct LaneOptions<'a> {
    /// The most seconds for which a child may write nothing: 1 to 86,400, or no limit.
    pub limit: Option<u32>,
    /// The arguments after `--`, which each child gets after its own.
    pub extra: &'a [String],
}

fn seconds_in(number: u64) -> Option<u32>
    ensures { result ≡ seconds_in number }
{
    if (1..=86_400).contains(&number) {
        Some(number as u32)
    } else {
        None
    }
}

/// Reads a number of seconds: 1 to 86,400 in decimal.
fn seconds_of(word: &str) -> Option<u32>
    ensures { result ≡ seconds_of word.now }
{
    seconds_in(number_of(word)?)
}

/// Reads `-- WORD..`, or nothing.
fn extra_of(words: &[String]) -> Option<&[String]>
    ensures { option_map (λ extra. texts extra.now) result ≡ extra_of (texts words.now) }
{
    match words {
        [] => Some(words),
        [dashes, extra @ ..] => {
            if dashes.as_str() == "--" {
                Some(extra)
            } else {
                None
            }
        }
    }
}

fn unlimited(words: &[String]) -> Option<LaneOptions<'_>>
    ensures { option_map options_value result ≡ unlimited (texts words.now) }
{
    let extra = extra_of(words)?;
    Some(LaneOptions { limit: None, extra })
}

/// Reads what follows `--timeout`.
fn limited<'a>(seconds: &str, words: &'a [String]) -> Option<LaneOptions<'a>>
    ensures { option_map options_value result ≡ limited seconds.now (texts words.now) }
{
    let seconds = seconds_of(seconds)?;
    let extra = extra_of(words)?;
    Some(LaneOptions {
        limit: Some(seconds),
        extra,
    })
}

/// Reads the arguments after the names: `--timeout S` and then `-- WORD..`, each of which may be
/// left out.
pub(crate) fn options_of(words: &[String]) -> Option<LaneOptions<'_>>
    ensures { option_map options_value result ≡ options_of (texts words.now) }
{
    match words {
        [option, seconds, rest @ ..] => {
            if option.as_str() == "--timeout" {
                limited(seconds.as_str(), rest)
            } else {
                unlimited(words)
            }
        }
        _ => unlimited(words),
    }
}
