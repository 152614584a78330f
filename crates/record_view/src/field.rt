//! Fields of variable length: elements and outputs. A reader takes the bytes from its field on, and
//! returns the value and the bytes after it.
ghost use Rattle.std.specs.Prelude.{◌≡◌, ◌≤◌, length, drop, IfOk};
ghost use Rattle.record_grammar.specs.Read.{raw_at};
ghost use Rattle.record_grammar.specs.Grammar.{string_at, element_at, drawn_at};
ghost use Rattle.record_view.specs.Gives.{Gives};
ghost use Rattle.det_values.specs.Spelling.{an_element};

use crate::number::{u16_at, u32_at};
use crate::stop::Stop;
use det_values::Format;

const MAX_OUTPUT: u32 = 1_048_576;

/// The bytes from `read` on.
pub fn rest_of(bytes: &[u8], read: usize) -> &[u8]
    requires { read ≤ length bytes.now }
    ensures { result.now ≡ drop read bytes.now }
{
    bytes.split_at(read).1
}

/// The first `len` bytes, and the rest.
#[tactic(auto, unfolding(record_grammar::specs::Read::raw_at))]
pub fn raw(len: usize, bytes: &[u8]) -> Result<(&[u8], &[u8]), Stop>
    ensures gives { Gives (λ x. (x.0.now, x.1.now)) result (raw_at len bytes.now) }
    ensures len { IfOk result (λ x. length x.0.now ≡ len) }
{
    if bytes.len() < len {
        return Err(Stop::More);
    }
    Ok(bytes.split_at(len))
}

/// The bytes of the first element, and the rest.
#[tactic(auto, unfolding(record_grammar::specs::Grammar::string_at))]
pub fn element(bytes: &[u8]) -> Result<(&[u8], &[u8]), Stop>
    ensures gives { Gives (λ x. (x.0.now, x.1.now)) result (element_at bytes.now) }
    ensures short { IfOk result (λ x. length x.0.now ≤ 64) }
{
    let (len, rest) = u16_at(0, 64, bytes)?;
    let (bytes, rest) = raw(len as usize, rest)?;
    Ok((bytes, rest))
}

/// The bytes and the draws of the first element of a finished cycle, and the rest. In format 1 the
/// draws are 0.
#[tactic(auto, unfolding(record_grammar::specs::Grammar::drawn_at))]
pub fn drawn_element(format: Format, bytes: &[u8]) -> Result<(&[u8], u32, &[u8]), Stop>
    ensures gives { Gives (λ x. (an_element x.0.now x.1, x.2.now)) result
        (drawn_at format bytes.now) }
    ensures short { IfOk result (λ x. length x.0.now ≤ 64) }
{
    let (bytes, rest) = element(bytes)?;
    match format {
        Format::One => Ok((bytes, 0, rest)),
        Format::Two => {
            let (draws, rest) = u32_at(0, u32::MAX, rest)?;
            Ok((bytes, draws, rest))
        }
    }
}

/// The output, and the rest.
#[tactic(auto, unfolding(record_grammar::specs::Grammar::string_at))]
pub fn output(bytes: &[u8]) -> Result<(&[u8], &[u8]), Stop>
    ensures { Gives (λ x. (x.0.now, x.1.now)) result (string_at 4 1048576 bytes.now) }
{
    let (len, rest) = u32_at(0, MAX_OUTPUT, bytes)?;
    let (bytes, rest) = raw(len as usize, rest)?;
    Ok((bytes, rest))
}
