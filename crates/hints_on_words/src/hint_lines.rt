//! Writes hints, and those on arguments that a program refused.
ghost use Rattle.std.specs.Prelude.{◌≡◌, ◌≤◌, ℕ, List, take, true, Some, IsNone, IfSome, IsUtf8};
ghost use Rattle.std.specs.IoError.{error_kind};
ghost use Rattle.std.specs.declared.io.ErrorKind.TheVariants.{BrokenPipe};
ghost use Rattle.det_io.specs.Sink.{Grew, GrewByPrefix};
ghost use Rattle.hints_on_words.specs.Texts.{help_text, hint_line};

use crate::excerpt::Excerpt;
use crate::named_hints::write_named_hint;
use crate::system::{read_failure, write_failure};
use crate::word_faults::WordsFault;
use det_io::{Sink, write_all};
use std::alloc::Global;
use std::env::{Env, FillError};
use std::fmt;
use std::fmt::{Display, Formatter, Write};
use std::io::Error;

/// The greatest length of an argument that is examined, in bytes.
const ROOM: usize = 4096;

/// The hint where help is found: on the page of a program, or of one of its commands.
#[derive(Clone, Copy)]
pub struct Help {
    pub program: &'static str,
    pub command: Option<&'static str>,
}

impl Display for Help {
    ghost output = { λ help. Some (help_text help) };

    fn fmt<W: Write>(&self, f: &mut Formatter<W>) -> fmt::Result {
        let program = self.program;
        match self.command {
            Some(command) => write!(f, "see {program} {command} --help"),
            None => write!(f, "see {program} --help"),
        }
    }
}

/// Writes a hint as one line that begins with two spaces. False if memory runs out or the sink
/// fails.
pub fn write_hint<D: Display + Drop, K: Sink>(alloc: Global, hint: D, err: &mut K) -> bool
    ensures known { IfSome (D.output hint) (λ text.
        GrewByPrefix (K.took err.old) (K.took err.new) (hint_line text)) }
    ensures line { (text : List ℕ) × GrewByPrefix (K.took err.old) (K.took err.new)
        (hint_line text) }
    ensures whole { result ≡ true → IfSome (D.output hint) (λ text.
        Grew (K.took err.old) (K.took err.new) (hint_line text)) }
{
    match format!(in alloc; "{hint}") {
        Ok(text) => write_hint_text(alloc, &text, err),
        Err(_) => false,
    }
}

/// Writes the line of a hint with this text.
pub(crate) fn write_hint_text<K: Sink>(alloc: Global, text: &str, err: &mut K) -> bool
    ensures part { GrewByPrefix (K.took err.old) (K.took err.new) (hint_line text.now) }
    ensures whole { result ≡ true → Grew (K.took err.old) (K.took err.new) (hint_line text.now) }
{
    match format!(in alloc; "  {text}\n") {
        Ok(line) => write_all(err, line.as_bytes()).is_ok(),
        Err(_) => false,
    }
}

/// Writes which of the names couldn't be opened or read, and why, if memory lasts for that. `failed`
/// is the slot that failed, with its error.
pub fn write_input_hint<K: Sink>(
    alloc: Global,
    names: &[&str],
    failed: Option<(u32, Error)>,
    err: &mut K,
)
    ensures { IsNone failed → err.new ≡ err.old }
{
    if let Some((name, reason)) = read_failure(alloc, names, failed) {
        write_named_hint(alloc, name, reason, err);
    }
}

/// Writes why standard output failed, if memory lasts for that. A broken pipe is no fault of the
/// output.
pub fn write_output_hint<K: Sink>(alloc: Global, failed: Option<Error>, err: &mut K)
    ensures none { IsNone failed → err.new ≡ err.old }
    ensures pipe { IfSome failed (λ error. error_kind error ≡ BrokenPipe → err.new ≡ err.old) }
{
    if let Some(reason) = write_failure(alloc, failed) {
        write_hint(alloc, reason, err);
    }
}

/// The number of the first argument after the program's name that isn't UTF-8, and its length in
/// `bytes`. None if all are UTF-8, or the others are longer than 4,096 bytes.
fn non_utf8_word<R: Env>(rt: &R, bytes: &mut [u8; ROOM]) -> Option<(usize, usize)>
    ensures { IfSome result (λ odd. (odd.1 ≤ 4096) × (IsUtf8 (take odd.1 bytes.new) → ⊥)) }
{
    for number in 1..usize::MAX {
        match rt.arg(number, bytes) {
            Ok(len) if std::str::from_utf8(&bytes[..len]).is_err() => return Some((number, len)),
            Ok(_) | Err(FillError::TooLong) => {}
            Err(FillError::NotPresent) => return None,
        }
    }
    None
}

/// Writes why the arguments of a program are refused, and where help is found. A program takes no
/// arguments at all if one of them isn't UTF-8, so such an argument is reported before any other
/// fault. If the first hint can't be written, the second isn't tried.
pub fn write_words_hint<R: Env, E: Sink>(
    rt: &R,
    alloc: Global,
    fault: Option<WordsFault<'_>>,
    help: Help,
    err: &mut E,
) {
    let mut bytes = [0; ROOM];
    let is_written = match (non_utf8_word(rt, &mut bytes), fault) {
        (Some((number, len)), _) => {
            let word = Excerpt(&bytes[..len]);
            write_hint(alloc, WordsFault::At { number, word }, err)
        }
        (None, Some(fault)) => write_hint(alloc, fault, err),
        (None, None) => true,
    };
    if is_written {
        write_hint(alloc, help, err);
    }
}
