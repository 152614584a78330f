//! Hints on what the system failed to do.
ghost use Rattle.std.specs.Prelude.{◌≡◌, IsNone, IfSome};
ghost use Rattle.std.specs.IoError.{error_kind};
ghost use Rattle.std.specs.declared.io.ErrorKind.TheVariants.{BrokenPipe};

use crate::excerpt::Excerpt;
use std::alloc::Global;
use std::fs;
use std::io::{Error, ErrorKind};
use std::rt::Files;

fn before_number(text: &str) -> &str {
    match text.split_once(" (os error ") {
        Some((words, _)) => words,
        None => text,
    }
}

/// The system's text for an error, without its number. None if memory runs out.
fn system_reason(alloc: Global, error: Error) -> Option<String> {
    let text = format!(in alloc; "{error}").ok()?;
    let reason = Excerpt(before_number(text.as_str()).as_bytes());
    format!(in alloc; "{reason}").ok()
}

/// The name whose slot failed last, and the system's reason. `names` are in the order in which the
/// shelf opened them. None if no name has that slot, or memory runs out.
pub(crate) fn read_failure<'a>(
    alloc: Global,
    names: &[&'a str],
    failed: Option<(u32, Error)>,
) -> Option<(&'a str, String)>
    ensures { IsNone failed → IsNone result }
{
    let (slot, error) = failed?;
    let name = *names.get(slot as usize)?;
    Some((name, system_reason(alloc, error)?))
}

/// Why a write failed. None if memory runs out, or for a broken pipe: the reader closed it, which
/// is no fault of the output.
pub(crate) fn write_failure(alloc: Global, failed: Option<Error>) -> Option<String>
    ensures none { IsNone failed → IsNone result }
    ensures pipe { IfSome failed (λ error. error_kind error ≡ BrokenPipe → IsNone result) }
{
    let error = failed?;
    match error.kind() {
        ErrorKind::BrokenPipe => None,
        _ => system_reason(alloc, error),
    }
}

/// Whether all these names are regular files. Such a file can be read again, and without waiting
/// for a writer.
pub fn can_reread<R: Files>(rt: &R, names: &[&str]) -> bool {
    names.iter().all(|name| matches!(fs::metadata(rt, *name), Ok(found) if found.is_file()))
}
