//! Writes hints that begin with the name of a file, and those with the names of copies.
ghost use Rattle.std.specs.Prelude.{◌≡◌, ℕ, List, Some, IfSome, map};
ghost use Rattle.det_io.specs.Sink.{GrewByPrefix};
ghost use Rattle.hints_on_words.specs.Texts.{copy_lines, copy_text, hint_line, named_text};

use crate::excerpt::Excerpt;
use crate::hint_lines::{write_hint, write_hint_text};
use det_io::Sink;
use std::alloc::Global;
use std::fmt;
use std::fmt::{Display, Formatter, Write};

/// Writes a hint on the file under a name, as one line that begins with the name. False if memory
/// runs out or the sink fails.
pub fn write_named_hint<D: Display + Drop, K: Sink>(
    alloc: Global,
    name: &str,
    hint: D,
    err: &mut K,
) -> bool
    ensures known { IfSome (D.output hint) (λ text.
        GrewByPrefix (K.took err.old) (K.took err.new) (hint_line (named_text name.now text))) }
    ensures line { (text : List ℕ) × GrewByPrefix (K.took err.old) (K.took err.new)
        (hint_line (named_text name.now text)) }
{
    match format!(in alloc; "{hint}") {
        Ok(text) => write_named_text(alloc, name, &text, err),
        Err(_) => false,
    }
}

/// Writes the line of a hint with this name and this text.
fn write_named_text<K: Sink>(alloc: Global, name: &str, text: &str, err: &mut K) -> bool
    ensures { GrewByPrefix (K.took err.old) (K.took err.new)
        (hint_line (named_text name.now text.now)) }
{
    let name = Excerpt(name.as_bytes());
    match format!(in alloc; "{name}: {text}") {
        Ok(named) => write_hint_text(alloc, &named, err),
        Err(_) => false,
    }
}

/// The number of a copy, counted from 0, and its name.
#[derive(Clone, Copy)]
struct CopyName<'a> {
    number: usize,
    name: Excerpt<'a>,
}

impl Display for CopyName<'_> {
    ghost output = { λ copy. Some (copy_text copy.number copy.name.0.now) };

    fn fmt<W: Write>(&self, f: &mut Formatter<W>) -> fmt::Result {
        let number = self.number;
        let name = self.name;
        write!(f, "copy {number}: {name}")
    }
}

/// Writes which copies a command compared: a line for each of these names. It stops if memory runs
/// out or the sink fails.
pub fn write_copy_names<K: Sink>(alloc: Global, names: &[&str], err: &mut K)
    ensures { GrewByPrefix (K.took err.old) (K.took err.new)
        (copy_lines 0 (map (λ name. name.now) names.now)) }
{
    for number in 0..names.len() {
        let name = Excerpt(names[number].as_bytes());
        if !write_hint(alloc, CopyName { number, name }, err) {
            return;
        }
    }
}
