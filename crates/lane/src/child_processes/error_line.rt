//! `ErrorLine`, what a child writes to its standard error, as lines that name the child.
ghost use Rattle.std.specs.Prelude.{◌≡◌, IfOk};
ghost use Rattle.lane.specs.child_processes.ErrorTexts.{child_prefix};

use det_io::{Sink, SinkFailed, write_all};
use itoa::Buffer;
use std::alloc::{AllocError, Global};

/// The greatest length of a line, with the child's name and without its line feed.
const MOST_LINE: usize = 4_096;

/// The line of a child that has no end yet. It begins with `child K: `, and a line that would be
/// longer than 4,096 bytes is cut into several.
#[derive(Drop)]
pub struct ErrorLine {
    prefix: Vec<u8>,
    line: Vec<u8>,
}

fn child_prefix(alloc: Global, child: u32) -> Result<Vec<u8>, AllocError>
    ensures { IfOk result (λ prefix. prefix.items ≡ child_prefix child) }
{
    let mut prefix = Vec::new(alloc);
    prefix.extend_from_slice(b"child ")?;
    prefix.extend_from_slice(Buffer::new().format(child).as_bytes())?;
    prefix.extend_from_slice(b": ")?;
    Ok(prefix)
}

impl ErrorLine {
    ghost use Rattle.std.specs.Prelude.{◌≡◌, ◌∷◌, [], ◌++◌, IfOk, OnOk};
    ghost use Rattle.det_io.specs.Sink.{Grew};
    ghost use Rattle.lane.specs.child_processes.ErrorLines.{line_of, prefix_of};
    ghost use Rattle.lane.specs.child_processes.ErrorTexts.{child_prefix, line_step, lines_after};
    ghost use Rattle.lane.specs.child_processes.ErrorTexts.{not_written, Took};

    /// The empty line of a child. Later calls need no more memory.
    pub fn new(alloc: Global, child: u32) -> Result<ErrorLine, AllocError>
        ensures prefix { IfOk result (λ line. prefix_of line ≡ child_prefix child) }
        ensures line { IfOk result (λ line. line_of line ≡ child_prefix child) }
    {
        let prefix = child_prefix(alloc, child)?;
        let mut line = Vec::with_capacity(alloc, MOST_LINE + 1)?;
        line.extend_from_slice(prefix.as_slice())?;
        Ok(ErrorLine { prefix, line })
    }

    // Adds a byte to the line.
    fn push_byte(&mut self, byte: u8) -> Result<(), SinkFailed>
        ensures prefix { prefix_of self.new ≡ prefix_of self.old }
        ensures line { OnOk result (line_of self.new ≡ line_of self.old ++ byte ∷ []) }
    {
        match self.line.push(byte) {
            Ok(()) => Ok(()),
            Err(_) => Err(SinkFailed),
        }
    }

    // Begins a new line.
    fn begin_line(&mut self) -> Result<(), SinkFailed>
        ensures prefix { prefix_of self.new ≡ prefix_of self.old }
        ensures line { OnOk result (line_of self.new ≡ prefix_of self.old) }
    {
        self.line.clear();
        match self.line.extend_from_slice(self.prefix.as_slice()) {
            Ok(()) => Ok(()),
            Err(_) => Err(SinkFailed),
        }
    }

    // Writes the line at once, with its line feed, and begins a new one.
    fn end_line<K: Sink>(&mut self, err: &mut K) -> Result<(), SinkFailed>
        ensures prefix { prefix_of self.new ≡ prefix_of self.old }
        ensures line { OnOk result (line_of self.new ≡ prefix_of self.old) }
        ensures written { OnOk result
            (Grew (K.took err.old) (K.took err.new) (line_of self.old ++ 10 ∷ [])) }
    {
        self.push_byte(b'\n')?;
        let written = write_all(err, self.line.as_slice());
        self.begin_line()?;
        written
    }

    // Takes the child's next byte.
    fn take_byte<K: Sink>(&mut self, byte: u8, err: &mut K) -> Result<(), SinkFailed>
        ensures prefix { prefix_of self.new ≡ prefix_of self.old }
        ensures took { OnOk result (Took
            (line_step (prefix_of self.old) (not_written (line_of self.old)) byte)
            (line_of self.new) (K.took err.old) (K.took err.new)) }
    {
        if byte == b'\n' {
            return self.end_line(err);
        }
        if self.line.len() < MOST_LINE {
            return self.push_byte(byte);
        }
        self.end_line(err)?;
        self.push_byte(byte)
    }

    /// Takes the child's next bytes, and writes the lines that end in them. If a write fails, the
    /// rest of the bytes is dropped.
    pub fn take_bytes<K: Sink>(&mut self, bytes: &[u8], err: &mut K) -> Result<(), SinkFailed>
        ensures prefix { prefix_of self.new ≡ prefix_of self.old }
        ensures took { OnOk result (Took
            (lines_after (prefix_of self.old) (not_written (line_of self.old)) bytes.now)
            (line_of self.new) (K.took err.old) (K.took err.new)) }
    {
        'bytes: for index in 0..bytes.len() {
            self.take_byte(bytes[index], err)?;
        }
        Ok(())
    }

    /// Ends the line, if there is anything in it after the child's name.
    pub fn finish<K: Sink>(&mut self, err: &mut K) -> Result<(), SinkFailed>
        ensures prefix { prefix_of self.new ≡ prefix_of self.old }
    {
        if self.line.len() == self.prefix.len() {
            return Ok(());
        }
        self.end_line(err)
    }
}
