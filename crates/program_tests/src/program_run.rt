//! Runs `det` and `det_twin` over a shelf and sinks in memory.
ghost use Rattle.std.specs.Prelude.{◌<◌, ◌^◌};

use crate::files::{file, halves, number, with_lines};
use det_cli::{Host, top};
use det_io::{FailList, MemFile, MemFiles, MemShelf, MemSink};
use probes::{Audience, CountProbe, FirstRefusalProbe, GapProbe, Probe};
use sha2::{Digest, Sha256};
use std::alloc::{AllocError, Global};
use std::sync::Arc;
use std::thread::Threads;
use worker_pool::{AnyGate, NoGate};

/// The limits of a run: how many bytes a call moves at most, and the room of the output. Each
/// `failing_` number is that of the call that fails, counted from 1, or 0 if none does. The calls
/// are of the shelf, of the output, and of the line for the user.
#[derive(Clone, Copy)]
pub struct Edges {
    pub most_read: usize,
    pub most_written: usize,
    pub room: usize,
    pub failing_read: u64,
    pub failing_write: u64,
    pub failing_line: u64,
}

/// Nothing fails, and pieces are large.
pub const NO_FAILURES: Edges = Edges {
    most_read: 4096,
    most_written: 4096,
    room: 7_000_000,
    failing_read: 0,
    failing_write: 0,
    failing_line: 0,
};

/// The arguments of a run, what it runs over, and its status afterwards.
#[derive(Drop)]
pub struct RunResult {
    pub words: Vec<String>,
    pub shelf: MemShelf,
    pub out: MemSink,
    pub err: MemSink,
    pub status: u8,
}

/// The numbers of the calls that fail: only this one, or none for 0.
pub fn fail_list(alloc: Global, number: u64) -> Result<FailList, AllocError> {
    let mut fails = FailList::new(alloc);
    fails.push(number).map_err(|_| AllocError)?;
    Ok(fails)
}

/// The arguments in a line, separated by spaces. The empty line has none.
pub fn words_of(alloc: Global, line: &str) -> Result<Vec<String>, AllocError> {
    let mut words = Vec::new(alloc);
    if line.is_empty() {
        return Ok(words);
    }
    for word in line.split(' ') {
        words.push(String::from_str(alloc, word)?)?;
    }
    Ok(words)
}

fn add_file(alloc: Global, files: &mut MemFiles, name: &str) -> Result<(), AllocError> {
    let Some(bytes) = file(alloc, name)? else {
        return Ok(());
    };
    if files.is_full() {
        return Err(AllocError);
    }
    let name = String::from_str(alloc, name)?;
    files
        .push(MemFile::new(name, bytes))
        .map_err(|_| AllocError)
}

/// The files that the arguments of a line name.
fn files_of(alloc: Global, line: &str) -> Result<MemFiles, AllocError> {
    let mut files = MemFiles::new(alloc);
    for word in line.split(' ') {
        add_file(alloc, &mut files, word)?;
    }
    Ok(files)
}

fn shelf_of(alloc: Global, line: &str, edges: Edges) -> Result<MemShelf, AllocError> {
    let files = files_of(alloc, line)?;
    let fails = fail_list(alloc, edges.failing_read)?;
    MemShelf::limited(alloc, files, fails, 16, edges.most_read.max(1)).map_err(|_| AllocError)
}

fn sink_of(alloc: Global, room: usize, edges: Edges, failing: u64) -> Result<MemSink, AllocError> {
    let fails = fail_list(alloc, failing)?;
    MemSink::new(alloc, room, edges.most_written.max(1), fails).map_err(|_| AllocError)
}

/// A run of a line's arguments that hasn't started.
pub fn prepare(alloc: Global, line: &str, edges: Edges) -> Result<RunResult, AllocError> {
    Ok(RunResult {
        words: words_of(alloc, line)?,
        shelf: shelf_of(alloc, line, edges)?,
        out: sink_of(alloc, edges.room, edges, edges.failing_write)?,
        err: sink_of(alloc, 200, edges, edges.failing_line)?,
        status: 255,
    })
}

/// Runs the arguments of a line with this audience and this gate.
pub fn run_with<R: Threads + Sync>(
    rt: &R,
    alloc: Global,
    line: &str,
    edges: Edges,
    audience: &mut Audience,
    gate: &Arc<AnyGate, Global>,
) -> Result<RunResult, AllocError>
    requires { edges.room < 2 ^ 64 }
{
    let mut ran = prepare(alloc, line, edges)?;
    let host = Host { rt, alloc, gate };
    let status = top(
        &host,
        &ran.words,
        &mut ran.shelf,
        &mut ran.out,
        &mut ran.err,
        audience,
    );
    ran.status = status.number();
    Ok(ran)
}

/// The same without a gate.
pub fn run_ungated<R: Threads + Sync>(
    rt: &R,
    alloc: Global,
    line: &str,
    edges: Edges,
    audience: &mut Audience,
) -> Result<RunResult, AllocError>
    requires { edges.room < 2 ^ 64 }
{
    let gate = Arc::new(alloc, AnyGate::new(Box::new(alloc, NoGate)?))?;
    run_with(rt, alloc, line, edges, audience, &gate)
}

/// The same with the probes of `det`.
pub fn run<R: Threads + Sync>(
    rt: &R,
    alloc: Global,
    line: &str,
    edges: Edges,
) -> Result<RunResult, AllocError> {
    let mut probes = Vec::<Box<dyn Probe>>::with_capacity(alloc, 3)?;
    probes.push(Box::new(alloc, CountProbe::new())?)?;
    probes.push(Box::new(alloc, GapProbe::new())?)?;
    probes.push(Box::new(alloc, FirstRefusalProbe::new())?)?;
    let mut audience = Audience::new(alloc, probes);
    run_ungated(rt, alloc, line, edges, &mut audience)
}

/// Whether the bytes have this length and this SHA-256: `LEN HEX`.
fn have_digest(bytes: &[u8], wanted: &str) -> bool {
    let (len, digest) = halves(wanted, ' ');
    let mut text = [0u8; 64];
    let is_hex = hex::encode_to_slice(Sha256::digest(bytes), &mut text).is_ok();
    is_hex && bytes.len() == number(len) && text.as_slice() == digest.as_bytes()
}

/// Whether the bytes are those of a named file.
fn are_file(alloc: Global, bytes: &[u8], name: &str) -> Result<bool, AllocError> {
    Ok(match file(alloc, name)? {
        Some(wanted) => wanted.as_slice() == bytes,
        None => false,
    })
}

/// Whether the bytes are as wanted. `=NAME` is a file, `#LEN HEX` a length and a SHA-256. Anything
/// else is a text with `/` for the line feed.
pub fn are_as_wanted(alloc: Global, bytes: &[u8], wanted: &str) -> Result<bool, AllocError> {
    if let Some(name) = wanted.strip_prefix('=') {
        return are_file(alloc, bytes, name);
    }
    if let Some(digest) = wanted.strip_prefix('#') {
        return Ok(have_digest(bytes, digest));
    }
    Ok(with_lines(alloc, wanted.as_bytes())?.as_slice() == bytes)
}

/// What a row wants: `STATUS|OUTPUT|LINE`.
#[derive(Clone, Copy)]
pub struct Wanted<'a> {
    pub status: u8,
    pub out: &'a str,
    pub err: &'a str,
}

/// The arguments of a row, and what it wants.
pub fn row_of(row: &str) -> (&str, Wanted<'_>) {
    let (words, rest) = halves(row, '|');
    let (status, rest) = halves(rest, '|');
    let (out, err) = halves(rest, '|');
    let status = status.parse::<u8>().unwrap_or(255);
    (words, Wanted { status, out, err })
}

impl RunResult {
    /// Whether it ended as wanted.
    pub fn ended_as(&self, alloc: Global, wanted: &Wanted<'_>) -> Result<bool, AllocError> {
        let is_out = are_as_wanted(alloc, self.out.bytes(), wanted.out)?;
        let is_err = are_as_wanted(alloc, self.err.bytes(), wanted.err)?;
        Ok(self.status == wanted.status && is_out && is_err)
    }
}
