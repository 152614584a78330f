//! Whole runs of `det_lane` over children in memory, and over a real process.
ghost use Rattle.std.specs.Prelude.{◌≡◌, IfOk};
ghost use Rattle.lane.specs.child_processes.MemSpawner.{mem_spawner_state};

use crate::files::{file, halves, number};
use crate::program_run::{Wanted, are_as_wanted, fail_list, row_of, words_of};
use crate::tables::lane_rows;
use det_io::{FailList, MemSink};
use lane::child_processes::{ChildShelf, MemSpawner, ProcessSpawner, Script, Scripts};
use lane::lane_top;
use std::alloc::{AllocError, Global};
use std::test::*;

/// What a run of a lane wrote, and its status.
#[derive(Drop)]
struct RunResult {
    status: u8,
    out: MemSink,
    err: MemSink,
}

impl RunResult {
    fn ended_as(&self, alloc: Global, wanted: &Wanted<'_>) -> Result<bool, AllocError> {
        let is_out = are_as_wanted(alloc, self.out.bytes(), wanted.out)?;
        let is_err = are_as_wanted(alloc, self.err.bytes(), wanted.err)?;
        Ok(self.status == wanted.status && is_out && is_err)
    }
}

/// Adds the script of a child. `FILE,STATUS` is what it writes and its exit status.
fn add_script(
    alloc: Global,
    scripts: &mut Scripts,
    child: &str,
    workers: u32,
) -> Result<(), AllocError> {
    let (name, status) = halves(child, ',');
    let line = format!(in alloc; "det record m s --workers {workers}")?;
    let words = words_of(alloc, line.as_str())?;
    let bytes = file(alloc, name)?.ok_or(AllocError)?;
    let status = status.parse::<u8>().unwrap_or(0);
    if scripts.is_full() {
        return Err(AllocError);
    }
    scripts
        .push(Script::new(words, bytes, status))
        .map_err(|_| AllocError)
}

/// The scripts of children. The first has one worker, and each other one has one more.
fn scripts_of(alloc: Global, children: &str) -> Result<Scripts, AllocError> {
    let mut scripts = Scripts::new(alloc);
    let mut workers: u32 = 1;
    for child in children.split(' ') {
        add_script(alloc, &mut scripts, child, workers)?;
        workers = workers.saturating_add(1);
    }
    Ok(scripts)
}

/// A shelf over these children. The spawner's call of the number `failing` fails; 0 fails none.
fn shelf_of(
    alloc: Global,
    children: &str,
    failing: u64,
) -> Result<ChildShelf<MemSpawner>, AllocError>
    ensures { IfOk result (λ shelf. (mem_spawner_state shelf.spawner).children ≡ 0) }
{
    let scripts = scripts_of(alloc, children)?;
    let fails = fail_list(alloc, failing)?;
    match MemSpawner::new(alloc, scripts, fails) {
        Ok(spawner) => Ok(ChildShelf { spawner }),
        Err(_) => Err(AllocError),
    }
}

fn sink_of(alloc: Global, room: usize) -> Result<MemSink, AllocError> {
    MemSink::new(alloc, room, 10, FailList::new(alloc)).map_err(|_| AllocError)
}

/// Runs the arguments of a line over these children. The output has room for `room` bytes.
fn run(
    alloc: Global,
    line: &str,
    children: &str,
    failing: u64,
    room: usize,
) -> Result<RunResult, AllocError> {
    let words = words_of(alloc, line)?;
    let mut shelf = shelf_of(alloc, children, failing)?;
    let mut out = sink_of(alloc, room)?;
    let mut err = sink_of(alloc, 100)?;
    let status = lane_top(alloc, &words, &mut shelf, &mut out, &mut err).number();
    Ok(RunResult { status, out, err })
}

/// Whether a row ends as wanted: `WORDS|CHILDREN|FAILING CALL|ROOM|STATUS|OUTPUT|LINE`.
fn is_right(alloc: Global, row: &str) -> Result<bool, AllocError> {
    let (words, rest) = halves(row, '|');
    let (children, rest) = halves(rest, '|');
    let (failing, rest) = halves(rest, '|');
    let (room, wanted) = row_of(rest);
    let ran = run(alloc, words, children, number(failing) as u64, number(room))?;
    ran.ended_as(alloc, &wanted)
}

/// The rows that don't end as wanted.
fn wrong_rows(alloc: Global) -> Result<String, AllocError> {
    let mut wrong = String::new(alloc);
    for row in lane_rows().lines() {
        if !is_right(alloc, row)? {
            wrong.push_str(row)?;
        }
    }
    Ok(wrong)
}

#[test]
fn lanes_end_as_their_rows_want(rt: HostRuntime) -> Result<(), Fail> {
    let wrong = wrong_rows(rt.alloc())?;
    assert!(rt; wrong.is_empty(), "{wrong}");
    Ok(())
}

/// `echo` writes its arguments in place of a record.
#[test]
fn a_process_that_writes_no_record_is_reported(rt: HostRuntime) -> Result<(), Fail> {
    let alloc = rt.alloc();
    let words = words_of(alloc, "/bin/echo 2 m s")?;
    let mut shelf = ChildShelf {
        spawner: ProcessSpawner::new(&rt, alloc, rt.stderr(), None),
    };
    let mut out = sink_of(alloc, 100)?;
    let mut err = sink_of(alloc, 100)?;
    let status = lane_top(alloc, &words, &mut shelf, &mut out, &mut err).number();
    let line = b"bad record: copy 0 offset 0 magic\n";
    assert!(rt; status == 5 && out.bytes().is_empty() && err.bytes() == line.as_slice());
    Ok(())
}
