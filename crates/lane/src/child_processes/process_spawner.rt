//! `ProcessSpawner`, which starts real processes.
ghost use Rattle.std.specs.Prelude.{◌≡◌, ◌<◌, ◌≤◌, length, vec_len, pos, Some, IfOk};
ghost use Rattle.lane.specs.child_processes.Processes.{code_of};

use crate::child_processes::child_fault::ChildFault;
use crate::child_processes::child_guard::ChildGuard;
use crate::child_processes::error_pipes::{ErrorPipes, WaitFault};
use crate::child_processes::{SpawnFailed, Spawner};
use det_io::{push_within, read_with_retries};
use std::alloc::Global;
use std::io::{self, BufReader};
use std::os::fd::AsRawFd;
use std::process::{Child, ChildStdout, Command, ExitStatus, Processes, Stdio, SystemProcess};
use std::rt::{Clock, Stderr};

/// How many bytes of a child's output are read at once, at most: as many as a Linux pipe holds. The
/// child can then fill the pipe again while they are compared.
const READ_AHEAD: usize = 65_536;

/// The output of a child.
type Output = BufReader<ChildStdout>;

/// Starts programs of the system. A child's input is empty, and its output is a pipe. What it writes
/// to its standard error is written on, line by line, each with `child K: ` in front. Contracts know
/// neither the arguments nor the bytes nor the exit statuses of its children.
///
/// A call fails if the system does, and if memory runs out for one more child or its arguments. An
/// end without an exit status, as after a signal, is a failure too. An interrupted read is tried
/// again, up to 1,000 times in all.
///
/// - A name without a slash is looked for in `PATH`.
/// - `read` waits until a child writes or closes its output, and `finish` waits until it ends. Both
///   can wait for ever, and no contract promises otherwise. With a limit of some seconds, a `read`
///   fails that waited so long, and `finish` kills the child after that time.
/// - What children write to their standard error is passed on while one of them is waited for.
///   Nothing else is waited for: if another process holds the pipe, what it writes after the
///   child's end is dropped.
/// - A read meets the end of an output only when every process that holds the pipe has closed it. A
///   process that the child started can delay that beyond the child's own end.
/// - `finish` kills a child unless a read met the end of its output. If the child was about to end
///   by itself, it has an exit status or none, depending on what comes first.
/// - Dropping the spawner waits for no child. Those that weren't given to `finish` are ended by the
///   guard, or run on if there is none.
#[derive(Drop)]
pub struct ProcessSpawner<R: Processes<Started = SystemProcess>> {
    rt: R,
    alloc: Global,
    // The most seconds to wait for a child that writes nothing, or no limit.
    limit: Option<u32>,
    // What went wrong first with a child.
    fault: Option<ChildFault>,
    children: Vec<Child<SystemProcess>>,
    // The outputs of the children. A child that was given to `finish` has none.
    outputs: Vec<Option<Output>>,
    errors: ErrorPipes,
    guard: ChildGuard,
    // For each child, whether a read met the end of its output.
    at_end: Vec<bool>,
    // For each child, whether it was given to `finish`.
    finished: Vec<bool>,
    // For each child, whether its `finish` failed.
    lost: Vec<bool>,
    // The number of failed starts and reads.
    faults: u64,
    ghost one_child_each: { vec_len children ≡ vec_len finished },
    ghost one_output_each: { vec_len outputs ≡ vec_len finished },
    ghost one_end_each: { vec_len at_end ≡ vec_len finished },
    ghost one_loss_each: { vec_len lost ≡ vec_len finished },
}

impl<R: Processes<Started = SystemProcess> + Copy> ProcessSpawner<R> {
    ghost use Rattle.std.specs.Prelude.{◌≡◌, []};
    ghost use Rattle.lane.specs.child_processes.Processes.{opaque_state};
    ghost use Rattle.lane.specs.child_processes.ProcessSpawner.{process_state};

    /// A spawner without children, which waits `limit` seconds for a child that writes nothing. What
    /// children write to their standard error goes to `err`.
    pub fn new(rt: &R, alloc: Global, err: Stderr, limit: Option<u32>) -> ProcessSpawner<R>
        ensures { process_state result ≡ opaque_state [] [] 0 }
    {
        ProcessSpawner {
            rt: *rt,
            alloc,
            limit,
            fault: None,
            children: Vec::new(alloc),
            outputs: Vec::new(alloc),
            errors: ErrorPipes::new(alloc, err),
            guard: ChildGuard::new(alloc),
            at_end: Vec::new(alloc),
            finished: Vec::new(alloc),
            lost: Vec::new(alloc),
            faults: 0,
        }
    }
}

impl<R: Processes<Started = SystemProcess>> ProcessSpawner<R> {
    ghost use Rattle.std.specs.Prelude.{◌≡◌, ◌≤◌, ◌++◌, ◌∷◌, [], length, false, IfSome, IfNone};
    ghost use Rattle.std.specs.Prelude.{OnErr};
    ghost use Rattle.det_io.specs.Count.{Rose};
    ghost use Rattle.lane.specs.child_processes.Spawners.{Starts, words_of};
    ghost use Rattle.lane.specs.child_processes.Processes.{opaque_state};
    ghost use Rattle.lane.specs.child_processes.ProcessSpawner.{process_state, finished_of};
    ghost use Rattle.lane.specs.child_processes.ProcessSpawner.{lost_of, HasRoom};

    /// What went wrong first with a child that wasn't stopped here. None after a read that failed.
    pub fn take_fault(&mut self) -> Option<ChildFault> {
        self.fault.take()
    }

    // Adds a child that was started.
    fn keep(&mut self, child: Child<SystemProcess>, output: Output)
        requires { HasRoom self.old }
        ensures { process_state self.new
            ≡ opaque_state (finished_of self.old ++ false ∷ []) (lost_of self.old ++ false ∷ [])
            (process_state self.old).faults }
    {
        push_within(&mut self.children, child);
        push_within(&mut self.outputs, Some(output));
        push_within(&mut self.at_end, false);
        push_within(&mut self.finished, false);
        push_within(&mut self.lost, false);
    }

    // Starts a child. Room in the lists is reserved first, so that a started child is never lost.
    fn add(&mut self, words: &[String]) -> Option<u32>
        requires { 0 < length words.now }
        ensures starts { IfSome result
            (Starts (process_state self.old) (process_state self.new) (words_of words.now)) }
        ensures stay { IfNone result (process_state self.new ≡ process_state self.old) }
        ensures faults { self.new.faults ≡ self.old.faults }
    {
        let number = u32::try_from(self.children.len()).ok()?;
        self.children.reserve(1).ok()?;
        self.outputs.reserve(1).ok()?;
        self.at_end.reserve(1).ok()?;
        self.finished.reserve(1).ok()?;
        self.lost.reserve(1).ok()?;
        self.errors.make_room(number).ok()?;
        let mut child = match spawn_child(&self.rt, self.alloc, words) {
            Ok(child) => child,
            Err(error) => {
                self.fault = Some(ChildFault::NotStarted(error));
                return None;
            }
        };
        let Some(output) = child_output(self.alloc, &mut child) else {
            let _ = child.kill();
            let _ = child.wait();
            return None;
        };
        self.guard.add(child.id());
        self.errors.add(number, child.stderr.take());
        self.keep(child, output);
        Some(number)
    }

    // Counts an answer that is a failure, and returns the answer.
    fn counted<T>(&mut self, answer: Result<T, SpawnFailed>) -> Result<T, SpawnFailed>
        ensures answer { result ≡ answer }
        ensures children { self.new.children ≡ self.old.children }
        ensures finished { finished_of self.new ≡ finished_of self.old }
        ensures lost { lost_of self.new ≡ lost_of self.old }
        ensures cause { OnErr answer (Rose self.old.faults self.new.faults) }
        ensures counted { self.old.faults ≤ self.new.faults }
    {
        if answer.is_err() {
            self.faults = self.faults.saturating_add(1);
        }
        answer
    }
}

impl<R: Processes<Started = SystemProcess> + Clock + Copy> Spawner for ProcessSpawner<R> {
    ghost use Rattle.std.specs.Prelude.{◌≡◌, ◌<◌, false, IfOk};
    ghost use Rattle.std.specs.Result.{is_err};
    ghost use Rattle.lane.specs.child_processes.Spawners.{Finishes, Fixed, StatusIs};
    ghost use Rattle.lane.specs.child_processes.ProcessSpawner.{process_state, EndedWith};

    ghost sees = { λ s. process_state s };

    fn start(&mut self, words: &[String]) -> Result<u32, SpawnFailed> {
        self.guard.start(&self.rt);
        let number = self.add(words).ok_or(SpawnFailed);
        self.guard.end_if_idle();
        self.counted(number)
    }

    fn read(&mut self, child: u32, buf: &mut [u8]) -> Result<usize, SpawnFailed> {
        let index = child as usize;
        if self.finished[index] {
            return Ok(0);
        }
        let waited = await_output(&self.rt, &mut self.errors, &self.outputs[index], self.limit);
        self.fault = self.fault.take().or(late_fault(waited, child));
        let moved = match waited {
            Ok(()) => read_child_output(&mut self.outputs[index], buf),
            Err(_) => Err(SpawnFailed),
        };
        if moved == Ok(0) && !buf.is_empty() {
            self.at_end[index] = true;
        }
        self.counted(moved)
    }

    fn finish(&mut self, child: u32) -> Result<u8, SpawnFailed>
        requires started { child < (process_state self.old).children }
        requires running { (process_state self.old).finished child ≡ false }
        ensures finishes { Finishes (process_state self.old) (process_state self.new) child }
        ensures fixed { Fixed (process_state self.old) (process_state self.new) }
        ensures status { IfOk result (StatusIs (process_state self.old) child) }
        ensures lost { (process_state self.new).lost child ≡ is_err result }

        ensures ended { IfOk result (EndedWith self.new child) }
    {
        let index = child as usize;
        self.finished[index] = true;
        if !self.at_end[index] {
            let _ = self.children[index].kill();
        }
        let waited = self
            .errors
            .await_end(&self.rt, &mut self.children[index], self.limit);
        self.fault = self.fault.take().or(late_fault(waited, child));
        let is_read = self.errors.finish(index).is_ok() && waited != Err(WaitFault::Failed);
        // Only now, so that a process of the child that goes on doesn't complain of it above.
        self.outputs[index] = None;
        let ended = end_of_child(&mut self.children[index], is_read);
        if let (Err(Some(status)), true) = (ended, self.at_end[index]) {
            let fault = ChildFault::NoNumber(child, status);
            self.fault = self.fault.take().or(Some(fault));
        }
        self.guard.remove(self.children[index].id());
        self.lost[index] = ended.is_err();
        ended.map_err(|_| SpawnFailed)
    }
}

fn spawn_child<R: Processes<Started = SystemProcess>>(
    rt: &R,
    alloc: Global,
    words: &[String],
) -> io::Result<Child<SystemProcess>>
    requires { 0 < length words.now }
{
    let mut command = Command::new(alloc, words[0].as_str())?;
    for word in &words[1..] {
        command.arg(word.as_str())?;
    }
    command
        .stdin(Stdio::null())
        .stdout(Stdio::piped())
        .stderr(Stdio::piped())
        .spawn(rt)
}

// The output of a child that was just started. None if there is no memory for its buffer.
fn child_output(alloc: Global, child: &mut Child<SystemProcess>) -> Option<Output> {
    let pipe = child.stdout.take()?;
    BufReader::with_capacity(alloc, READ_AHEAD, pipe).ok()
}

// Waits until a read of a child's output doesn't wait.
fn await_output<R: Clock>(
    rt: &R,
    errors: &mut ErrorPipes,
    output: &Option<Output>,
    limit: Option<u32>,
) -> Result<(), WaitFault> {
    match output {
        Some(output) if output.buffer().is_empty() => {
            errors.await_output(rt, output.get_ref().as_raw_fd(), limit)
        }
        _ => Ok(()),
    }
}

// The fault of a child for which the time was up.
fn late_fault(waited: Result<(), WaitFault>, child: u32) -> Option<ChildFault> {
    match waited {
        Err(WaitFault::Late) => Some(ChildFault::Late(child)),
        _ => None,
    }
}

// Reads once from a child's output. A child without an output is a failure.
fn read_child_output(output: &mut Option<Output>, buf: &mut [u8]) -> Result<usize, SpawnFailed>
    ensures { IfOk result (λ n. n ≤ length buf.old) }
{
    match output.as_mut() {
        Some(output) => read_with_retries(output, buf).map_err(|_| SpawnFailed),
        None => Err(SpawnFailed),
    }
}

// The number with which a child ended, or was killed. A failure if its standard error wasn't read,
// or if it ended with no number, with what it has in its place.
fn end_of_child(child: &mut Child<SystemProcess>, is_read: bool) -> Result<u8, Option<ExitStatus>>
    ensures { IfOk result (λ status. code_of child.new ≡ Some (pos status)) }
{
    let status = child.wait().map_err(|_| None)?;
    if !is_read {
        return Err(None);
    }
    let code = status.code().ok_or(Some(status))?;
    u8::try_from(code).map_err(|_| None)
}
