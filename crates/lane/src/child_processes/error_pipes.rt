//! `ErrorPipes`, what children write to their standard error while one of them is waited for.
ghost use Rattle.std.specs.Prelude.{◌≤◌, IfOk};

use crate::child_processes::error_line::ErrorLine;
use det_io::{StdSink, read_with_retries};
use libc::net::{POLLIN, poll};
use libc::types::pollfd;
use std::alloc::{AllocError, Global};
use std::io;
use std::os::fd::{AsRawFd, RawFd};
use std::process::{Child, ChildStderr, SystemProcess};
use std::rt::{Clock, Stderr};
use std::time::Instant;

/// The number of children whose standard error is read: all of a lane.
const MOST_PIPES: usize = 8;
/// How many bytes are read at once, at most.
const PIECE: usize = 4_096;
/// How many pieces of a child that has ended are read, at most. A pipe of 1 MiB holds no more.
const MOST_PIECES: u32 = 256;
/// The longest time between two looks whether a child has ended, in milliseconds.
const LONGEST_STEP: i32 = 64;
/// No descriptor: such an entry is passed over.
const NO_PIPE: RawFd = -1;

/// The standard error of a child. It has no pipe after the end of it.
#[derive(Drop)]
struct ErrorPipe {
    pipe: Option<ChildStderr>,
    line: ErrorLine,
}

/// Why a child isn't waited for any more.
#[derive(Clone, Copy, Debug, PartialEq, Eq, Drop)]
pub enum WaitFault {
    /// It wrote nothing for as long as it may.
    Late,
    /// The system failed.
    Failed,
}

/// The standard errors of children, which are written on line by line.
#[derive(Drop)]
pub struct ErrorPipes {
    alloc: Global,
    pipes: Vec<ErrorPipe>,
    err: StdSink<Stderr>,
}

fn asked_for(fd: RawFd) -> pollfd {
    pollfd {
        fd,
        events: POLLIN,
        revents: 0,
    }
}

/// Whether the system's last call was interrupted.
fn was_interrupted() -> bool {
    os::errno() == libc::EINTR
}

/// For how many milliseconds a child may go on writing nothing, -1 without a limit, 0 if for none.
fn millis_left<R: Clock>(rt: &R, start: Instant, limit: Option<u32>) -> io::Result<i32> {
    let Some(seconds) = limit else {
        return Ok(-1);
    };
    let all = u128::from(seconds) * 1_000;
    let gone = start.elapsed(rt)?.as_millis();
    Ok(i32::try_from(all.saturating_sub(gone)).unwrap_or(i32::MAX))
}

impl ErrorPipes {
    /// No child.
    pub fn new(alloc: Global, err: Stderr) -> ErrorPipes {
        ErrorPipes {
            alloc,
            pipes: Vec::new(alloc),
            err: StdSink::new(err),
        }
    }

    /// Takes the memory for a child. It is kept if the child can't be started then.
    pub fn make_room(&mut self, child: u32) -> Result<(), AllocError> {
        if self.pipes.len() <= child as usize {
            let line = ErrorLine::new(self.alloc, child)?;
            self.pipes.push(ErrorPipe { pipe: None, line })?;
        }
        Ok(())
    }

    /// Adds the standard error of a child for which there is room.
    pub fn add(&mut self, child: u32, pipe: Option<ChildStderr>) {
        if let Some(errors) = self.pipes.get_mut(child as usize) {
            errors.pipe = pipe;
        }
    }

    /// The descriptor of a child's standard error.
    fn descriptor(&self, index: usize) -> RawFd {
        let Some(errors) = self.pipes.get(index) else {
            return NO_PIPE;
        };
        match errors.pipe.as_ref() {
            Some(pipe) => pipe.as_raw_fd(),
            None => NO_PIPE,
        }
    }

    /// Reads once what a child wrote to its standard error. A failed write of it isn't reported.
    fn pass_on(&mut self, index: usize) -> io::Result<()> {
        let Some(errors) = self.pipes.get_mut(index) else {
            return Ok(());
        };
        let mut bytes = [0; PIECE];
        let count = match errors.pipe.as_mut() {
            Some(pipe) => read_with_retries(pipe, &mut bytes)?,
            None => 0,
        };
        if count == 0 {
            errors.pipe = None;
            let _ = errors.line.finish(&mut self.err);
        } else {
            let _ = errors.line.take_bytes(&bytes[..count], &mut self.err);
        }
        Ok(())
    }

    /// Waits until this output can be read, for so many milliseconds, and passes on what comes
    /// meanwhile. It returns whether the output can be read, and may return early.
    fn wait_once(&mut self, output: RawFd, millis: i32) -> io::Result<bool> {
        let mut asked = [asked_for(output); MOST_PIPES + 1];
        let count = self.pipes.len().min(MOST_PIPES);
        for index in 0..count {
            asked[index + 1] = asked_for(self.descriptor(index));
        }
        if poll(&mut asked[..count + 1], millis) < 0 {
            return if was_interrupted() {
                Ok(false)
            } else {
                Err(io::Error::from(io::ErrorKind::Other))
            };
        }
        for index in 0..count {
            if asked[index + 1].revents != 0 {
                self.pass_on(index)?;
            }
        }
        Ok(asked[0].revents != 0)
    }

    /// Waits until a child's output can be read.
    pub fn await_output<R: Clock>(
        &mut self,
        rt: &R,
        output: RawFd,
        limit: Option<u32>,
    ) -> Result<(), WaitFault> {
        let start = Instant::now(rt).map_err(|_| WaitFault::Failed)?;
        for _ in 0..u64::MAX {
            let left = millis_left(rt, start, limit).map_err(|_| WaitFault::Failed)?;
            if left == 0 {
                return Err(WaitFault::Late);
            }
            match self.wait_once(output, left) {
                Ok(true) => return Ok(()),
                Ok(false) => {}
                Err(_) => return Err(WaitFault::Failed),
            }
        }
        Err(WaitFault::Failed)
    }

    /// Waits until a child has ended, and kills it if that takes longer than the limit.
    pub fn await_end<R: Clock>(
        &mut self,
        rt: &R,
        child: &mut Child<SystemProcess>,
        limit: Option<u32>,
    ) -> Result<(), WaitFault> {
        let start = Instant::now(rt).map_err(|_| WaitFault::Failed)?;
        let mut step = 1;
        let mut fault = Ok(());
        for _ in 0..u64::MAX {
            if has_ended(child) {
                return fault;
            }
            let left = millis_left(rt, start, limit).map_err(|_| WaitFault::Failed)?;
            if left == 0 {
                let _ = child.kill();
                fault = Err(WaitFault::Late);
            }
            if self.wait_once(NO_PIPE, step).is_err() {
                return Err(WaitFault::Failed);
            }
            step = step.saturating_add(step).min(LONGEST_STEP);
        }
        fault
    }

    /// Passes on what is left of a child that has ended.
    pub fn finish(&mut self, index: usize) -> io::Result<()> {
        for _ in 0..MOST_PIECES {
            let mut asked = [asked_for(self.descriptor(index))];
            if poll(&mut asked, 0) <= 0 {
                break;
            }
            self.pass_on(index)?;
        }
        if let Some(errors) = self.pipes.get_mut(index) {
            errors.pipe = None;
            let _ = errors.line.finish(&mut self.err);
        }
        Ok(())
    }
}

/// Whether a child can be waited for without delay.
fn has_ended(child: &mut Child<SystemProcess>) -> bool {
    match child.try_wait() {
        Ok(status) => status.is_some(),
        Err(error) => error.kind() != io::ErrorKind::Interrupted,
    }
}
