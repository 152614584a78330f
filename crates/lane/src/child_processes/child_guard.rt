//! `ChildGuard`, which ends the children of a process that a signal ended.
use std::alloc::Global;
use std::io::{self, Write};
use std::process::{Child, Command, Processes, Stdio, SystemProcess};

/// The shell that is the guard. It isn't looked for in `PATH`.
const SHELL: &str = "/bin/sh";

/// The name under which the guard is among the processes.
const NAME: &str = "det_lane_guard";

/// What the shell runs. Its input has a line `+N` for each process that was started, and `-N` for
/// each that was waited for. The input ends with the process that writes it, and no later, since a
/// child has no descriptor but 0, 1 and 2. Signals to all processes of a terminal are ignored.
const SCRIPT: &str = "\
trap '' HUP INT QUIT PIPE TERM TSTP
living=' '
while read -r line; do
    number=${line#?}
    case $line in
    +*) living=\"$living$number \" ;;
    -*) living=\"${living%% $number *} ${living##* $number }\" ;;
    esac
done
kill -KILL $living
";

/// A process beside the children that kills them if this process was ended by a signal, also by
/// SIGKILL. The kit has no call that receives a signal, and none that ties a child to the process
/// that started it. The guard is told which children live, and kills them at the end of its input.
///
/// It is there while a child is. If `/bin/sh` can't be started, or a line can't be written to it,
/// there is none, and nothing else changes. No contract speaks of it, and only tests show it.
///
/// - It doesn't know processes that a child started.
/// - A child isn't known to it between its start and the line with its number.
/// - A signal to all processes of a terminal ends it in its first moments, before its `trap`.
/// - It can't kill a child that runs as another user.
#[derive(Drop)]
pub struct ChildGuard {
    alloc: Global,
    guard: Option<Child<SystemProcess>>,
    // How many children were added and not removed.
    living: u32,
}

impl ChildGuard {
    /// No guard.
    pub fn new(alloc: Global) -> ChildGuard {
        ChildGuard {
            alloc,
            guard: None,
            living: 0,
        }
    }

    /// Starts the guard if no child lives. Else it is there, or the children do without it.
    pub fn start<R: Processes<Started = SystemProcess>>(&mut self, rt: &R) {
        if self.living == 0 && self.guard.is_none() {
            self.guard = start_guard(rt, self.alloc).ok();
        }
    }

    /// Names a child that was started.
    pub fn add(&mut self, process: u32) {
        self.living = self.living.saturating_add(1);
        self.tell('+', process);
    }

    /// Names a child that was waited for. Its number can soon be that of another process.
    pub fn remove(&mut self, process: u32) {
        self.living = self.living.saturating_sub(1);
        self.tell('-', process);
        self.end_if_idle();
    }

    /// Ends the guard if no child lives.
    pub fn end_if_idle(&mut self) {
        if self.living == 0 {
            self.end();
        }
    }

    // Writes a line to the guard, and ends it if that fails: it would kill what it shouldn't.
    fn tell(&mut self, sign: char, process: u32) {
        let Some(guard) = self.guard.as_mut() else {
            return;
        };
        let line = format!(in self.alloc; "{sign}{process}\n");
        if !line.is_ok_and(|line| write_line(guard, line.as_bytes())) {
            self.end();
        }
    }

    // Ends the guard and waits for it. It is killed before its input is closed, so that it kills no
    // child, and that a guard which was stopped is no delay.
    fn end(&mut self) {
        if let Some(mut guard) = self.guard.take() {
            let _ = guard.kill();
            let _ = guard.wait();
        }
    }
}

// Starts the shell. Its environment is empty, so that no variable changes what it does.
fn start_guard<R: Processes<Started = SystemProcess>>(
    rt: &R,
    alloc: Global,
) -> io::Result<Child<SystemProcess>> {
    let mut command = Command::new(alloc, SHELL)?;
    command.arg("-c")?.arg(SCRIPT)?.arg(NAME)?;
    command
        .env_clear()
        .stdin(Stdio::piped())
        .stdout(Stdio::null())
        .stderr(Stdio::null())
        .spawn(rt)
}

// Whether all of the line was written. A guard that has ended gives an error and no signal.
fn write_line(guard: &mut Child<SystemProcess>, line: &[u8]) -> bool {
    match guard.stdin.as_mut() {
        Some(input) => input.write_all(line).is_ok(),
        None => false,
    }
}
