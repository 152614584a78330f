//! `MemSpawner`, a spawner in memory that fails at chosen calls, for tests.
ghost use Rattle.std.specs.Prelude.{◌≤◌, vec_len, vec_capacity};
ghost use Rattle.std.specs.List.{All};
ghost use Rattle.lane.specs.child_processes.Scripts.{KeepsToFirst};

mod running_child;
mod script_search;

use crate::child_processes::{SpawnFailed, Spawner};
use det_io::{FailList, PlannedCalls, push_within};
use det_values::Limited;
use running_child::RunningChild;
use std::alloc::{AllocError, Global};

/// What a child with these arguments writes, and the exit status with which it ends.
#[derive(Drop)]
pub struct Script {
    pub words: Vec<String>,
    pub bytes: Vec<u8>,
    pub status: u8,
}

impl Script {
    ghost use Rattle.std.specs.Prelude.{◌≡◌};

    /// A child with these arguments writes these bytes and ends with this status.
    pub fn new(words: Vec<String>, bytes: Vec<u8>, status: u8) -> Script
        ensures { result ≡ record { words = words; bytes = bytes; status = status } }
    {
        Script {
            words,
            bytes,
            status,
        }
    }
}

/// Scripts. Of those with equal arguments the first counts.
pub type Scripts = Limited<Script, 64>;

// The number of calls of `start` that find room.
const MOST_STARTS: u32 = 64;

/// A spawner of children that keep to scripts, for tests.
///
/// Contracts know everything about it. Only the list of calls of `start` becomes unknown, once a
/// call has the arguments of no script or finds no room. All memory is allocated by `new`: no later
/// call allocates.
#[derive(Drop)]
pub struct MemSpawner {
    scripts: Scripts,
    calls: PlannedCalls,
    faults: u64,
    // The number of calls of `start` that took room.
    starts: u32,
    knows_asked: bool,
    // The arguments of each call of `start`, as the index of their script.
    asked: Vec<usize>,
    children: Vec<RunningChild>,
    ghost starts_within: { starts ≤ 64 },
    ghost asked_within: { vec_len asked ≤ starts },
    ghost children_within: { vec_len children ≤ starts },
    ghost asked_room: { 64 ≤ vec_capacity asked },
    ghost children_room: { 64 ≤ vec_capacity children },
    ghost to_first: { All (KeepsToFirst scripts) children.items },
}

impl MemSpawner {
    ghost use Rattle.std.specs.Prelude.{IfOk};
    ghost use Rattle.lane.specs.child_processes.MemSpawner.{IsNewMemSpawner};

    /// A spawner that knows these scripts, with room for 64 calls of `start`. Its calls are
    /// numbered together from 1. A call fails if its number is listed.
    pub fn new(alloc: Global, scripts: Scripts, fails: FailList) -> Result<MemSpawner, AllocError>
        ensures { IfOk result (λ spawner. IsNewMemSpawner spawner
            (record { scripts = scripts; fails = fails })) }
    {
        let asked = Vec::with_capacity(alloc, MOST_STARTS as usize)?;
        let children = Vec::with_capacity(alloc, MOST_STARTS as usize)?;
        Ok(MemSpawner {
            scripts,
            calls: PlannedCalls { fails, made: 0 },
            faults: 0,
            starts: 0,
            knows_asked: true,
            asked,
            children,
        })
    }
}

impl Spawner for MemSpawner {
    ghost use Rattle.std.specs.Prelude.{◌≡◌, ◌<◌, ◌≤◌, ◌+◌, ◌∷◌, ◌&&◌, [], length, min, is_some};
    ghost use Rattle.std.specs.Prelude.{true, false, Some, IfOk, OnErr};
    ghost use Rattle.std.specs.Result.{is_err};
    ghost use Rattle.det_io.specs.Count.{Rose, next_count};
    ghost use Rattle.lane.specs.child_processes.Spawners.{Words, ReadsChild, moved, IsAtEnd, Fixed};
    ghost use Rattle.lane.specs.child_processes.Spawners.{Starts};
    ghost use Rattle.lane.specs.child_processes.Spawners.{ChildrenStay, Asks, Finishes, StatusIs};
    ghost use Rattle.lane.specs.child_processes.Spawners.{words_of};
    ghost use Rattle.lane.specs.child_processes.MemSpawner.{mem_spawner_state, setup_of, calls_of};
    ghost use Rattle.lane.specs.child_processes.MemSpawner.{starts_of};
    ghost use Rattle.lane.specs.child_processes.MemSpawner.{call_fails, start_fails, has_room_for};
    ghost use Rattle.lane.specs.child_processes.MemSpawner.{rest_in};

    ghost sees = { mem_spawner_state };

    fn start(&mut self, words: &[String]) -> Result<u32, SpawnFailed>
        requires { 0 < length words.now }
        ensures starts { IfOk result (Starts (mem_spawner_state self.old)
            (mem_spawner_state self.new) (words_of words.now)) }
        ensures stay { OnErr result
            (ChildrenStay (mem_spawner_state self.old) (mem_spawner_state self.new)) }
        ensures asks { Asks (mem_spawner_state self.old) (mem_spawner_state self.new)
            (words_of words.now ∷ []) }
        ensures fixed { Fixed (mem_spawner_state self.old) (mem_spawner_state self.new) }
        ensures cause { OnErr result
            (Rose (mem_spawner_state self.old).faults (mem_spawner_state self.new).faults) }
        ensures counted { (mem_spawner_state self.old).faults
            ≤ (mem_spawner_state self.new).faults }

        ensures fails { is_err result ≡ start_fails self.old (words_of words.now) }
        ensures told { is_some (mem_spawner_state self.new).asked
            ≡ (is_some (mem_spawner_state self.old).asked
            && has_room_for self.old (words_of words.now)) }
        ensures setup { setup_of self.new ≡ setup_of self.old }
        ensures calls { calls_of self.new ≡ next_count (calls_of self.old) }
        ensures took_room { starts_of self.new ≡ min (starts_of self.old + 1) 64 }
    {
        let is_listed = self.calls.next_fails();
        if self.starts == MOST_STARTS {
            self.knows_asked = false;
            self.faults = self.faults.saturating_add(1);
            return Err(SpawnFailed);
        }
        self.starts += 1;
        let Some(script) = script_search::index_of(self.scripts.as_slice(), words) else {
            self.knows_asked = false;
            self.faults = self.faults.saturating_add(1);
            return Err(SpawnFailed);
        };
        push_within(&mut self.asked, script);
        if is_listed {
            self.faults = self.faults.saturating_add(1);
            return Err(SpawnFailed);
        }
        let number = self.children.len() as u32;
        let child = RunningChild {
            script,
            at: 0,
            is_finished: false,
            is_lost: false,
        };
        push_within(&mut self.children, child);
        Ok(number)
    }

    fn read(&mut self, child: u32, buf: &mut [u8]) -> Result<usize, SpawnFailed>
        requires { child < (mem_spawner_state self.old).children }
        ensures within { IfOk result (λ n. n ≤ length buf.old) }
        ensures reads { ReadsChild (mem_spawner_state self.old) (mem_spawner_state self.new) child
            (moved result buf.new) }
        ensures end { IfOk result (λ n. n ≡ 0 → 0 < length buf.old
            → IsAtEnd (mem_spawner_state self.new) child) }
        ensures done { IfOk result
            (λ n. (mem_spawner_state self.old).finished child ≡ true → n ≡ 0) }
        ensures cause { OnErr result
            (Rose (mem_spawner_state self.old).faults (mem_spawner_state self.new).faults) }
        ensures counted { (mem_spawner_state self.old).faults
            ≤ (mem_spawner_state self.new).faults }

        ensures fails { is_err result ≡ call_fails self.old }
        ensures amount { IfOk result
            (λ n. n ≡ min (length buf.old) (length (rest_in self.old child))) }
        ensures setup { setup_of self.new ≡ setup_of self.old }
        ensures calls { calls_of self.new ≡ next_count (calls_of self.old) }
        ensures took_none { starts_of self.new ≡ starts_of self.old }
    {
        let is_to_fail = self.calls.next_fails();
        if is_to_fail {
            self.faults = self.faults.saturating_add(1);
            return Err(SpawnFailed);
        }
        let running = self.children[child as usize];
        let n = script_search::copy_script_rest(self.scripts.as_slice(), running, buf);
        self.children[child as usize] = RunningChild {
            script: running.script,
            at: running.at + n,
            is_finished: running.is_finished,
            is_lost: running.is_lost,
        };
        Ok(n)
    }

    fn finish(&mut self, child: u32) -> Result<u8, SpawnFailed>
        requires started { child < (mem_spawner_state self.old).children }
        requires running { (mem_spawner_state self.old).finished child ≡ false }
        ensures finishes { Finishes (mem_spawner_state self.old) (mem_spawner_state self.new)
            child }
        ensures fixed { Fixed (mem_spawner_state self.old) (mem_spawner_state self.new) }
        ensures status { IfOk result (StatusIs (mem_spawner_state self.old) child) }
        ensures lost { (mem_spawner_state self.new).lost child ≡ is_err result }

        ensures fails { is_err result ≡ call_fails self.old }
        // This holds also if output was left.
        ensures ends { IfOk result (λ status. (words : Words)
            → (mem_spawner_state self.old).words child ≡ Some words
            → (mem_spawner_state self.old).ends words ≡ Some status) }
        ensures setup { setup_of self.new ≡ setup_of self.old }
        ensures calls { calls_of self.new ≡ next_count (calls_of self.old) }
        ensures took_none { starts_of self.new ≡ starts_of self.old }
    {
        let is_lost = self.calls.next_fails();
        let ended = self.children[child as usize];
        self.children[child as usize] = RunningChild {
            script: ended.script,
            at: ended.at,
            is_finished: true,
            is_lost,
        };
        if is_lost {
            return Err(SpawnFailed);
        }
        Ok(script_search::status_at(self.scripts.as_slice(), ended.script))
    }
}
