//! The commands that write the record of a run, apart from the others because they gather its short
//! frames into long writes.
ghost use Rattle.std.specs.Prelude.{◌≡◌, ◌≤◌, [], true, IfSome};
ghost use Rattle.std.specs.Option.{unwrap_or};
ghost use Rattle.det_io.specs.Traffic.{sink_run};
ghost use Rattle.manifest.specs.Limits.{IsWorkers};
ghost use Rattle.cli_words.specs.Command.{command_value};
ghost use Rattle.cli_words.specs.Ranges.{IsInRange};
ghost use Rattle.det_cli.specs.Records.{RunsUnseen, writes_record, front_run};

use cli_answers::Answer;
use cli_words::{Command, CommandWord, Options};
use cmd_rerun::replay_command::replay;
use cmd_rerun::upgrade_command::upgrade;
use cmd_run::chain_command::{ChainTask, chain};
use cmd_run::record_command::{RecordTask, RunOptions, demo, record_by_manifest};
use det_io::sink_buffer::{Front, Gather, SinkBuffer, Start, buffer_room};
use det_io::{Shelf, Sink, write_all};
use shipped_crews::{Host, Workers};
use std::marker::Brand;
use std::thread::Threads;

/// Runs a command that writes the record of a run. The output is gathered into writes of up to
/// 65,536 bytes, and everything is written before this returns. A write that fails is a write
/// fault. After a write that failed during the run, what is held is tried once more; the answer
/// stays a write fault. `show` and reports aren't gathered, since no probe may see a run whose
/// lines weren't taken.
pub(crate) fn dispatch_gathered<S, K, R>(
    host: &Host<'_, R>,
    command: &Command<'_>,
    shelf: &mut S,
    out: &mut K,
) -> Answer
where
    S: Shelf,
    K: Sink,
    R: Threads,
    requires range { IsInRange (command_value command.now) }
    requires word { writes_record command.now.word ≡ true }
    ensures { RunsUnseen (command_value command.now) (S.sees shelf.old) (S.sees shelf.new)
        (sink_run K.took K.faults out.old out.new) result }
{
    let Ok(mut room) = buffer_room(host.alloc) else {
        return Answer::OutOfMemory;
    };
    let front = Front::new(out, &mut room);
    let (answer, sink, held) = dispatch_to_front(host, command, shelf, front);
    match write_all(sink, held.as_slice()) {
        Ok(()) => answer,
        Err(_) => Answer::WriteFault,
    }
}

/// Runs the command over a front of the sink. Returns the sink with the bytes that are still held.
fn dispatch_to_front<'a, 'r, S, K, R>(
    host: &Host<'_, R>,
    command: &Command<'_>,
    shelf: &mut S,
    front: Front<'a, 'r, K>,
) -> (Answer, &'a mut K, &'r mut Vec<u8>)
where
    S: Shelf,
    K: Sink,
    R: Threads,
    requires range { IsInRange (command_value command.now) }
    requires word { writes_record command.now.word ≡ true }
    ensures same_sink { result.1.ghost_name ≡ front.entry.sink.ghost_name }
    ensures counted { K.faults front.entry.sink.now ≤ K.faults result.1.now }
    ensures runs { RunsUnseen (command_value command.now) (S.sees shelf.old) (S.sees shelf.new)
        (front_run (K.took front.entry.sink.now) (K.took front.entry.sink.now)
        (K.took result.1.now) front.entry.held.now.items result.2.now.items
        (K.faults front.entry.sink.now) (K.faults result.1.now)) result.0 }
{
    let (answer, front) = dispatch_to_gatherer::<Front<'a, 'r, K>, Brand, S, R>(
        host, command, shelf, front,
    );
    let Front { sink, held } = front;
    (answer, sink, held)
}

/// Runs the command over anything that gathers, and returns that.
fn dispatch_to_gatherer<P, B, S, R>(
    host: &Host<'_, R>,
    command: &Command<'_>,
    shelf: &mut S,
    front: P,
) -> (Answer, P)
where
    P: Gather,
    B: Start,
    S: Shelf,
    R: Threads,
    requires range { IsInRange (command_value command.now) }
    requires word { writes_record command.now.word ≡ true }
    requires name { P.name front ≡ B.name }
    requires faults { P.faults front ≡ B.faults }
    ensures same_sink { P.name result.1 ≡ P.name front }
    ensures counted { P.faults front ≤ P.faults result.1 }
    ensures runs { RunsUnseen (command_value command.now) (S.sees shelf.old) (S.sees shelf.new)
        (front_run B.took (P.took front) (P.took result.1) (P.held front) (P.held result.1)
        (P.faults front) (P.faults result.1)) result.0 }
{
    let mut buffer = SinkBuffer::<P, B>::new(front);
    let answer = dispatch_record_command(host, command, shelf, &mut buffer);
    (answer, buffer.into_front())
}

/// Runs the command over a sink.
fn dispatch_record_command<S, K, R>(
    host: &Host<'_, R>,
    command: &Command<'_>,
    shelf: &mut S,
    out: &mut K,
) -> Answer
where
    S: Shelf,
    K: Sink,
    R: Threads,
    requires range { IsInRange (command_value command.now) }
    requires word { writes_record command.now.word ≡ true }
    ensures { RunsUnseen (command_value command.now) (S.sees shelf.old) (S.sees shelf.new)
        (sink_run K.took K.faults out.old out.new) result }
{
    let first = command.name(0);
    let second = command.name(1);
    let Options {
        workers,
        seed,
        strict,
        ..
    } = command.options;
    let options = RunOptions {
        strict,
        seed,
        workers,
    };
    match command.word {
        CommandWord::Demo => demo(host, first, shelf, out),
        CommandWord::Record => {
            let task = RecordTask {
                manifest: first,
                stimulus: second,
                options,
            };
            record_by_manifest(host, &task, shelf, out)
        }
        CommandWord::Replay => replay(&workers_by_option(host, workers), first, shelf, out),
        CommandWord::Upgrade => upgrade(&workers_by_option(host, workers), first, shelf, out),
        CommandWord::Chain => {
            let task = ChainTask {
                first,
                second,
                stimulus: command.name(2),
                options,
            };
            chain(host, &task, shelf, out)
        }
        // The other commands don't write the record of a run.
        _ => unreachable!(),
    }
}

/// The workers of a command whose number is given or else 1.
pub(crate) fn workers_by_option<'h, R>(host: &Host<'h, R>, given: Option<u32>) -> Workers<'h, R>
    requires { IfSome given IsWorkers }
    ensures { result.count ≡ unwrap_or given 1 }
{
    host.workers(given.unwrap_or(1))
}
