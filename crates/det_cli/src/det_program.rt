//! `top`, which runs the command that the arguments name.
ghost use Rattle.std.specs.Prelude.{◌≡◌, true, map, option_map, MatchOption};
ghost use Rattle.det_io.specs.Traffic.{sink_run};
ghost use Rattle.cli_answers.specs.Ends.{can_end, reads_nothing};
ghost use Rattle.cli_answers.specs.Outcome.{Meets, text_outcome};
ghost use Rattle.cli_words.specs.Names.{texts};
ghost use Rattle.cli_words.specs.Command.{command_value};
ghost use Rattle.cli_words.specs.Reading.{command_of};
ghost use Rattle.cli_words.specs.Ranges.{IsInRange};
ghost use Rattle.probes.specs.Shows.{seen};
ghost use Rattle.det_cli.specs.Texts.{command_page, help_text};
ghost use Rattle.det_cli.specs.Outcome.{form_of};
ghost use Rattle.det_cli.specs.Promise.{Runs, Refuses, IsPromised};
ghost use Rattle.det_cli.specs.Records.{RunsUnseen};

use crate::det_usage::{USAGE, VERSION};
use crate::pages::{
    CHAIN, CHECK, COMPARE, DEMO, NEEDS, RECORD, REPLAY, SALVAGE, SHOW, SIM, UPGRADE, VOTE,
};
use crate::record_commands::{dispatch_gathered, workers_by_option};
use cli_answers::{Answer, Status, write_line};
use cli_words::laws::option_range_law;
use cli_words::{Command, CommandWord, Options, read_words};
use cmd_records::compare_command::compare;
use cmd_records::record_show::{Notation, ShowForm};
use cmd_records::salvage_command::{salvage, salvage_reports};
use cmd_records::show_command::show;
use cmd_records::vote_command::{vote, vote_dissent};
use cmd_rerun::check_command::check;
use cmd_run::needs_command::needs;
use cmd_run::sim_command::sim;
use det_io::{Shelf, Sink, write_all};
use probes::{Audience, Probe};
use shipped_crews::Host;
use std::alloc::Global;
use std::thread::Threads;

/// Runs the command that the arguments after the program's name give.
///
/// `record`, `demo`, `sim`, `chain`, `replay`, `check` and `upgrade` run their cycles by workers on
/// real threads. At most one worker runs for each block of elements, and at least one runs. Each
/// worker that runs passes the gate; one beyond them isn't started and doesn't pass.
///
/// `show`, `sim`, `check` and `salvage` show the runs that they read or make to the audience.
pub fn top<S, K, E, R>(
    host: &Host<'_, R>,
    words: &[String],
    shelf: &mut S,
    out: &mut K,
    err: &mut E,
    audience: &mut Audience,
) -> Status
where
    S: Shelf,
    K: Sink,
    E: Sink,
    R: Threads,
    ensures { IsPromised (texts words.now) (S.sees shelf.old) (S.sees shelf.new)
        (sink_run K.took K.faults out.old out.new)
        (sink_run E.took E.faults err.old err.new)
        (seen (λ b. life (b.vtable, b.value)) audience.old)
        (seen (λ b. life (b.vtable, b.value)) audience.new) result }
{
    let answer = dispatch_words(host, words, shelf, out, audience);
    write_line(&answer.line(), err);
    answer.status()
}

fn dispatch_words<S, K, R>(
    host: &Host<'_, R>,
    words: &[String],
    shelf: &mut S,
    out: &mut K,
    audience: &mut Audience,
) -> Answer
where
    S: Shelf,
    K: Sink,
    R: Threads,
    ensures { MatchOption (command_of (texts words.now))
        (Refuses (S.sees shelf.old) (S.sees shelf.new)
        (sink_run K.took K.faults out.old out.new)
        (seen (λ b. life (b.vtable, b.value)) audience.old)
        (seen (λ b. life (b.vtable, b.value)) audience.new) result)
        (λ c. Runs c (S.sees shelf.old) (S.sees shelf.new)
        (sink_run K.took K.faults out.old out.new)
        (seen (λ b. life (b.vtable, b.value)) audience.old)
        (seen (λ b. life (b.vtable, b.value)) audience.new) result) }
{
    option_range_law();
    match read_words(words) {
        Some(command) => dispatch_command(host, command, shelf, out, audience),
        None => Answer::BadWords,
    }
}

fn dispatch_command<S, K, R>(
    host: &Host<'_, R>,
    command: Command<'_>,
    shelf: &mut S,
    out: &mut K,
    audience: &mut Audience,
) -> Answer
where
    S: Shelf,
    K: Sink,
    R: Threads,
    requires range { IsInRange (command_value command) }
    ensures { Runs (command_value command.entry) (S.sees shelf.old) (S.sees shelf.new)
        (sink_run K.took K.faults out.old out.new)
        (seen (λ b. life (b.vtable, b.value)) audience.old)
        (seen (λ b. life (b.vtable, b.value)) audience.new) result }
{
    let alloc = host.alloc;
    let first = command.name(0);
    let Options {
        workers,
        strict,
        ..
    } = command.options;
    match command.word {
        CommandWord::Demo
        | CommandWord::Record
        | CommandWord::Replay
        | CommandWord::Upgrade
        | CommandWord::Chain => dispatch_gathered(host, &command, shelf, out),
        CommandWord::Show => {
            show(
                alloc,
                first,
                show_form(&command.options),
                shelf,
                out,
                audience,
            )
        }
        CommandWord::Needs => needs(alloc, first, strict, shelf, out),
        CommandWord::Sim => sim(
            &workers_by_option(host, workers),
            command.number(),
            out,
            audience,
        ),
        CommandWord::Help => match help_text(command.names.as_slice()) {
            Some(text) => print_page(text, out),
            // Each name that help takes is the word of a command with a page.
            None => unreachable!(),
        },
        CommandWord::Version => print_page(VERSION, out),
        CommandWord::Compare => compare(alloc, command.names.as_slice(), shelf, out),
        CommandWord::Salvage => {
            if command.options.reports {
                return salvage_reports(alloc, first, shelf, out, audience);
            }
            salvage(alloc, first, shelf, out)
        }
        CommandWord::Check => check(
            &workers_by_option(host, workers),
            first,
            shelf,
            out,
            audience,
        ),
        CommandWord::Vote => dispatch_vote(alloc, &command, shelf, out),
    }
}

/// What `show` prints of a record, and how.
fn show_form(options: &Options) -> ShowForm
    ensures { result ≡ form_of options.now }
{
    ShowForm {
        part: options.part(),
        notation: if options.json {
            Notation::Json
        } else {
            Notation::Lines
        },
    }
}

/// Writes the majority's record of the named copies, or prints which copies dissent from it.
fn dispatch_vote<S: Shelf, K: Sink>(
    alloc: Global,
    command: &Command<'_>,
    shelf: &mut S,
    out: &mut K,
) -> Answer
    requires range { IsInRange (command_value command.now) }
    requires word { command.now.word ≡ CommandWord.Vote }
    ensures { RunsUnseen (command_value command.now) (S.sees shelf.old) (S.sees shelf.new)
        (sink_run K.took K.faults out.old out.new) result }
{
    let copies = command.names.as_slice();
    if command.options.dissent {
        return vote_dissent(alloc, copies, shelf, out);
    }
    vote(alloc, copies, shelf, out)
}

/// The page of a command. `--help` and `--version` have none.
fn command_page(word: CommandWord) -> Option<&'static str>
    ensures { option_map (λ text. text.now) result ≡ command_page word }
{
    match word {
        CommandWord::Demo => Some(DEMO),
        CommandWord::Record => Some(RECORD),
        CommandWord::Show => Some(SHOW),
        CommandWord::Needs => Some(NEEDS),
        CommandWord::Sim => Some(SIM),
        CommandWord::Replay => Some(REPLAY),
        CommandWord::Check => Some(CHECK),
        CommandWord::Upgrade => Some(UPGRADE),
        CommandWord::Compare => Some(COMPARE),
        CommandWord::Vote => Some(VOTE),
        CommandWord::Salvage => Some(SALVAGE),
        CommandWord::Chain => Some(CHAIN),
        CommandWord::Help | CommandWord::Version => None,
    }
}

/// The text that `--help` prints with these names.
pub(crate) fn help_text(names: &[&str]) -> Option<&'static str>
    ensures { option_map (λ text. text.now) result
        ≡ help_text (map (λ name. name.now) names.now) }
{
    match names {
        [] => Some(USAGE),
        [name, ..] => command_page(CommandWord::from_word(name)?),
    }
}

/// Writes a text.
fn print_page<K: Sink>(text: &str, out: &mut K) -> Answer
    ensures meets { Meets (text_outcome text.now) (Unit {0}) ⊥
        (sink_run K.took K.faults out.old out.new) result }
    ensures ends { can_end reads_nothing result ≡ true }
{
    match write_all(out, text.as_bytes()) {
        Ok(()) => Answer::Done,
        Err(_) => Answer::WriteFault,
    }
}
