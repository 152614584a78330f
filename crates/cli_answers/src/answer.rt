//! `Answer`, how a command ended, with its status and its line on standard error.
ghost use Rattle.std.specs.Prelude.{◌≡◌, ◌+◌, ◌≤◌, ◌++◌, length, codes, decimal};
ghost use Rattle.det_io.specs.Traffic.{sink_run};
ghost use Rattle.manifest.specs.KeyTexts.{key_text};
ghost use Rattle.cli_answers.specs.Answers.{status_of, reason_word, ended, err_line};
ghost use Rattle.cli_answers.specs.Answers.{table_text, unknown_text};
ghost use Rattle.cli_answers.specs.Answers.{bad_manifest_text, bad_record_text};
ghost use Rattle.cli_answers.specs.Outcome.{WritesLine};

use crate::line::{AnswerLine, write_line};
use crate::status::Status;
use det_io::{Failure, Sink, Stopped};
use manifest::{Key, KeyTable, ManifestFault, UnknownKey};
use record_grammar::{Reason, RecordFault};

/// Why a manifest is refused: a fault of its text, or the least parameter that its job refuses,
/// counted from 0.
#[derive(Clone, Copy, Debug, PartialEq, Eq, Drop)]
pub enum BadManifest {
    Fault(ManifestFault),
    Parameter(u8),
}

/// How a command ended. A variant carries what its line on standard error reports.
#[derive(Clone, Copy, Debug, PartialEq, Eq, Drop)]
pub enum Answer {
    Done,
    /// The copies differ, or a record differs from the run of its own inputs. `compare` and `check`
    /// print the place, and `upgrade` stops before it.
    Differs,
    BadWords,
    BadManifest(BadManifest),
    /// The number of the bad line, counted from 1.
    BadStimulus { line: u64 },
    /// The copy, counted from 0, and its fault. A command that reads one record reports copy 0.
    BadRecord { copy: u32, fault: RecordFault },
    /// The record's header names an unknown job, or the job refuses the header's parameters.
    BadProfile,
    ReadFault,
    WriteFault,
    OutOfMemory,
    /// The first row, counted from 0, that no majority of the copies holds.
    NoMajority { row: u32 },
}

impl From<Failure> for Answer {
    ghost use Rattle.std.specs.Prelude.{◌≡◌};
    ghost use Rattle.cli_answers.specs.Answers.{failed};

    ghost from_gives = { λ failure answer. answer ≡ failed failure };

    fn from(failure: Failure) -> Answer {
        match failure {
            Failure::Read => Answer::ReadFault,
            Failure::Write => Answer::WriteFault,
            Failure::OutOfMemory => Answer::OutOfMemory,
        }
    }
}

impl From<Stopped<BadManifest>> for Answer {
    ghost use Rattle.std.specs.Prelude.{◌≡◌};
    ghost use Rattle.cli_answers.specs.Answers.{without_manifest};

    ghost from_gives = { λ stopped answer. answer ≡ without_manifest stopped };

    fn from(stopped: Stopped<BadManifest>) -> Answer {
        match stopped {
            Stopped::Refused(why) => Answer::BadManifest(why),
            Stopped::Failed(failure) => Answer::from(failure),
        }
    }
}

impl From<Stopped<RecordFault>> for Answer {
    ghost use Rattle.std.specs.Prelude.{◌≡◌};
    ghost use Rattle.cli_answers.specs.Answers.{stopped};

    ghost from_gives = { λ stop answer. answer ≡ stopped stop };

    fn from(stop: Stopped<RecordFault>) -> Answer {
        match stop {
            Stopped::Refused(fault) => Answer::BadRecord { copy: 0, fault },
            Stopped::Failed(failure) => Answer::from(failure),
        }
    }
}

fn reason_answer_word(reason: Reason) -> &'static str
    ensures word { result.now ≡ reason_word reason }
    ensures short { length result.now ≤ 9 }
{
    match reason {
        Reason::Magic => "magic",
        Reason::Version => "version",
        Reason::Range => "range",
        Reason::Order => "order",
        Reason::TooMany => "too_many",
        Reason::Truncated => "truncated",
        Reason::Trailing => "trailing",
    }
}

fn key_answer_line(words: &str, key: Key) -> AnswerLine
    requires { length words.now ≤ 40 }
    ensures { result ≡ ended (words.now ++ key_text key) }
{
    let mut line = AnswerLine::new();
    line.push(words);
    line.push(key.text().as_str());
    line.push("\n");
    line
}

fn number_answer_line(words: &str, number: u64) -> AnswerLine
    requires { length words.now ≤ 40 }
    ensures { result ≡ ended (words.now ++ decimal number) }
{
    let mut line = AnswerLine::new();
    line.push(words);
    line.push_number(number);
    line.push("\n");
    line
}

impl AnswerLine {
    fn push_table(&mut self, table: KeyTable)
        requires { length self.old ≤ 40 }
        ensures text { self.new ≡ self.old ++ table_text table }
        ensures short { length self.new ≤ length self.old + 27 }
    {
        match table {
            KeyTable::Top => {}
            KeyTable::Event(number) => {
                self.push("event.");
                self.push_number(number as u64);
                self.push(".");
            }
            KeyTable::InitNeeds => self.push("init_needs."),
            KeyTable::RunNeeds => self.push("run_needs."),
        }
    }
}

fn unknown_key_answer_line(key: UnknownKey) -> AnswerLine
    ensures { result ≡ ended (codes "bad manifest: unknown key " ++ unknown_text key) }
{
    let mut line = AnswerLine::from_text("bad manifest: unknown key ");
    line.push_table(key.table);
    line.push_printable(key.as_slice());
    line.push("\n");
    line
}

fn fault_line(fault: ManifestFault) -> AnswerLine
    ensures { result
        ≡ ended (codes "bad manifest: " ++ bad_manifest_text (BadManifest.Fault fault)) }
{
    match fault {
        ManifestFault::TooLong => AnswerLine::from_text("bad manifest: too long\n"),
        ManifestFault::NotToml => AnswerLine::from_text("bad manifest: not toml\n"),
        ManifestFault::Missing(key) => key_answer_line("bad manifest: missing ", key),
        ManifestFault::WrongKind(key) => key_answer_line("bad manifest: wrong kind ", key),
        ManifestFault::OutOfRange(key) => key_answer_line("bad manifest: out of range ", key),
        ManifestFault::UnknownKey(key) => unknown_key_answer_line(key),
        ManifestFault::DuplicateEvent(number) => {
            number_answer_line("bad manifest: duplicate event ", number as u64)
        }
        ManifestFault::UnknownJob => AnswerLine::from_text("bad manifest: unknown job\n"),
    }
}

fn manifest_answer_line(why: BadManifest) -> AnswerLine
    ensures { result ≡ ended (codes "bad manifest: " ++ bad_manifest_text why) }
{
    match why {
        BadManifest::Fault(fault) => fault_line(fault),
        BadManifest::Parameter(index) => {
            number_answer_line("bad manifest: bad parameter ", index as u64)
        }
    }
}

fn record_answer_line(copy: u32, fault: RecordFault) -> AnswerLine
    ensures { result ≡ ended (bad_record_text copy fault) }
{
    let mut line = AnswerLine::new();
    line.push("bad record: copy ");
    line.push_number(copy as u64);
    line.push(" offset ");
    line.push_number(fault.offset);
    line.push(" ");
    line.push(reason_answer_word(fault.reason));
    line.push("\n");
    line
}

impl Answer {
    /// The exit status.
    pub fn status(self) -> Status
        ensures { result ≡ status_of self }
    {
        match self {
            Answer::Done => Status::Done,
            Answer::Differs => Status::Differs,
            Answer::BadWords => Status::BadWords,
            Answer::BadManifest(_) => Status::BadManifest,
            Answer::BadStimulus { .. } => Status::BadStimulus,
            Answer::BadRecord { .. } => Status::BadRecord,
            Answer::BadProfile => Status::BadRecord,
            Answer::ReadFault => Status::ReadFault,
            Answer::WriteFault => Status::WriteFault,
            Answer::OutOfMemory => Status::OutOfMemory,
            Answer::NoMajority { .. } => Status::NoMajority,
        }
    }

    /// The line for standard error, empty for `Done` and `Differs`. It allocates nothing, so a
    /// command that ran out of memory can still report it.
    pub fn line(self) -> AnswerLine
        ensures { result ≡ err_line self }
    {
        match self {
            Answer::Done => AnswerLine::new(),
            Answer::Differs => AnswerLine::new(),
            Answer::BadWords => AnswerLine::from_text("bad words\n"),
            Answer::BadManifest(why) => manifest_answer_line(why),
            Answer::BadStimulus { line } => number_answer_line("bad stimulus: line ", line),
            Answer::BadRecord { copy, fault } => record_answer_line(copy, fault),
            Answer::BadProfile => AnswerLine::from_text("bad record: profile\n"),
            Answer::ReadFault => AnswerLine::from_text("read fault\n"),
            Answer::WriteFault => AnswerLine::from_text("write fault\n"),
            Answer::OutOfMemory => AnswerLine::from_text("out of memory\n"),
            Answer::NoMajority { row } => number_answer_line("no majority: row ", row as u64),
        }
    }
}

/// Ends a program whose memory ran out before its command began: writes the line and returns the
/// status. All three programs end so.
pub fn report_out_of_memory<E: Sink>(err: &mut E) -> Status
    ensures line { WritesLine (err_line Answer.OutOfMemory)
        (sink_run E.took E.faults err.old err.new) }
    ensures status { result ≡ status_of Answer.OutOfMemory }
{
    let answer = Answer::OutOfMemory;
    write_line(&answer.line(), err);
    answer.status()
}
