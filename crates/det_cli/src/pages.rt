//! The page of each command that `--help COMMAND` prints, at most 40 lines of at most 80 columns.
//! They aren't in the table of `cli_words`, since hints and two other programs depend on that
//! crate, and print no page of `det`.

/// The page of `demo`.
pub const DEMO: &str = "\
det demo STIM

Writes the record of the built-in filter bank over a stimulus. The bank has four
channels, the shift 2 and one event `x` of capacity 2. A cycle takes 10 ms, and
the seed is 0.

  STIM        a file with the text of a stimulus

Standard output takes the record, in binary. Where a line of the stimulus is bad
the record ends behind the cycles that were complete before it.

Exit statuses:
  0  done                      6  read fault
  2  bad words                 7  write fault
  4  bad stimulus              8  out of memory
";

/// The page of `record`.
pub const RECORD: &str = "\
det record MANIFEST STIM [--seed N] [--workers W] [--strict]

Writes the record of a manifest's job over a stimulus.

  MANIFEST    a file with the manifest, in TOML: the job, its parameters and its
              events
  STIM        a file with the text of a stimulus, which is opened once the
              manifest is judged

  --seed N       the seed of the random words, a number of 64 bits; 0 where none
                 is given
  --workers W    the number of workers, 1 to 64; the manifest's where none is
                 given. The record is the same for each number
  --strict       refuse a manifest with a key that isn't known

Standard output takes the record, in binary. Where a line of the stimulus is bad
the record ends behind the cycles that were complete before it.

Exit statuses:
  0  done                      6  read fault
  2  bad words                 7  write fault
  3  bad manifest              8  out of memory
  4  bad stimulus
";

/// The page of `show`.
pub const SHOW: &str = "\
det show RECORD [--reports | [--cycle C] [--json]]

Prints a record as text, a line for each thing that it holds.

  RECORD      a file with a record, in binary
  --reports   prints the reports alone
  --cycle C   prints the lines of cycle C alone, and no reports; C is 1 to
              1,000,000, and nothing is printed where the record has fewer
  --json      prints one JSON value a line in place of text; it goes with
              `--cycle` and not with `--reports`

Standard output takes the lines of the header and of each frame in the record's
order, and behind them three reports: how many runs were finished and refused,
the greatest time between two runs that follow each other, and the first run
that was refused. Where the record has a fault, the lines of all that is whole
before it are printed, and no reports. The whole record is read in any case.

With `--json` the header, each frame and the reports are a line each, in the
same order. A line is an object with one member: `header`, `register`,
`discover`, `init`, `run`, `terminate` or `reports`. Bytes are hex digits, and
numbers beyond 2^53 are strings.

Exit statuses:
  0  done                      6  read fault
  2  bad words                 7  write fault
  5  bad record                8  out of memory
";

/// The page of `needs`.
pub const NEEDS: &str = "\
det needs MANIFEST [--strict]

Prints the resource needs of a manifest, which is judged as `record` does it.

  MANIFEST    a file with the manifest, in TOML

  --strict       refuse a manifest with a key that isn't known

Standard output takes lines with the job, the cycle time in nanoseconds, the
number of workers, the platform, and the needs of the initialisation and of a
run: instructions, the sequential shares at begin and end, and the speedup in
thousandths.

Exit statuses:
  0  done                      6  read fault
  2  bad words                 7  write fault
  3  bad manifest              8  out of memory
";

/// The page of `sim`.
pub const SIM: &str = "\
det sim N [--workers W]

Runs the built-in cloud of 10,000 particles over a stimulus of 200 cycles that
is made of a number, and prints a summary of its record. No file is read.

  N           the number, of 64 bits; it is the seed too

  --workers W    the number of workers, 1 to 64; 1 where none is given. What is
                 printed is the same for each number

Standard output takes lines with the number, how many cycles were run and how
many refused, and the length and the SHA-256 of the record; behind them three
reports as `det show` prints them.

Exit statuses:
  0  done                      7  write fault
  2  bad words                 8  out of memory
";

/// The page of `salvage`.
pub const SALVAGE: &str = "\
det salvage RECORD [--reports]

Writes a record that breaks off, made whole up to its last whole frame.

  RECORD      a file with a record, in binary
  --reports   prints, in place of the record, how many cycles can be saved, and
              the reports of their runs

Standard output takes the header and the frames that are whole before the fault
of the record, and behind them the frame that ends a record; or the line
`salvaged N` and three reports as `det show` prints them. A record without a
fault is written as it is. One whose fault comes before its elements are whole
can't be saved: its fault is told, and nothing is written.

Exit statuses:
  0  done                      6  read fault
  2  bad words                 7  write fault
  5  bad record                8  out of memory
";

/// The page of `compare`.
pub const COMPARE: &str = "\
det compare RECORD RECORD ..

Compares two to eight copies of a record, and tells the first place where they
part.

  RECORD      a file with a record, in binary; the first is copy 0

Standard output takes one line: `agree N`, where all copies are equal and whole
and have N cycles, or `differ copy K PLACE`, where K is the first copy that is
not equal to copy 0 at that place. The places, in the order of a record:

  header         the job, seed, cycle time, parameters, events or the format
  kind F         the kind of frame F, counted from 0
  time C         the time that cycle C was given
  samples C      the samples that cycle C was given
  result C       whether, where or why cycle C was refused
  element C E    element E after cycle C; cycle 0 is the beginning
  output C       the output of cycle C

Where a copy has a fault at that place it is a bad record, and the first copy
with one is told. Each record is read only as far as the place.

Exit statuses:
  0  done                      6  read fault
  1  differs                   7  write fault
  2  bad words                 8  out of memory
  5  bad record
";

/// The page of `replay`.
pub const REPLAY: &str = "\
det replay RECORD [--workers W]

Runs the job of a record again over the inputs in the record, and writes the
record of that run, whatever outcomes the record read holds.

  RECORD         a file with a record, in binary

  --workers W    the number of workers, 1 to 64; 1 where none is given. The
                 record is the same for each number

Standard output takes the record of the run, in binary. Where the record read is
whole the run is ended; where it has a fault the fault is told behind the run of
the cycles that are whole before it. A record whose job isn't known, or takes
its parameters for bad, is a bad record too, and nothing is written.

Exit statuses:
  0  done                      6  read fault
  2  bad words                 7  write fault
  5  bad record                8  out of memory
";

/// The page of `check`.
pub const CHECK: &str = "\
det check RECORD [--workers W]

Runs the job of a record again over the inputs in the record, and tells the
first place where the record is not what that run gives.

  RECORD         a file with a record, in binary

  --workers W    the number of workers, 1 to 64; 1 where none is given. The
                 answer is the same for each number

Standard output takes the line `genuine N`, where the record is whole and every
frame is what its inputs give, and has N cycles; or `departs PLACE`, with the
first place, told as by `det compare`, at which it is not. Then come three
reports as `det show` prints them, of the cycles up to and with the one at that
place. Behind that place the record is not read. A record that has a fault, and
departs nowhere before it, is a bad record; so is one whose job is not known, or
takes its parameters for bad. Then nothing is written.

Exit statuses:
  0  done                      6  read fault
  1  differs                   7  write fault
  2  bad words                 8  out of memory
  5  bad record
";

/// The page of `upgrade`.
pub const UPGRADE: &str = "\
det upgrade RECORD [--workers W]

Runs the job of a record again over the inputs in the record, and writes the
record of that run in format 2, which tells how many words each element drew.

  RECORD         a file with a record of format 1 or 2, in binary

  --workers W    the number of workers, 1 to 64; 1 where none is given. The
                 record is the same for each number

Each frame is written once the frame that was read is found to be what the
inputs give, as far as the format read tells it. The first that is not ends it:
nothing is written behind the frames before it, and `det check` tells the place.
Where the record has a fault, the fault is told behind the frames that are whole
before it. A record whose job is not known, or takes its parameters for bad, is
a bad record too, and nothing is written.

Exit statuses:
  0  done                      6  read fault
  1  differs                   7  write fault
  2  bad words                 8  out of memory
  5  bad record
";

/// The page of `vote`.
pub const VOTE: &str = "\
det vote RECORD RECORD RECORD .. [--dissent]

Writes the record that more than half of three to seven copies are.

  RECORD      a file with a record, in binary; the first is copy 0
  --dissent   prints, in place of the record, how many cycles it has and which
              copies differ from it

The copies are read side by side, row by row: row 0 is the header, row F + 1 is
frame F, counted from 0, and behind the frames comes one row more, which says
that the record is whole. Standard output takes each row that more than half of
all copies hold behind equal rows. A copy that differs is not read further, and
a fault of a copy equals nothing.

With --dissent standard output takes the line `agree N`, with the number of
cycles, and a line `copy K row R` for each copy that is not the record, with the
first row in which it differs. Where no whole record is that of more than half
of the copies, the first row that they do not hold is told as
`no majority: row R`; what was written before it stands.

Exit statuses:
  0  done                      7  write fault
  2  bad words                 8  out of memory
  6  read fault                9  no majority
";

/// The page of `chain`.
pub const CHAIN: &str = "\
det chain MANIFEST MANIFEST STIM [--seed N] [--workers W] [--strict]

Runs a first job over a stimulus and a second one over the outputs of the first,
cycle by cycle, and writes the record of the second.

  MANIFEST    files with manifests, in TOML: of the first job, and of the second
  STIM        a file with the text of a stimulus, whose events are the first
              job's; it is opened once both manifests are judged

  --seed N       the seed of the random words of both, a number of 64 bits; 0
                 where none is given
  --workers W    the number of workers of each, 1 to 64; the manifest's where
                 none is given. The record is the same for each number
  --strict       refuse a manifest with a key that isn't known

Word J of an output, counted from 0, is a sample of the second job's event J, in
the cycle of the same number and time: 8 bytes as a signed number, big-endian. A
word beyond 10^12 in either direction is left out, and so is a rest of fewer
than 8 bytes. A refused cycle gives no samples. The second job sees them in its
next cycle, as it sees all samples.

Standard output takes the record, in binary. Where a line of the stimulus is bad
the record ends behind the cycles that were complete before it.

Exit statuses:
  0  done                      6  read fault
  2  bad words                 7  write fault
  3  bad manifest              8  out of memory
  4  bad stimulus
";
