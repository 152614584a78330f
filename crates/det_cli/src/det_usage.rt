//! The texts of `--help` and `--version`.

/// What `--help` prints: every command, and the exit statuses.
pub const USAGE: &str = "\
det: records runs of the AUTOSAR deterministic client, byte for byte

  det demo STIM                  the record of the built-in filter bank
  det record MANIFEST STIM       the record of a manifest's job
      [--seed N] [--workers W] [--strict]
  det show RECORD                a record as text, and reports of its runs
      [--cycle C] [--json]       one cycle alone; as JSON, one value a line
      [--reports]                or the reports alone
  det replay RECORD              the record of its inputs, run again
      [--workers W]
  det check RECORD               the first place where a record is not what its
      [--workers W]              inputs give, and reports of its runs
  det upgrade RECORD             a record run again in format 2
      [--workers W]
  det compare RECORD RECORD ..   the first place where 2 to 8 copies part
  det vote RECORD RECORD ..      the record of the majority of 3 to 7 copies
      [--dissent]                how many cycles it has, and which copies differ
  det salvage RECORD             a record that breaks off, made whole
      [--reports]                how much of it is saved, and its reports
  det chain MANIFEST MANIFEST STIM
      [--seed N] [--workers W]   the record of a second job over a first one's
      [--strict]                 outputs
  det needs MANIFEST [--strict]  the resource needs of a manifest
  det sim N [--workers W]        a summary of the run of a built-in cloud over a
                                 stimulus made of N, and reports of its cycles
  det --help                     this text; also -h and help
  det --help COMMAND             the page of a command; also help COMMAND and
                                 COMMAND --help
  det --version                  the version; also -V and version

STIM is the text of a stimulus, MANIFEST one in TOML, RECORD a binary record:
paths of files. One whose name begins with `-` is given as ./-name.
N is a number of 64 bits; the seed is 0 where none is given. W is 1 to 64; where
none is given it is the manifest's for `record` and `chain`, and else 1. What is
written is the same for every W. With --strict a key of a manifest that isn't
known is refused. C is the number of a cycle, counted from 1.
Results go to standard output, and one line on a refusal to standard error.

Exit statuses:
  0  done                      5  bad record
  1  differs                   6  read fault
  2  bad words                 7  write fault
  3  bad manifest              8  out of memory
  4  bad stimulus              9  no majority
";

/// What `--version` prints: the name of the program and its version.
pub const VERSION: &str = "det 0.1.0\n";
