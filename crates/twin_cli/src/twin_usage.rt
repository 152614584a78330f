//! The texts of `--help` and `--version`.
ghost use Rattle.std.specs.Prelude.{◌≡◌};
ghost use Rattle.twin_cli.specs.Outcome.{text_of};

use cli_words::TextWord;

/// What `--help` prints: the arguments of the program, and its exit statuses.
pub const USAGE: &str = "\
det_twin: runs a job in several copies in one process and compares their frames

  det_twin COPIES MANIFEST STIM [--flip K F] [--strict]
  det_twin --help                this text; also -h and help
  det_twin --version             the version; also -V and version

  COPIES      the number of copies, 2 to 8
  MANIFEST    a file with the manifest, in TOML
  STIM        a file with the text of a stimulus, at most 1,048,576 bytes

  --flip K F  turn the lowest bit of the last byte of the output in frame F of
              copy K, where it has one. Copies and frames are counted from 0,
              and cycle C is frame C + 2
  --strict    refuse a manifest with a key that isn't known

Each copy runs on a thread of its own, with one worker and the seed 0. Standard
output takes one line: `agree N`, where N is the number of cycles, or `differ
copy K PLACE` with the first place where not all copies are equal.

Exit statuses:
  0  done                      4  bad stimulus
  1  differs                   6  read fault
  2  bad words                 7  write fault
  3  bad manifest              8  out of memory
";

/// What `--version` prints: the name of the program and its version.
pub const VERSION: &str = "det_twin 0.1.0\n";

/// The text that an argument asks for.
pub(crate) fn text_of(word: TextWord) -> &'static str
    ensures { result.now ≡ text_of word }
{
    match word {
        TextWord::Help => USAGE,
        TextWord::Version => VERSION,
    }
}
