//! The texts of `--help` and `--version`.
ghost use Rattle.std.specs.Prelude.{◌≡◌};
ghost use Rattle.lane.specs.Outcome.{text_of};

use cli_words::TextWord;

/// What `--help` prints: the arguments of the program, and its exit statuses.
pub const USAGE: &str = "\
det_lane: runs a program in several copies and compares their records

  det_lane PROGRAM COPIES MANIFEST STIM [--timeout S] [-- WORD..]
  det_lane --help                this text; also -h and help
  det_lane --version             the version; also -V and version

  PROGRAM     the program that each copy runs: `det`, or one that takes the same
              words. A name without `/` is looked for in PATH
  COPIES      the number of copies, 2 to 8
  MANIFEST    a file with the manifest, in TOML
  STIM        a file with the text of a stimulus
  --timeout S   the seconds for which a copy may write nothing while it is
              waited for, 1 to 86400. After them it is stopped: a spawn fault
  -- WORD..   further words for each copy, after its own

The copies run side by side, each as a child process with the words
`record MANIFEST STIM --workers K`, where K is 1 for copy 0, 2 for copy 1 and so
on. What they write is compared as it comes. Standard output takes one line:
`agree N`, where N is the number of cycles, or `differ copy K PLACE`. Copies are
counted from 0. What copy K writes to standard error is written there, with
`child K: ` before each line. A copy whose output isn't read to its end is
stopped, and no copy runs on when this program has ended. The statuses of all
copies count where they agree, and that of a copy whose record breaks off.

Exit statuses:
  0  done                      7  write fault
  1  differs                   8  out of memory
  2  bad words                 9  child failed
  5  bad record               10  spawn fault
";

/// What `--version` prints: the name of the program and its version.
pub const VERSION: &str = "det_lane 0.1.0\n";

/// The text that an argument asks for.
pub(crate) fn text_of(word: TextWord) -> &'static str
    ensures { result.now ≡ text_of word }
{
    match word {
        TextWord::Help => USAGE,
        TextWord::Version => VERSION,
    }
}
