//! Looks up the scripts of a spawner in memory.
ghost use Rattle.std.specs.Prelude.{◌≡◌, ◌<◌, ◌+◌, ◌^◌, min, length, take};
ghost use Rattle.lane.specs.child_processes.Spawners.{words_of};
ghost use Rattle.lane.specs.child_processes.Scripts.{same_words, index_of, status_at, rest_of};

use super::Script;
use super::running_child::RunningChild;

fn same_words(a: &[String], b: &[String]) -> bool
    ensures { result ≡ same_words (words_of a.now) (words_of b.now) }
{
    a == b
}

// The index of the first script with these arguments.
pub(super) fn index_of(scripts: &[Script], words: &[String]) -> Option<usize>
    ensures { result ≡ index_of scripts.now (words_of words.now) }
{
    scripts
        .iter()
        .position(|script| same_words(script.words.as_slice(), words))
}

// The exit status of a script, or 0 after the last one.
pub(super) fn status_at(scripts: &[Script], index: usize) -> u8
    ensures { result ≡ status_at scripts.now index }
{
    scripts.get(index).map_or(0, |script| script.status)
}

// What a child has left, which is nothing after the end of its output.
fn script_rest(scripts: &[Script], child: RunningChild) -> &[u8]
    ensures rest { result.now ≡ rest_of scripts.now child }
    ensures fits { child.at + length result.now < 2 ^ 64 }
{
    match scripts.get(child.script) {
        Some(script) if !child.is_finished && child.at <= script.bytes.len() => {
            &script.bytes.as_slice()[child.at..]
        }
        _ => &[],
    }
}

// Copies as much of what a child has left as fits, and returns how many bytes.
pub(super) fn copy_script_rest(scripts: &[Script], child: RunningChild, buf: &mut [u8]) -> usize
    ensures count { result ≡ min (length buf.old) (length (rest_of scripts.now child)) }
    ensures fits { child.at + result < 2 ^ 64 }
    ensures front { take result buf.new ≡ take result (rest_of scripts.now child) }
{
    let rest = script_rest(scripts, child);
    let n = buf.len().min(rest.len());
    buf[..n].copy_from_slice(&rest[..n]);
    n
}
