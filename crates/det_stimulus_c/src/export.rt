//! The exports. C shows each step the bytes that no step before it took: at least 129 of them, or
//! all that are left.
ghost use Rattle.std.specs.Prelude.{◌≡◌, ◌≤◌, ℕ, ◌++◌, List, [], length};
ghost use Rattle.stimulus.specs.Reading.{good_lines, ending};
ghost use Rattle.det_stimulus_c.specs.Taken.{HasTaken};
ghost use Rattle.det_stimulus_c.specs.Steps.{IsStep, EndIs};
ghost use Rattle.det_stimulus_c.specs.Wants.{IsWanted};

use crate::det_stimulus::DetStimulus;
use crate::found::DetStimulusStep;

/// Begins a stimulus, for a profile with this number of events.
#[unsafe(no_mangle)]
pub extern "C" fn det_stimulus_new(stimulus: &mut DetStimulus, events: u16)
    ensures taken { HasTaken stimulus.new [] }
    ensures events { stimulus.new.events ≡ events }
{
    *stimulus = DetStimulus {
        lines: 0,
        blocks: 0,
        samples: 0,
        events,
        stage: 0,
    };
}

/// Takes the line with which the bytes begin, if it is whole and good. Returns 0 if more bytes are
/// needed, 1 for the first line, 2 for a block with its time, 3 for a sample, 4 for the end, and 5
/// for a bad line. With 0 and 5 the stimulus stays as it was.
#[unsafe(no_mangle)]
pub extern "C" fn det_stimulus_step(
    stimulus: &mut DetStimulus,
    bytes: &[u8],
    step: &mut DetStimulusStep,
) -> u8
    ensures { IsStep result step.new stimulus.old stimulus.new bytes.now }
{
    let found = stimulus.take(bytes);
    *step = found.step();
    found.number()
}

/// Whether the lines that were taken are a whole stimulus, if `left` bytes without a good line come
/// after them. If they aren't, `line` becomes the number of the bad line.
#[unsafe(no_mangle)]
pub extern "C" fn det_stimulus_end(stimulus: &DetStimulus, left: usize, line: &mut u64) -> bool
    ensures { (text bytes : List ℕ) → HasTaken stimulus.now text → length bytes ≡ left
        → good_lines stimulus.now.events (text ++ bytes) ≡ good_lines stimulus.now.events text
        → EndIs result (ending stimulus.now.events (text ++ bytes)) line.old line.new }
{
    if stimulus.is_whole(left) {
        return true;
    }
    *line = stimulus.next_line();
    false
}

/// What may come where the bytes begin, by the hints of `det`: 0 if a good line begins there, 11 if
/// all bytes are a good line that lacks its LF, else 1 to 10. At most 129 bytes are looked at.
#[unsafe(no_mangle)]
pub extern "C" fn det_stimulus_wanted(stimulus: &DetStimulus, bytes: &[u8]) -> u8
    ensures range { result ≤ 11 }
    ensures wanted { IsWanted result stimulus.now bytes.now }
{
    stimulus.wish(bytes).number()
}
