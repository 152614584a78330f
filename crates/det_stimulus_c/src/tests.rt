use crate::det_stimulus::DetStimulus;
use crate::export::*;
use crate::found::DetStimulusStep;
use c_types::{DetSample, DetTime};
use std::test::*;

/// A stimulus for two events, line by line: the first line has 7 bytes, `cycle 5` has 8, `sample 1
/// -2` has 12, `cycle -` has 8 and `terminate` has 10.
static TEXT: &[u8] = b"stim 1\ncycle 5\nsample 1 -2\ncycle -\nterminate\n";

fn begun(events: u16) -> DetStimulus {
    let mut stimulus = DetStimulus {
        lines: 9,
        blocks: 9,
        samples: 9,
        events: 9,
        stage: 9,
    };
    det_stimulus_new(&mut stimulus, events);
    stimulus
}

fn no_step() -> DetStimulusStep {
    DetStimulusStep {
        time: DetTime {
            time: 9,
            known: true,
        },
        sample: DetSample { value: 9, event: 9 },
        taken: 9,
    }
}

/// The bytes after those of the next line, which has this number and length.
fn after_line<'t>(
    stimulus: &mut DetStimulus,
    bytes: &'t [u8],
    number: u8,
    taken: usize,
) -> Result<&'t [u8], Fail> {
    let mut step = no_step();
    let answer = det_stimulus_step(stimulus, bytes, &mut step);
    if (answer, step.taken) != (number, taken) {
        return Err("another line".into());
    }
    Ok(bytes.get(taken..).ok_or("taken")?)
}

#[test]
fn a_whole_stimulus(rt: HostRuntime) -> Result<(), Fail> {
    let mut stimulus = begun(2);
    let mut line = 0;
    let rest = after_line(&mut stimulus, TEXT, 1, 7)?;
    let rest = after_line(&mut stimulus, rest, 2, 8)?;
    let rest = after_line(&mut stimulus, rest, 3, 12)?;
    let rest = after_line(&mut stimulus, rest, 2, 8)?;
    assert!(rt; !det_stimulus_end(&stimulus, 10, &mut line));
    assert_eq!(rt; line, 5);
    let rest = after_line(&mut stimulus, rest, 4, 10)?;
    assert!(rt; det_stimulus_end(&stimulus, rest.len(), &mut line));
    Ok(())
}

#[test]
fn a_sample_says_its_event_and_its_value(rt: HostRuntime) -> Result<(), Fail> {
    let mut stimulus = begun(2);
    let rest = after_line(&mut stimulus, TEXT, 1, 7)?;
    let rest = after_line(&mut stimulus, rest, 2, 8)?;
    let mut step = no_step();
    assert_eq!(rt; det_stimulus_step(&mut stimulus, rest, &mut step), 3);
    assert_eq!(rt; (step.sample.event, step.sample.value), (1, -2));
    assert_eq!(rt; (step.time.time, step.time.known), (0, false));
    Ok(())
}

#[test]
fn a_bad_line_is_bad_again(rt: HostRuntime) {
    let mut stimulus = begun(2);
    let mut step = no_step();
    let mut line = 0;
    assert_eq!(rt;
        det_stimulus_step(&mut stimulus, b"cycle 5\n", &mut step),
        5
    );
    assert_eq!(rt;
        det_stimulus_step(&mut stimulus, b"cycle 5\n", &mut step),
        5
    );
    assert_eq!(rt; (stimulus.lines, step.taken), (0, 0));
    assert!(rt; !det_stimulus_end(&stimulus, 8, &mut line));
    assert_eq!(rt; line, 1);
}

#[test]
fn a_part_of_a_line_needs_more(rt: HostRuntime) {
    let mut stimulus = begun(2);
    let mut step = no_step();
    assert_eq!(rt; det_stimulus_step(&mut stimulus, b"stim 1", &mut step), 0);
    assert_eq!(rt; (stimulus.lines, step.taken), (0, 0));
}

/// What is wanted at some bytes after `stim 1`, and in a block.
fn wanted_after(lines: &[&[u8]], bytes: &[u8]) -> u8 {
    let mut stimulus = begun(2);
    let mut step = no_step();
    for line in lines {
        det_stimulus_step(&mut stimulus, *line, &mut step);
    }
    det_stimulus_wanted(&stimulus, bytes)
}

#[test]
fn what_is_wanted_in_place_of_a_bad_line(rt: HostRuntime) {
    let first: [&[u8]; 1] = [b"stim 1\n"];
    let block: [&[u8]; 2] = [b"stim 1\n", b"cycle 5\n"];
    let end: [&[u8]; 2] = [b"stim 1\n", b"terminate\n"];
    assert_eq!(rt; wanted_after(&block, b"sample 1 -2\n"), 0);
    assert_eq!(rt; wanted_after(&[], b"cycle 5\n"), 1);
    assert_eq!(rt; wanted_after(&first, b"sample 1 -2\n"), 2);
    assert_eq!(rt; wanted_after(&block, b""), 3);
    assert_eq!(rt; wanted_after(&block, b"sample 1\n"), 3);
    assert_eq!(rt; wanted_after(&end, b"\n"), 4);
    assert_eq!(rt; wanted_after(&block, &[b'x'; 129]), 5);
    assert_eq!(rt; wanted_after(&block, b"terminate\r\n"), 6);
    assert_eq!(rt; wanted_after(&first, b"cycle 18446744073709551616\n"), 7);
    assert_eq!(rt; wanted_after(&block, b"sample 2 5\n"), 8);
    assert_eq!(rt; wanted_after(&block, b"sample 1 1000000000001\n"), 9);
    assert_eq!(rt; wanted_after(&block, b"terminate"), 11);
}
