use crate::export::*;
use crate::frame_comparison::*;
use crate::frame_parts::*;
use crate::reading::*;
use crate::spelled_elements::det_are_elements;
use c_types::*;
use std::test::*;

/// A record. The header has version 2, job 7, seed 258, cycle time 10,000,000, the parameters 4 and
/// -1, and the event `x` of capacity 2 with policy fresh: 51 bytes. Register and Discover come next,
/// then Init with the elements 10 11 and no bytes: 11 bytes. The cycle has the time 3 and the sample
/// -2 of event 0. It finished with the same elements, which drew 5 and 256 random numbers, and with
/// the output 9: 48 bytes. Terminate is the last byte.
static RECORD: [u8; 113] = [
    0x44, 0x45, 0x54, 0x52, 0x45, 0x43, 0, 2, 0, 7, 0, 0, 0, 0, 0, 0, 1, 2, 0, 0, 0, 0, 0, 0x98,
    0x96, 0x80, 0, 2, 0, 0, 0, 0, 0, 0, 0, 4, 0xff, 0xff, 0xff, 0xff, 0xff, 0xff, 0xff, 0xff, 0, 1,
    0, 2, 1, 0x78, 1, 1, 2, 3, 0, 0, 0, 2, 0, 2, 10, 11, 0, 0, 4, 1, 0, 0, 0, 0, 0, 0, 0, 3, 0, 0,
    0, 1, 0, 0, 0xff, 0xff, 0xff, 0xff, 0xff, 0xff, 0xff, 0xfe, 0, 0, 0, 0, 2, 0, 2, 10, 11, 0, 0,
    0, 5, 0, 0, 0, 0, 1, 0, 0, 0, 0, 1, 9, 5,
];

/// The cycle of the record, but with the output 8.
static OTHER_RUN: [u8; 48] = [
    4, 1, 0, 0, 0, 0, 0, 0, 0, 3, 0, 0, 0, 1, 0, 0, 0xff, 0xff, 0xff, 0xff, 0xff, 0xff, 0xff, 0xfe,
    0, 0, 0, 0, 2, 0, 2, 10, 11, 0, 0, 0, 5, 0, 0, 0, 0, 1, 0, 0, 0, 0, 1, 8,
];

fn no_time() -> DetTime {
    DetTime {
        time: 0,
        known: false,
    }
}

fn no_frame() -> DetFrame {
    let refusal = DetRefusal {
        element: 0,
        code: 0,
        phase: 0,
        pass: 0,
    };
    DetFrame {
        length: 0,
        samples: 0,
        elements: 0,
        output: 0,
        time: no_time(),
        refusal,
        sample_count: 0,
        element_count: 0,
        output_count: 0,
        tag: 0,
        refused: false,
        has_draws: false,
    }
}

/// A reading of a record in format 2 with one event, in this stage, at the first byte.
fn in_stage(stage: u8) -> DetReading {
    let record = DetRecord {
        cycles: 0,
        events: 1,
        format: 2,
        stage,
    };
    let scan = DetScan {
        read: 0,
        samples_at: 0,
        outcome_at: 0,
        elements_at: 0,
        time: no_time(),
        samples: 0,
        elements: 0,
        left: 0,
        part: 0,
    };
    DetReading {
        offset: 64,
        record,
        scan,
    }
}

fn no_fault() -> DetRecordFault {
    DetRecordFault {
        offset: 0,
        reason: 0,
    }
}

fn no_event(_: usize) -> DetEvent {
    DetEvent {
        name: [0; 32],
        capacity: 0,
        len: 0,
        policy: 0,
    }
}

fn no_header() -> DetHeader {
    let profile = DetProfile {
        seed: 0,
        cycle_time: 0,
        job: 0,
    };
    DetHeader {
        profile,
        params: [0; 16],
        events: std::array::from_fn(no_event),
        param_count: 0,
        event_count: 0,
        format: 0,
    }
}

/// The Run frame of the record, of which the first 45 bytes come first.
fn read_run(reading: &mut DetReading, fault: &mut DetRecordFault) -> Result<DetFrame, Fail> {
    let run = RECORD.get(64..).ok_or("record")?;
    let first = run.get(..45).ok_or("run")?;
    let mut frame = no_frame();
    if det_reading_frame(reading, first, &mut frame, fault) != 1 {
        return Err("wants no more".into());
    }
    if det_reading_frame(reading, run, &mut frame, fault) != 0 {
        return Err("not whole".into());
    }
    Ok(frame)
}

#[test]
fn a_run_in_two_pieces(rt: HostRuntime) -> Result<(), Fail> {
    let mut reading = in_stage(4);
    let frame = read_run(&mut reading, &mut no_fault())?;
    let places = (frame.samples, frame.elements, frame.output, frame.length);
    assert_eq!(rt; places, (14, 29, 47, 48));
    assert_eq!(rt; (reading.offset, reading.record.cycles), (112, 1));
    Ok(())
}

#[test]
fn a_header_and_the_end(rt: HostRuntime) -> Result<(), Fail> {
    let mut reading = in_stage(9);
    det_reading_new(&mut reading);
    let mut header = no_header();
    let mut length = 0;
    let mut fault = no_fault();
    let read = det_reading_header(&mut reading, &RECORD, &mut header, &mut length, &mut fault);
    assert_eq!(rt; (read, length, reading.offset), (0, 51, 51));
    let counts = (header.profile.seed, header.param_count, header.event_count);
    assert_eq!(rt; counts, (258, 2, 1));
    let is_end = det_reading_end(&reading, 62, &mut fault);
    assert_eq!(rt; (is_end, fault.offset, fault.reason), (false, 113, 6));
    Ok(())
}

#[test]
fn a_sample_and_an_element(rt: HostRuntime) -> Result<(), Fail> {
    let frame = read_run(&mut in_stage(4), &mut no_fault())?;
    let run = RECORD.get(64..).ok_or("record")?;
    let mut sample = DetSample { value: 0, event: 9 };
    let mut element = DetElement {
        bytes: [0; 64],
        draws: 0,
        len: 0,
    };
    let mut at = frame.elements;
    let has_sample = det_frame_sample(&frame, run, 0, &mut sample);
    let has_element = det_frame_element(&frame, run, &mut at, &mut element);
    assert_eq!(rt; (has_sample, sample.value, sample.event), (true, -2, 0));
    assert_eq!(rt;
        (has_element, element.len, element.draws, at),
        (true, 2, 5, 37)
    );
    Ok(())
}

#[test]
fn two_runs_differ_in_the_output(rt: HostRuntime) -> Result<(), Fail> {
    let run = RECORD.get(64..112).ok_or("record")?;
    let mut place = DetPlace {
        number: 0,
        element: 0,
        what: 0,
    };
    let answer = det_frame_difference(2, 1, 3, run, &OTHER_RUN, &mut place);
    assert_eq!(rt; (answer, place.what, place.number), (1, 6, 1));
    Ok(())
}

#[test]
fn elements_one_after_another(rt: HostRuntime) {
    let of_format_1 = [0, 1, 7, 0, 0];
    let of_format_2 = [0, 1, 7, 0, 0, 0, 5, 0, 0, 0, 0, 1, 0];
    assert!(rt; det_are_elements(1, 2, &of_format_1));
    assert!(rt; det_are_elements(2, 2, &of_format_2));
    assert!(rt; !det_are_elements(2, 1, &of_format_2));
    assert!(rt; !det_are_elements(2, 3, &of_format_2));
    assert!(rt; !det_are_elements(2, 2, &of_format_1));
    assert!(rt; det_are_elements(2, 0, &[]));
}
