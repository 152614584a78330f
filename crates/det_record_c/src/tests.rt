use crate::export::*;
use crate::run::DetRun;
use crate::run_export::*;
use c_types::*;
use std::test::*;

/// A record, part by part. The header has version 2, job 7, seed 258, cycle time 10,000,000 and the
/// parameters 4 and -1. Its event `x` has capacity 2 and policy fresh. Register and Discover come
/// next. Init has two elements, the bytes 10 11 and no bytes. The first cycle has the time 3 and
/// the sample -2 of event 0. It finished with the same elements, which drew 5 and 256 random
/// numbers, and with the output 9. The second cycle has no time and no samples. It was refused by
/// the pool in pass 1 at element 2 with the code 3. Terminate is the last part.
static RECORD: [u8; 130] = [
    0x44, 0x45, 0x54, 0x52, 0x45, 0x43, 0, 2, 0, 7, 0, 0, 0, 0, 0, 0, 1, 2, 0, 0, 0, 0, 0, 0x98,
    0x96, 0x80, 0, 2, 0, 0, 0, 0, 0, 0, 0, 4, 0xff, 0xff, 0xff, 0xff, 0xff, 0xff, 0xff, 0xff, 0, 1,
    0, 2, 1, 0x78, 1, 1, 2, 3, 0, 0, 0, 2, 0, 2, 10, 11, 0, 0, 4, 1, 0, 0, 0, 0, 0, 0, 0, 3, 0, 0,
    0, 1, 0, 0, 0xff, 0xff, 0xff, 0xff, 0xff, 0xff, 0xff, 0xfe, 0, 0, 0, 0, 2, 0, 2, 10, 11, 0, 0,
    0, 5, 0, 0, 0, 0, 1, 0, 0, 0, 0, 1, 9, 4, 0, 0, 0, 0, 0, 1, 1, 1, 0, 0, 0, 2, 0, 0, 0, 3, 5,
];

/// The same with version 1, without the event's policy and the draws of elements, and without the
/// second cycle.
static RECORD_OF_FORMAT_1: [u8; 104] = [
    0x44, 0x45, 0x54, 0x52, 0x45, 0x43, 0, 1, 0, 7, 0, 0, 0, 0, 0, 0, 1, 2, 0, 0, 0, 0, 0, 0x98,
    0x96, 0x80, 0, 2, 0, 0, 0, 0, 0, 0, 0, 4, 0xff, 0xff, 0xff, 0xff, 0xff, 0xff, 0xff, 0xff, 0, 1,
    0, 2, 1, 0x78, 1, 2, 3, 0, 0, 0, 2, 0, 2, 10, 11, 0, 0, 4, 1, 0, 0, 0, 0, 0, 0, 0, 3, 0, 0, 0,
    1, 0, 0, 0xff, 0xff, 0xff, 0xff, 0xff, 0xff, 0xff, 0xfe, 0, 0, 0, 0, 2, 0, 2, 10, 11, 0, 0, 0,
    0, 0, 1, 9, 5,
];

fn new_record(format: u8) -> DetRecord {
    let mut state = DetRecord {
        cycles: 9,
        events: 9,
        format: 9,
        stage: 9,
    };
    det_record_new(&mut state, format);
    state
}

fn elements() -> [DetElement; 2] {
    let mut bytes = [0; 64];
    bytes[0] = 10;
    bytes[1] = 11;
    [
        DetElement {
            bytes,
            draws: 5,
            len: 2,
        },
        DetElement {
            bytes: [0; 64],
            draws: 256,
            len: 0,
        },
    ]
}

fn first_time() -> DetTime {
    DetTime {
        time: 3,
        known: true,
    }
}

fn first_samples() -> [DetSample; 1] {
    [DetSample {
        value: -2,
        event: 0,
    }]
}

fn put_header(state: &mut DetRecord, policy: u8, out: &mut [u8], written: &mut usize) -> u8 {
    let profile = DetProfile {
        seed: 258,
        cycle_time: 10_000_000,
        job: 7,
    };
    let mut name = [0; 32];
    name[0] = b'x';
    let event = DetEvent {
        name,
        capacity: 2,
        len: 1,
        policy,
    };
    det_record_header(state, &profile, &[4, -1], &[event], out, written)
}

fn put_refused(state: &mut DetRecord, out: &mut [u8], written: &mut usize) -> u8 {
    let time = DetTime {
        time: 3,
        known: false,
    };
    let refusal = DetRefusal {
        element: 2,
        code: 3,
        phase: 1,
        pass: 1,
    };
    det_record_refused(state, &time, &[], &refusal, out, written)
}

/// Appends the bytes of a part that was written.
fn keep(all: &mut Vec<u8>, answer: u8, out: &[u8], written: usize) -> Result<(), Fail> {
    if answer != 0 {
        return Err("refused".into());
    }
    all.extend_from_slice(out.get(..written).ok_or("written")?)?;
    Ok(())
}

fn put_opening(state: &mut DetRecord, policy: u8, all: &mut Vec<u8>) -> Result<(), Fail> {
    let mut out = [0; 64];
    let mut written = 0;
    let answer = put_header(state, policy, &mut out, &mut written);
    keep(all, answer, &out, written)?;
    let answer = det_record_register(state, &mut out, &mut written);
    keep(all, answer, &out, written)?;
    let answer = det_record_discover(state, &mut out, &mut written);
    keep(all, answer, &out, written)?;
    let answer = det_record_init(state, &elements(), &mut out, &mut written);
    keep(all, answer, &out, written)
}

fn put_rest(state: &mut DetRecord, all: &mut Vec<u8>) -> Result<(), Fail> {
    let mut out = [0; 64];
    let mut written = 0;
    let answer = det_record_finished(
        state,
        &first_time(),
        &first_samples(),
        &elements(),
        &[9],
        &mut out,
        &mut written,
    );
    keep(all, answer, &out, written)?;
    let answer = put_refused(state, &mut out, &mut written);
    keep(all, answer, &out, written)?;
    let answer = det_record_terminate(state, &mut out, &mut written);
    keep(all, answer, &out, written)
}

fn put_run(state: &mut DetRecord, all: &mut Vec<u8>) -> Result<(), Fail> {
    let mut out = [0; 64];
    let mut written = 0;
    let mut run = DetRun {
        state: new_record(2),
        left: 9,
    };
    let (time, samples) = (first_time(), first_samples());
    let answer = det_run_open(&mut run, state, &time, &samples, 2, &mut out, &mut written);
    keep(all, answer, &out, written)?;
    let answer = det_run_element(&mut run, &[10, 11], 5, &mut out, &mut written);
    keep(all, answer, &out, written)?;
    let element_without_bytes = [0, 0];
    let answer = det_run_elements(&mut run, 1);
    keep(all, answer, &element_without_bytes, 2)?;
    let answer = det_run_close(&run, state, &[9], &mut out, &mut written);
    keep(all, answer, &out, written)
}

#[test]
fn a_small_record(rt: HostRuntime) -> Result<(), Fail> {
    let mut state = new_record(2);
    let mut all = Vec::new(rt.alloc());
    put_opening(&mut state, 1, &mut all)?;
    put_rest(&mut state, &mut all)?;
    assert_eq!(rt; all.as_slice(), RECORD.as_slice());
    Ok(())
}

#[test]
fn a_record_of_format_1_with_a_cycle_in_calls(rt: HostRuntime) -> Result<(), Fail> {
    let mut state = new_record(1);
    let mut all = Vec::new(rt.alloc());
    put_opening(&mut state, 0, &mut all)?;
    put_run(&mut state, &mut all)?;
    let mut out = [0; 1];
    let mut written = 0;
    let answer = det_record_terminate(&mut state, &mut out, &mut written);
    keep(&mut all, answer, &out, written)?;
    assert_eq!(rt; all.as_slice(), RECORD_OF_FORMAT_1.as_slice());
    Ok(())
}
