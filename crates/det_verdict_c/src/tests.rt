use crate::answer_texts::*;
use crate::manifest_lines::det_text_needs;
use crate::report_texts::det_reports_text;
use crate::reports::{DetReports, det_reports_new, det_reports_see};
use crate::verdict_texts::{det_text_departs, det_text_genuine};
use c_types::*;
use std::array;
use std::test::*;

static SETUP: &[u8] =
    b"job tracker\ncycle_time 10000000\nworkers 4\nplatform x86 board\ninit none\n";

static RUN_NEEDS: &[u8] =
    b"run instructions 7\nrun sequential_begin 2\nrun sequential_end 0\nrun speedup 2500\n";

fn blank() -> DetText {
    DetText {
        bytes: [b'x'; 1024],
        len: 7,
    }
}

fn bytes_of(text: &DetText) -> &[u8] {
    &text.bytes[..usize::from(text.len).min(1024)]
}

fn needs(there: bool) -> DetNeeds {
    DetNeeds {
        instructions: 7,
        sequential_begin: 2,
        sequential_end: 0,
        speedup: 2500,
        there,
    }
}

fn event() -> DetEvent {
    DetEvent {
        name: [b'e'; 32],
        capacity: 1,
        len: 1,
        policy: 0,
    }
}

fn put(bytes: &[u8]) -> [u8; 64] {
    let mut room = [0; 64];
    let len = bytes.len().min(64);
    room[..len].copy_from_slice(&bytes[..len]);
    room
}

fn manifest() -> DetManifest {
    DetManifest {
        cycle_time: 10_000_000,
        init_needs: needs(false),
        run_needs: needs(true),
        params: [0; 16],
        events: array::from_fn(|_| event()),
        workers: 4,
        param_count: 0,
        event_count: 0,
        job: put(b"tracker"),
        platform: put(b"x86 board"),
        job_len: 7,
        platform_len: 9,
    }
}

fn run(time: u64, refused: bool) -> DetFrame {
    DetFrame {
        length: 20,
        samples: 0,
        elements: 0,
        output: 0,
        time: DetTime { time, known: true },
        refusal: DetRefusal {
            element: 2,
            code: 3,
            phase: 1,
            pass: 1,
        },
        sample_count: 0,
        element_count: 0,
        output_count: 0,
        tag: 4,
        refused,
        has_draws: true,
    }
}

fn no_reports() -> DetReports {
    let mut reports = DetReports {
        last_time: 9,
        gap: 9,
        refusal: run(0, true).refusal,
        finished: 9,
        refused: 9,
        refused_at: 9,
        has_last: true,
        has_gap: true,
    };
    det_reports_new(&mut reports);
    reports
}

#[test]
fn lines_of_answers(rt: HostRuntime) {
    let mut text = blank();
    det_text_status(7, &mut text);
    assert_eq!(rt; bytes_of(&text), b"write fault\n".as_slice());
    det_text_status(1, &mut text);
    assert_eq!(rt; bytes_of(&text), b"".as_slice());
    det_text_bad_stimulus(12, &mut text);
    assert_eq!(rt; bytes_of(&text), b"bad stimulus: line 12\n".as_slice());
    det_text_bad_profile(&mut text);
    assert_eq!(rt; bytes_of(&text), b"bad record: profile\n".as_slice());
}

#[test]
fn lines_of_faults(rt: HostRuntime) {
    let mut text = blank();
    let fault = DetManifestFault {
        text: [0; 64],
        number: 0,
        reason: 3,
        key: 10,
        text_len: 0,
    };
    det_text_bad_manifest(&fault, &mut text);
    assert_eq!(rt;
        bytes_of(&text),
        b"bad manifest: missing event.0.policy\n".as_slice()
    );
    let fault = DetRecordFault {
        offset: 57,
        reason: 6,
    };
    det_text_bad_record(2, &fault, &mut text);
    assert_eq!(rt;
        bytes_of(&text),
        b"bad record: copy 2 offset 57 truncated\n".as_slice()
    );
}

#[test]
fn lines_of_verdicts(rt: HostRuntime) {
    let mut text = blank();
    det_text_genuine(3, &mut text);
    assert_eq!(rt; bytes_of(&text), b"genuine 3\n".as_slice());
    let place = DetPlace {
        number: 2,
        element: 5,
        what: 5,
    };
    det_text_departs(&place, &mut text);
    assert_eq!(rt; bytes_of(&text), b"departs element 2 5\n".as_slice());
}

#[test]
fn lines_of_needs(rt: HostRuntime) {
    let mut text = blank();
    det_text_needs(&manifest(), &mut text);
    let lines = bytes_of(&text);
    assert_eq!(rt; lines.len(), SETUP.len() + RUN_NEEDS.len());
    assert_eq!(rt; lines.starts_with(SETUP), true);
    assert_eq!(rt; lines.ends_with(RUN_NEEDS), true);
}

#[test]
fn lines_of_reports(rt: HostRuntime) {
    let mut text = blank();
    let mut reports = no_reports();
    det_reports_see(&mut reports, &run(5, false));
    det_reports_see(&mut reports, &run(9, false));
    det_reports_text(&reports, &mut text);
    assert_eq!(rt;
        bytes_of(&text),
        b"count 2 0\ngap 4\nrefusal none\n".as_slice()
    );
    det_reports_see(&mut reports, &run(10, true));
    det_reports_see(&mut reports, &run(11, true));
    det_reports_text(&reports, &mut text);
    assert_eq!(rt;
        bytes_of(&text),
        b"refusal 3 pool 1 2 3\ncount 2 2\ngap 4\n".as_slice()
    );
}
