use crate::export::*;
use c_types::*;
use std::test::*;

/// A manifest with a job that isn't a shipped one, two parameters, an event and needs.
static TEXT: &[u8] =
    b"job = 'lidar'\ncycle_time_ns = 20\nworkers = 3\nparams = [4, -1]\nplatform = 'a b'\n[[event]]\nname = 'x'\ncapacity = 2\npolicy = 'fresh'\n[run_needs]\ninstructions = 9\nsequential_begin = 8\nsequential_end = 7\nspeedup_thousandths = 6\n";

fn no_needs() -> DetNeeds {
    DetNeeds {
        instructions: 0,
        sequential_begin: 0,
        sequential_end: 0,
        speedup: 0,
        there: true,
    }
}

fn no_event() -> DetEvent {
    DetEvent {
        name: [0; 32],
        capacity: 0,
        len: 0,
        policy: 0,
    }
}

fn no_manifest() -> DetManifest {
    DetManifest {
        cycle_time: 0,
        init_needs: no_needs(),
        run_needs: no_needs(),
        params: [0; 16],
        events: std::array::from_fn(|_| no_event()),
        workers: 5,
        param_count: 0,
        event_count: 0,
        job: [0; 64],
        platform: [0; 64],
        job_len: 0,
        platform_len: 0,
    }
}

fn no_fault() -> DetManifestFault {
    DetManifestFault {
        text: [0; 64],
        number: 9,
        reason: 9,
        key: 9,
        text_len: 9,
    }
}

#[test]
fn a_manifest_of_an_application(rt: HostRuntime) {
    let mut manifest = no_manifest();
    let mut fault = no_fault();
    assert_eq!(rt;
        det_manifest_read(rt.alloc(), &mut manifest, &mut fault, TEXT, true),
        0
    );
    assert_eq!(rt; (manifest.cycle_time, manifest.workers), (20, 3));
    assert_eq!(rt;
        (manifest.param_count, manifest.params[0], manifest.params[1]),
        (2, 4, -1)
    );
    assert_eq!(rt; (manifest.event_count, manifest.events[0].capacity), (1, 2));
    assert_eq!(rt;
        (manifest.events[0].name[0], manifest.events[0].policy),
        (b'x', 1)
    );
    assert_eq!(rt; (manifest.platform_len, manifest.platform[1]), (3, b' '));
    assert_eq!(rt;
        (manifest.run_needs.instructions, manifest.run_needs.speedup),
        (9, 6)
    );
    assert!(rt; !manifest.init_needs.there);
    assert!(rt; det_manifest_is_job(&manifest, b"lidar"));
    assert!(rt; !det_manifest_is_job(&manifest, b"lida"));
}

#[test]
fn the_first_fault_by_the_table_of_keys(rt: HostRuntime) {
    let mut manifest = no_manifest();
    let mut fault = no_fault();
    let text = b"workers = 65\ncycle_time_ns = 0\njob = 'lidar'\n";
    assert_eq!(rt;
        det_manifest_read(rt.alloc(), &mut manifest, &mut fault, text, false),
        1
    );
    assert_eq!(rt; (fault.reason, fault.key, manifest.workers), (5, 2, 5));
}

#[test]
fn an_unknown_key_is_a_strict_fault(rt: HostRuntime) {
    let mut manifest = no_manifest();
    let mut fault = no_fault();
    let text =
        b"job = 'lidar'\ncycle_time_ns = 1\nworkers = 1\n[[event]]\nname = 'x'\ncapacity = 1\npolcy = 1\n";
    assert_eq!(rt;
        det_manifest_read(rt.alloc(), &mut manifest, &mut fault, text, true),
        1
    );
    assert_eq!(rt; (fault.reason, fault.key, fault.number), (6, 7, 0));
    assert_eq!(rt; (fault.text_len, fault.text[3]), (5, b'c'));
}

#[test]
fn the_line_at_which_a_text_stops_being_toml(rt: HostRuntime) {
    assert_eq!(rt;
        det_manifest_toml_line(rt.alloc(), b"a = 1\nb = 2\nc = \n"),
        3
    );
    assert_eq!(rt; det_manifest_toml_line(rt.alloc(), b"a = 1\nb = \xff\n"), 2);
    assert_eq!(rt; det_manifest_toml_line(rt.alloc(), TEXT), 0);
}
