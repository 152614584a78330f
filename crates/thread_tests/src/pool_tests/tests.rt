use crate::pool_tests::HELD;
use crate::pool_tests::gates::Wanted;
use crate::pool_tests::passes::{
    are_in_order, gate_of, is_refused, list_pass, many_bytes, new_shared, run_by_crew, watched_pass,
};
use std::sync::atomic::Ordering;
use worker_pool::{MeetGate, NoGate};

/// Numbers of elements, where element i has the byte i % 251, and the least byte that refuses. So
/// the element `limit` is the first that refuses.
const ROWS: [(usize, u32); 12] = [
    (0, 65536),
    (1, 65536),
    (64, 65536),
    (65, 65536),
    (1000, 0),
    (1000, 63),
    (1000, 64),
    (1000, 200),
    (4096, 65536),
    (4097, 65536),
    (4097, 200),
    (65536, 65536),
];

#[test]
fn workers_meet(rt: HostRuntime) {
    let gate = new_shared(&rt, rt.alloc(), MeetGate::new());
    let passes = [list_pass(&rt, rt.alloc(), 65536, None, &[3; 128])];
    let results = run_by_crew(&rt, rt.alloc(), 2, &gate, &passes);
    assert!(rt; gate.met() && are_in_order(rt.alloc(), &passes, results.as_slice()));
}

/// The result of the pool is that of the pass in order, whose part is the list of the elements. Of
/// several elements that refuse, the first is returned.
#[test]
fn every_number_of_workers_answers_alike(rt: HostRuntime) {
    let bytes = many_bytes(&rt, rt.alloc());
    let gate = new_shared(&rt, rt.alloc(), NoGate);
    for (count, limit) in ROWS {
        let elements = &bytes.as_slice()[..count.min(65536)];
        let pass = list_pass(&rt, rt.alloc(), limit, None, elements);
        let refuses = (limit as usize) < count;
        assert!(rt;
            is_refused(&pass.run_in_order(rt.alloc()), limit) == refuses,
            "{count} from {limit}"
        );
        let passes = [pass];
        for workers in [1, 2, 3, 8, 64] {
            let results = run_by_crew(&rt, rt.alloc(), workers, &gate, &passes);
            assert!(rt;
                are_in_order(rt.alloc(), &passes, results.as_slice()),
                "{count} from {limit}"
            );
        }
    }
}

/// The same for the passes of one crew, some of which refuse, in memory of the passes before.
#[test]
fn one_crew_answers_alike_pass_after_pass(rt: HostRuntime) {
    let bytes = many_bytes(&rt, rt.alloc());
    let gate = new_shared(&rt, rt.alloc(), NoGate);
    let mut passes = Vec::new(rt.alloc());
    for (count, limit) in ROWS {
        let elements = &bytes.as_slice()[..count.min(65536)];
        let pass = list_pass(&rt, rt.alloc(), limit, None, elements);
        passes.push(pass).expect(&rt, "out of memory");
    }
    for workers in [2, 8, 64] {
        let results = run_by_crew(&rt, rt.alloc(), workers, &gate, passes.as_slice());
        assert!(rt;
            are_in_order(rt.alloc(), passes.as_slice(), results.as_slice()),
            "{workers} workers"
        );
    }
}

/// Worker 1 is held until the caller has run all elements, and the caller doesn't wait for it. It
/// is one pass only: in a second the thread may still be at the first. A test that waits for it
/// would fail on a busy machine.
#[test]
fn blocks_are_claimed(rt: HostRuntime) {
    let gate = gate_of(&rt, rt.alloc(), 1, Wanted::Runs(128));
    let passes = [watched_pass(&rt, rt.alloc(), &gate, &[3; 128])];
    let results = run_by_crew(&rt, rt.alloc(), 2, &gate, &passes);
    assert!(rt; gate.came.load(Ordering::SeqCst) && gate.watch.runs.load(Ordering::SeqCst) == 128);
    assert!(rt; are_in_order(rt.alloc(), &passes, results.as_slice()));
}

/// The caller is held until a kept thread has run all elements and has replied. The reply is used,
/// and no element is run again.
#[test]
fn a_block_of_a_kept_thread_is_run_once(rt: HostRuntime) {
    let gate = gate_of(&rt, rt.alloc(), 0, Wanted::Rest(128));
    let passes = [watched_pass(&rt, rt.alloc(), &gate, &[3; 128])];
    let results = run_by_crew(&rt, rt.alloc(), 2, &gate, &passes);
    assert!(rt; gate.came.load(Ordering::SeqCst) && gate.watch.runs.load(Ordering::SeqCst) == 128);
    assert!(rt; are_in_order(rt.alloc(), &passes, results.as_slice()));
}

/// A thread that replied to one pass gets work in the next. The caller is held in the second pass
/// until a kept thread has run all its elements and has replied.
#[test]
fn a_kept_thread_works_in_each_pass(rt: HostRuntime) {
    let gate = gate_of(&rt, rt.alloc(), 0, Wanted::Rest(128));
    let passes = [
        list_pass(&rt, rt.alloc(), 65536, None, &[3; 128]),
        watched_pass(&rt, rt.alloc(), &gate, &[5; 128]),
    ];
    let results = run_by_crew(&rt, rt.alloc(), 2, &gate, &passes);
    assert!(rt; gate.came.load(Ordering::SeqCst) && gate.watch.runs.load(Ordering::SeqCst) == 128);
    assert!(rt; are_in_order(rt.alloc(), &passes, results.as_slice()));
}

/// A kept thread is held at the gate through a whole pass, and let go before the next one. Its
/// reply to the first pass comes too late, and is not used in the second.
#[test]
fn a_reply_to_an_earlier_pass_is_thrown_away(rt: HostRuntime) {
    let gate = gate_of(&rt, rt.alloc(), 1, Wanted::LetGo);
    let passes = [
        watched_pass(&rt, rt.alloc(), &gate, &[3; 300]),
        list_pass(&rt, rt.alloc(), 65536, None, &[5; 300]),
    ];
    let results = run_by_crew(&rt, rt.alloc(), 2, &gate, &passes);
    assert!(rt; gate.came.load(Ordering::SeqCst));
    assert!(rt; are_in_order(rt.alloc(), &passes, results.as_slice()));
}

/// A kept thread claims a block and is held in it until the caller gives up and runs the block
/// itself.
#[test]
fn a_block_that_is_given_up_is_run_again(rt: HostRuntime) {
    let gate = gate_of(&rt, rt.alloc(), 0, Wanted::Hold);
    let passes = [
        watched_pass(&rt, rt.alloc(), &gate, &[HELD; 128]),
        watched_pass(&rt, rt.alloc(), &gate, &[5; 128]),
    ];
    let results = run_by_crew(&rt, rt.alloc(), 2, &gate, &passes);
    assert!(rt; gate.came.load(Ordering::SeqCst));
    assert!(rt; are_in_order(rt.alloc(), &passes, results.as_slice()));
}
