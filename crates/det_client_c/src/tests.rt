//! The random numbers of key 0 are published with SplitMix64 and xoshiro256++. The others come from
//! the plain Rust of `bench/common/random_words.rs`.

use crate::c_state::{DetClient, DetPassKeys, DetRandom};
use crate::client::{
    det_client_cycle, det_client_new, det_client_next_time, det_client_random, det_client_seed,
    det_client_set_seed, det_client_time, det_client_wait,
};
use crate::det_blocks::{det_block, det_block_count};
use crate::random::{
    det_pass_keys, det_random_in_pass, det_random_key, det_random_next, det_random_of_key,
};
use crate::window::{DetWindow, det_window_arrive, det_window_new, det_window_turn};

/// What C's memory may hold before a client is made.
fn any_client() -> DetClient {
    DetClient {
        cycle_time: 7,
        time: 8,
        seed: 9,
        own: any_random(),
        cycle: 10,
        last: 11,
        has_time: true,
    }
}

fn any_random() -> DetRandom {
    DetRandom {
        state: [1, 2, 3, 4],
        draws: 5,
    }
}

fn any_window() -> DetWindow {
    DetWindow {
        capacity: 0,
        seen: 7,
        arriving: 8,
        policy: 9,
    }
}

/// Asks a client to go on at a time. Returns 9 if the call is refused.
fn went_on(client: &mut DetClient, time: u64) -> u8 {
    let mut activation = 9;
    det_client_wait(client, false, true, time, &mut activation);
    activation
}

/// Asks a client to stop. Returns 9 if the call is refused.
fn stopped(client: &mut DetClient) -> u8 {
    let mut activation = 9;
    det_client_wait(client, true, false, 0, &mut activation);
    activation
}

#[test]
fn life_of_a_client(rt: HostRuntime) {
    let mut client = any_client();
    assert!(rt; det_client_new(&mut client, 10_000_000));
    let mut time = 1;
    for activation in [0, 1, 2] {
        assert_eq!(rt; went_on(&mut client, 5), activation);
        assert!(rt; !det_client_time(&client, &mut time));
        assert!(rt; !det_client_next_time(&client, &mut time));
    }
    assert_eq!(rt; time, 1);
    assert_eq!(rt; went_on(&mut client, 5), 3);
    assert!(rt; det_client_time(&client, &mut time));
    assert_eq!(rt; time, 5);
    assert!(rt; det_client_next_time(&client, &mut time));
    assert_eq!(rt; time, 10_000_005);
    assert_eq!(rt; det_client_cycle(&client), 1);
    assert_eq!(rt; stopped(&mut client), 4);
    assert!(rt; !det_client_time(&client, &mut time));
    assert_eq!(rt; went_on(&mut client, 5), 4);
    assert!(rt; !det_client_time(&client, &mut time));
    assert!(rt; det_client_new(&mut client, 10_000_000));
    assert_eq!(rt; stopped(&mut client), 4);
}

#[test]
fn times_of_a_cycle(rt: HostRuntime) {
    let mut client = any_client();
    assert!(rt; det_client_new(&mut client, 10));
    for _ in 0..3u8 {
        went_on(&mut client, 0);
    }
    let mut activation = 9;
    assert!(rt; det_client_wait(&mut client, false, false, 5, &mut activation));
    assert_eq!(rt; activation, 3);
    let mut time = 1;
    assert!(rt; !det_client_time(&client, &mut time));
    assert!(rt; !det_client_next_time(&client, &mut time));
    assert_eq!(rt; went_on(&mut client, 18_446_744_073_709_551_615), 3);
    assert!(rt; !det_client_next_time(&client, &mut time));
    assert_eq!(rt; time, 1);
    assert!(rt; det_client_time(&client, &mut time));
    assert_eq!(rt; time, 18_446_744_073_709_551_615);
}

#[test]
fn cycle_times_in_their_range(rt: HostRuntime) {
    for cycle_time in [0, 9_223_372_036_854_775_808] {
        let mut client = any_client();
        assert!(rt; !det_client_new(&mut client, cycle_time));
        assert_eq!(rt; client.cycle_time, 7);
        assert_eq!(rt; client.last, 11);
    }
    let mut client = any_client();
    assert!(rt; det_client_new(&mut client, 9_223_372_036_854_775_807));
    assert_eq!(rt; client.cycle_time, 9_223_372_036_854_775_807);
}

#[test]
fn last_cycle(rt: HostRuntime) {
    let mut client = any_client();
    assert!(rt; det_client_new(&mut client, 1));
    client.last = 3;
    client.cycle = 999_999;
    assert_eq!(rt; went_on(&mut client, 6), 3);
    assert_eq!(rt; det_client_cycle(&client), 1_000_000);
    assert_eq!(rt; went_on(&mut client, 7), 9);
    assert_eq!(rt; client.time, 6);
    assert_eq!(rt; det_client_cycle(&client), 1_000_000);
    assert_eq!(rt; stopped(&mut client), 4);
}

#[test]
fn own_words(rt: HostRuntime) {
    let mut client = any_client();
    assert!(rt; det_client_new(&mut client, 1));
    assert_eq!(rt; det_client_random(&mut client), 0xfcb6_ca65_b468_341b);
    det_client_set_seed(&mut client, 7);
    assert_eq!(rt; det_client_seed(&client), 7);
    for _ in 0..3u8 {
        went_on(&mut client, 0);
    }
    assert_eq!(rt; det_client_random(&mut client), 0x0df0_6710_27ca_efe0);
    assert_eq!(rt; det_client_random(&mut client), 0x9f68_6805_2c47_3bf8);
    went_on(&mut client, 0);
    assert_eq!(rt; det_client_random(&mut client), 0xd5fc_6adf_45ad_30c3);
    assert_eq!(rt; det_client_random(&mut client), 0x2e20_6bd1_059a_7d80);
    assert!(rt; det_client_new(&mut client, 1));
    assert_eq!(rt; det_client_seed(&client), 0);
}

#[test]
fn words_of_key_zero(rt: HostRuntime) {
    let mut random = any_random();
    det_random_of_key(&mut random, 0);
    assert_eq!(rt; random.state[0], 0xe220_a839_7b1d_cdaf);
    assert_eq!(rt; random.state[1], 0x6e78_9e6a_a1b9_65f4);
    assert_eq!(rt; random.state[2], 0x06c4_5d18_8009_454f);
    assert_eq!(rt; random.state[3], 0xf88b_b8a8_724c_81ec);
    for word in [
        0x5317_5d61_490b_23df,
        0x61da_6f3d_c380_d507,
        0x5c0f_df91_ec9a_7bfc,
    ] {
        assert_eq!(rt; det_random_next(&mut random), word);
    }
    assert_eq!(rt; random.draws, 3);
}

#[test]
fn words_of_an_element(rt: HostRuntime) {
    let mut keys = DetPassKeys { shared: 1, pass: 2 };
    det_pass_keys(&mut keys, 7, 1, 2);
    let mut of_pass = any_random();
    det_random_in_pass(&mut of_pass, &keys, 3);
    let mut of_key = any_random();
    det_random_of_key(&mut of_key, det_random_key(7, 1, 2, 3));
    for word in [0xede8_46d6_1600_2864, 0xa3d3_0259_b532_96ab] {
        assert_eq!(rt; det_random_next(&mut of_pass), word);
        assert_eq!(rt; det_random_next(&mut of_key), word);
    }
    assert_eq!(rt; of_pass.draws, 2);
}

#[test]
fn blocks_of_containers(rt: HostRuntime) {
    let blocks = [
        (0, 0, 0, 0),
        (1, 0, 0, 1),
        (63, 0, 0, 63),
        (64, 0, 0, 64),
        (64, 1, 64, 64),
        (65, 1, 64, 65),
        (4_096, 63, 4_032, 4_096),
        (4_096, 64, 4_096, 4_096),
        (4_097, 0, 0, 256),
        (4_097, 16, 4_096, 4_097),
        (4_097, 17, 4_097, 4_097),
        (65_536, 255, 65_280, 65_536),
        (65_536, 256, 65_536, 65_536),
        (4_294_967_295, 16_777_215, 4_294_967_040, 4_294_967_295),
        (4_294_967_295, 4_294_967_295, 4_294_967_295, 4_294_967_295),
    ];
    for (len, number, first, last) in blocks {
        let mut begin = 7;
        let mut end = 8;
        let some = det_block(len, number, &mut begin, &mut end);
        assert_eq!(rt;
            (begin, end, some),
            (first, last, first < last),
            "{number} of {len}"
        );
    }
}

#[test]
fn counts_of_blocks(rt: HostRuntime) {
    let counts = [
        (0, 0),
        (1, 1),
        (64, 1),
        (65, 2),
        (4_096, 64),
        (4_097, 17),
        (65_536, 256),
        (65_537, 257),
        (4_294_967_295, 16_777_216),
    ];
    for (len, count) in counts {
        assert_eq!(rt; det_block_count(len), count, "blocks of {len}");
    }
}

#[test]
fn window_of_the_last_values(rt: HostRuntime) {
    let mut window = any_window();
    let mut places = [0; 4];
    assert!(rt; det_window_new(&mut window, 2, 0));
    for value in [1, 2, 3] {
        assert!(rt; det_window_arrive(&mut window, &mut places, value));
        assert_eq!(rt; window.seen, 0);
    }
    for _ in 0..2u8 {
        assert!(rt; det_window_turn(&mut window, &mut places));
        assert_eq!(rt; (window.seen, places[0], places[1]), (2, 2, 3));
    }
    assert!(rt; det_window_arrive(&mut window, &mut places, 4));
    assert!(rt; det_window_turn(&mut window, &mut places));
    assert_eq!(rt; (window.seen, places[0], places[1]), (2, 3, 4));
}

#[test]
fn window_of_the_last_round(rt: HostRuntime) {
    let mut window = any_window();
    let mut places = [0; 5];
    assert!(rt; det_window_new(&mut window, 2, 1));
    for value in [1, 2, 3] {
        assert!(rt; det_window_arrive(&mut window, &mut places, value));
    }
    assert!(rt; det_window_turn(&mut window, &mut places));
    assert_eq!(rt; (window.seen, places[0], places[1]), (2, 2, 3));
    assert!(rt; det_window_turn(&mut window, &mut places));
    assert_eq!(rt; window.seen, 0);
    assert!(rt; det_window_arrive(&mut window, &mut places, 4));
    assert!(rt; det_window_turn(&mut window, &mut places));
    assert_eq!(rt; (window.seen, places[0]), (1, 4));
    assert!(rt; det_window_turn(&mut window, &mut places));
    assert_eq!(rt; window.seen, 0);
}

#[test]
fn windows_that_are_refused(rt: HostRuntime) {
    let mut window = any_window();
    for (capacity, policy) in [(0, 0), (1025, 0), (1, 2)] {
        assert!(rt; !det_window_new(&mut window, capacity, policy));
        assert_eq!(rt; (window.capacity, window.seen, window.arriving), (0, 7, 8));
    }
    let mut places = [5; 4];
    for (capacity, seen, arriving, policy) in [
        (0, 0, 0, 0),
        (3, 0, 0, 0),
        (1025, 0, 0, 0),
        (2, 3, 0, 0),
        (2, 0, 3, 0),
        (2, 0, 0, 2),
    ] {
        window = DetWindow {
            capacity,
            seen,
            arriving,
            policy,
        };
        assert!(rt; !det_window_arrive(&mut window, &mut places, 1));
        assert!(rt; !det_window_turn(&mut window, &mut places));
        assert_eq!(rt; (window.seen, window.arriving), (seen, arriving));
        assert!(rt; places == [5; 4]);
    }
}

#[test]
fn values_at_their_limits(rt: HostRuntime) {
    let mut window = any_window();
    let mut places = [5; 2];
    assert!(rt; det_window_new(&mut window, 1, 0));
    for value in [1_000_000_000_001, -1_000_000_000_001] {
        assert!(rt; !det_window_arrive(&mut window, &mut places, value));
        assert_eq!(rt; (window.arriving, places[1]), (0, 5));
    }
    for value in [1_000_000_000_000, -1_000_000_000_000] {
        assert!(rt; det_window_arrive(&mut window, &mut places, value));
        assert_eq!(rt; (window.arriving, places[1]), (1, value));
    }
}
