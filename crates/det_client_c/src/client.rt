//! The calls of a client.

ghost use Rattle.std.specs.Prelude.{◌≡◌, ℕ, ◌<◌, ◌⊎◌, ◌↔◌, List, [], ◌∷◌, ◌++◌, None, Some, false};
ghost use Rattle.std.specs.Prelude.{IsTrue};
ghost use Rattle.det_values.specs.Limits.{IsCycleTime};
ghost use Rattle.det_client.specs.Life.{answer, time_of, cycle_of};
ghost use Rattle.det_client.specs.State.{next_time};
ghost use Rattle.det_client.specs.Calls.{Call, ComesFrom, requests, seed_of, own_word};
ghost use Rattle.det_client.specs.Calls.Call.{waits, reseeds, draws};
ghost use Rattle.det_client_c.specs.CState.{number_of, state_of, next_of};

use crate::c_state::{DetClient, next, number};
use det_client::{Client, MOST_CYCLES};

/// Makes a new client with the seed 0. The cycle time is in nanoseconds, from 1 to 2^63 - 1. False
/// for any other one.
#[unsafe(no_mangle)]
pub extern "C" fn det_client_new(client: &mut DetClient, cycle_time: u64) -> bool
    ensures takes { IsTrue result ↔ IsCycleTime cycle_time }
    ensures made { IsTrue result → ComesFrom (state_of client.new) cycle_time [] }
    ensures refuses { result ≡ false → client.new ≡ client.old }
{
    if cycle_time == 0 || cycle_time >= 9_223_372_036_854_775_808 {
        return false;
    }
    *client = DetClient::from_client(&Client::new(cycle_time));
    true
}

/// Sets `activation` to what to do next: 0 register services, 1 discover services, 2 initialise, 3
/// do a cycle, 4 end. False if no stop is requested and 1,000,000 cycles have begun.
#[unsafe(no_mangle)]
pub extern "C" fn det_client_wait(
    client: &mut DetClient,
    stop: bool,
    has_time: bool,
    time: u64,
    activation: &mut u8,
) -> bool
    ensures takes { IsTrue result ↔ (IsTrue stop ⊎ (client.old.cycle < MOST_CYCLES)) }
    ensures answer { IsTrue result → (t : ℕ) (calls : List Call)
        → ComesFrom (state_of client.old) t calls
        → activation.new ≡ number_of (answer (requests calls ++ next_of stop has_time time ∷ [])) }
    ensures calls { IsTrue result → (t : ℕ) (calls : List Call)
        → ComesFrom (state_of client.old) t calls
        → ComesFrom (state_of client.new) t (calls ++ waits (next_of stop has_time time) ∷ []) }
    ensures refuses { result ≡ false → client.new ≡ client.old }
    ensures keeps { result ≡ false → activation.new ≡ activation.old }
{
    if !stop && client.cycle >= MOST_CYCLES {
        return false;
    }
    let mut kept = client.client();
    *activation = number(kept.wait_for_activation(next(stop, has_time, time)));
    *client = DetClient::from_client(&kept);
    true
}

/// The time of the present cycle, in nanoseconds. False if none is known.
#[unsafe(no_mangle)]
pub extern "C" fn det_client_time(client: &DetClient, time: &mut u64) -> bool
    ensures known { IsTrue result → (t : ℕ) (calls : List Call)
        → ComesFrom (state_of client.now) t calls → time_of (requests calls) ≡ Some time.new }
    ensures unknown { result ≡ false → (t : ℕ) (calls : List Call)
        → ComesFrom (state_of client.now) t calls → time_of (requests calls) ≡ None }
    ensures keeps { result ≡ false → time.new ≡ time.old }
{
    match client.client().get_activation_time() {
        Ok(known) => {
            *time = known;
            true
        }
        Err(_) => false,
    }
}

/// The time of the next cycle, in nanoseconds. False if none is known.
#[unsafe(no_mangle)]
pub extern "C" fn det_client_next_time(client: &DetClient, time: &mut u64) -> bool
    ensures known { IsTrue result → (t : ℕ) (calls : List Call)
        → ComesFrom (state_of client.now) t calls
        → next_time t (time_of (requests calls)) ≡ Some time.new }
    ensures unknown { result ≡ false → (t : ℕ) (calls : List Call)
        → ComesFrom (state_of client.now) t calls
        → next_time t (time_of (requests calls)) ≡ None }
    ensures keeps { result ≡ false → time.new ≡ time.old }
{
    match client.client().get_next_activation_time() {
        Ok(known) => {
            *time = known;
            true
        }
        Err(_) => false,
    }
}

/// Sets the seed of all random numbers, and restarts the client's own stream.
#[unsafe(no_mangle)]
pub extern "C" fn det_client_set_seed(client: &mut DetClient, seed: u64)
    ensures { (t : ℕ) (calls : List Call) → ComesFrom (state_of client.old) t calls
        → ComesFrom (state_of client.new) t (calls ++ reseeds seed ∷ []) }
{
    let mut kept = client.client();
    kept.set_random_seed(seed);
    *client = DetClient::from_client(&kept);
}

/// Draws the next random number of the client's own stream.
#[unsafe(no_mangle)]
pub extern "C" fn det_client_random(client: &mut DetClient) -> u64
    ensures word { (t : ℕ) (calls : List Call) → ComesFrom (state_of client.old) t calls
        → result ≡ own_word calls }
    ensures calls { (t : ℕ) (calls : List Call) → ComesFrom (state_of client.old) t calls
        → ComesFrom (state_of client.new) t (calls ++ draws ∷ []) }
{
    let mut kept = client.client();
    let word = kept.get_random();
    *client = DetClient::from_client(&kept);
    word
}

/// The present seed.
#[unsafe(no_mangle)]
pub extern "C" fn det_client_seed(client: &DetClient) -> u64
    ensures { (t : ℕ) (calls : List Call) → ComesFrom (state_of client.now) t calls
        → result ≡ seed_of calls }
{
    client.client().seed()
}

/// The number of the present cycle: 0 before the first one.
#[unsafe(no_mangle)]
pub extern "C" fn det_client_cycle(client: &DetClient) -> u32
    ensures { (t : ℕ) (calls : List Call) → ComesFrom (state_of client.now) t calls
        → result ≡ cycle_of (requests calls) }
{
    client.client().cycle()
}
