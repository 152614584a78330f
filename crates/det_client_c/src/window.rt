//! The window of an event, in C's memory.
//!
//! C keeps a window and an array of at least twice its capacity. The first `seen` places of the
//! array are the window's values, the oldest first. The values that arrived since the last turn are
//! from place `capacity` on.

ghost use Rattle.std.specs.Prelude.{◌≡◌, ◌+◌, ◌-◌, ◌*◌, ◌<◌, ◌≤◌, ◌↔◌, ℤ, List, [], ◌∷◌, ◌++◌};
ghost use Rattle.std.specs.Prelude.{length, take, drop, IsTrue, false, ◌==◌, if◌then◌else◌};
ghost use Rattle.circular_buffer.specs.Buffer.{keep_last};
ghost use Rattle.det_values.specs.Limits.{IsCapacity, IsSampleValue};
ghost use Rattle.det_values.specs.Values.{SampleValue, EventSpecValue};
ghost use Rattle.job.specs.event_cache.Rings.{joined, turned};
ghost use Rattle.job.specs.event_cache.Windows.{window as shown};
ghost use Rattle.det_client_c.specs.Windows.{policy_of, rings_of, FitsIn, WasGiven};

/// The window of an event, as C keeps it.
#[repr(C)]
#[derive(Drop)]
pub struct DetWindow {
    pub capacity: u16,
    pub seen: u16,
    pub arriving: u16,
    /// With 0 the window shows the last values of all rounds, with 1 those of the last round.
    pub policy: u8,
}

/// Makes an empty window of 1 to 1,024 values, with the policy 0 or 1. False for any other capacity
/// or policy.
#[unsafe(no_mangle)]
pub extern "C" fn det_window_new(window: &mut DetWindow, capacity: u16, policy: u8) -> bool
    ensures takes { IsTrue result ↔ (IsCapacity capacity × (policy ≤ 1)) }
    ensures fits { IsTrue result → (places : List ℤ) → 2 * capacity ≤ length places
        → FitsIn places window.new }
    ensures made { IsTrue result → (places : List ℤ) (spec : EventSpecValue)
        → spec.capacity ≡ capacity → spec.policy ≡ policy_of policy
        → WasGiven window.new places spec [] [] }
    ensures refuses { result ≡ false → window.new ≡ window.old }
{
    if capacity == 0 || capacity > 1024 || policy > 1 {
        return false;
    }
    *window = DetWindow {
        capacity,
        seen: 0,
        arriving: 0,
        policy,
    };
    true
}

/// Adds a value, which the window shows after the next turn. If as many values as the capacity wait
/// already, the oldest of them is dropped. False if the window doesn't fit its array, or the value
/// isn't from -10^12 to 10^12.
#[unsafe(no_mangle)]
pub extern "C" fn det_window_arrive(window: &mut DetWindow, places: &mut [i64], value: i64) -> bool
    ensures takes { IsTrue result ↔ (FitsIn places.old window.old × IsSampleValue value) }
    ensures fits { IsTrue result → FitsIn places.new window.new }
    ensures rings { IsTrue result
        → rings_of window.new places.new ≡ joined (rings_of window.old places.old) value }
    ensures given { IsTrue result → (spec : EventSpecValue) (rounds : List (List SampleValue))
        (arrived : List SampleValue) → WasGiven window.old places.old spec rounds arrived
        → WasGiven window.new places.new spec rounds
        (arrived ++ record { event = 0; value = value } ∷ []) }
    ensures refuses { result ≡ false → window.new ≡ window.old }
    ensures keeps { result ≡ false → places.new ≡ places.old }
    ensures behind { drop (2 * window.old.capacity) places.new
        ≡ drop (2 * window.old.capacity) places.old }
{
    if !fits(window, places) || !is_window_sample(value) {
        return false;
    }
    let capacity = usize::from(window.capacity);
    let waiting = &mut places[capacity..2 * capacity];
    window.arriving = push_to_window_ring(waiting, window.arriving, value);
    true
}

/// Shows the values that arrived, according to the window's policy. False if the window doesn't fit
/// its array.
#[unsafe(no_mangle)]
pub extern "C" fn det_window_turn(window: &mut DetWindow, places: &mut [i64]) -> bool
    ensures takes { IsTrue result ↔ FitsIn places.old window.old }
    ensures fits { IsTrue result → FitsIn places.new window.new }
    ensures rings { IsTrue result
        → rings_of window.new places.new ≡ turned (rings_of window.old places.old) }
    ensures given { IsTrue result → (spec : EventSpecValue) (rounds : List (List SampleValue))
        (arrived : List SampleValue) → WasGiven window.old places.old spec rounds arrived
        → WasGiven window.new places.new spec (rounds ++ arrived ∷ []) [] }
    ensures shows { IsTrue result → (spec : EventSpecValue) (rounds : List (List SampleValue))
        (arrived : List SampleValue) → WasGiven window.old places.old spec rounds arrived
        → take window.new.seen places.new ≡ shown spec 0 (rounds ++ arrived ∷ []) }
    ensures refuses { result ≡ false → window.new ≡ window.old }
    ensures keeps { result ≡ false → places.new ≡ places.old }
    ensures behind { drop (2 * window.old.capacity) places.new
        ≡ drop (2 * window.old.capacity) places.old }
{
    if !fits(window, places) {
        return false;
    }
    let gone = leaving_samples(window);
    move_arrived_samples(window, places, gone);
    true
}

/// Whether a window fits its array.
fn fits(window: &DetWindow, places: &[i64]) -> bool
    ensures { IsTrue result ↔ FitsIn places.now window.now }
{
    let capacity = window.capacity;
    (1..=1024).contains(&capacity)
        && window.seen <= capacity
        && window.arriving <= capacity
        && window.policy <= 1
        && 2 * usize::from(capacity) <= places.len()
}

/// Whether an event may have this value.
fn is_window_sample(value: i64) -> bool
    ensures { IsTrue result ↔ IsSampleValue value }
{
    -1_000_000_000_000 <= value && value <= 1_000_000_000_000
}

/// Adds a value after the first `held` of a ring. If the ring is full, the oldest value is dropped.
/// Returns how many values the ring holds then.
fn push_to_window_ring(ring: &mut [i64], held: u16, value: i64) -> u16
    requires some { 0 < length ring.old }
    requires few { length ring.old ≤ 1024 }
    requires held { held ≤ length ring.old }
    ensures items { take result ring.new
        ≡ keep_last (length ring.old) (take held ring.old ++ value ∷ []) }
    ensures fits { result ≤ length ring.old }
    ensures len { length ring.new ≡ length ring.old }
{
    let place = usize::from(held);
    if place < ring.len() {
        ring[place] = value;
        return held + 1;
    }
    ring.rotate_left(1);
    ring[place - 1] = value;
    held
}

/// How many values leave a window at a turn.
fn leaving_samples(window: &DetWindow) -> u16
    requires seen { window.now.seen ≤ window.now.capacity }
    requires arriving { window.now.arriving ≤ window.now.capacity }
    requires capacity { window.now.capacity ≤ 1024 }
    ensures { result ≡ (if window.now.policy == 0
        then window.now.seen + window.now.arriving - window.now.capacity
        else window.now.seen) }
{
    if window.policy == 0 {
        (window.seen + window.arriving).saturating_sub(window.capacity)
    } else {
        window.seen
    }
}

/// Drops the first `gone` values of a window, and appends those that arrived.
fn move_arrived_samples(window: &mut DetWindow, places: &mut [i64], gone: u16)
    requires fits { FitsIn places.old window.old }
    requires gone { gone ≤ window.old.seen }
    requires room { window.old.seen - gone + window.old.arriving ≤ window.old.capacity }
    ensures window { window.new ≡ record window.old {
      seen = window.old.seen - gone + window.old.arriving;
      arriving = 0;
    } }
    ensures seen { take (window.old.seen - gone + window.old.arriving) places.new
        ≡ drop gone (take window.old.seen places.old)
        ++ take window.old.arriving (drop window.old.capacity places.old) }
    ensures len { length places.new ≡ length places.old }
    ensures behind { drop (2 * window.old.capacity) places.new
        ≡ drop (2 * window.old.capacity) places.old }
{
    let kept = window.seen - gone;
    let waiting = usize::from(window.capacity);
    let behind = waiting + usize::from(window.arriving);
    places.copy_within(usize::from(gone)..usize::from(window.seen), 0);
    places.copy_within(waiting..behind, usize::from(kept));
    window.seen = kept + window.arriving;
    window.arriving = 0;
}
