//! The structs in which C keeps a client and streams of random numbers.

ghost use Rattle.std.specs.Prelude.{◌≡◌, ℕ, List};
ghost use Rattle.det_client.specs.Calls.{Call, ComesFrom};
ghost use Rattle.det_client_c.specs.CState.{number_of, last_of_number, time_of_parts, state_of};
ghost use Rattle.det_client_c.specs.CState.{next_of};

use det_client::element_random::ElementRandom;
use det_client::{Activation, Client, Next};

/// A stream of random numbers, as C keeps it.
#[repr(C)]
#[derive(Drop)]
pub struct DetRandom {
    pub state: [u64; 4],
    pub draws: u64,
}

/// What the keys of all elements in one pass have in common, as C keeps it.
#[repr(C)]
#[derive(Drop)]
pub struct DetPassKeys {
    pub shared: u64,
    pub pass: u8,
}

/// A client, as C keeps it.
#[repr(C)]
#[derive(Drop)]
pub struct DetClient {
    pub cycle_time: u64,
    pub time: u64,
    pub seed: u64,
    pub own: DetRandom,
    pub cycle: u32,
    /// The number of the last activation, or 5 before the first one.
    pub last: u8,
    pub has_time: bool,
}

/// The number of an activation, in the order of the standard.
pub(crate) fn number(activation: Activation) -> u8
    ensures { result ≡ number_of activation }
{
    match activation {
        Activation::RegisterServices => 0,
        Activation::ServiceDiscovery => 1,
        Activation::Init => 2,
        Activation::Run => 3,
        Activation::Terminate => 4,
    }
}

/// The number that C keeps for the last activation.
fn last_number(last: Option<Activation>) -> u8
    ensures { last_of_number result ≡ last }
{
    match last {
        None => 5,
        Some(activation) => number(activation),
    }
}

/// The last activation, from the number that C keeps.
fn last_activation(number: u8) -> Option<Activation>
    ensures { result ≡ last_of_number number }
{
    match number {
        0 => Some(Activation::RegisterServices),
        1 => Some(Activation::ServiceDiscovery),
        2 => Some(Activation::Init),
        3 => Some(Activation::Run),
        5 => None,
        _ => Some(Activation::Terminate),
    }
}

/// A time, if it is known.
fn known_time(known: bool, time: u64) -> Option<u64>
    ensures { result ≡ time_of_parts known time }
{
    if known { Some(time) } else { None }
}

/// The request that C makes by these arguments.
pub(crate) fn next(stop: bool, has_time: bool, time: u64) -> Next
    ensures { result ≡ next_of stop has_time time }
{
    if stop {
        Next::Stop
    } else {
        Next::Go(known_time(has_time, time))
    }
}

impl DetClient {
    /// The client that C keeps.
    pub(crate) fn client(&self) -> Client
        ensures comes { (t : ℕ) (calls : List Call) → ComesFrom (state_of self.now) t calls
            → ComesFrom result t calls }
        ensures cycle { result.cycle ≡ self.now.cycle }
    {
        Client::from_parts(
            self.cycle_time,
            last_activation(self.last),
            known_time(self.has_time, self.time),
            self.seed,
            self.cycle,
            ElementRandom::from_parts(self.own.state, self.own.draws),
        )
    }

    /// The struct in which C keeps a client.
    pub(crate) fn from_client(client: &Client) -> DetClient
        ensures { (t : ℕ) (calls : List Call) → ComesFrom client.now t calls
            → ComesFrom (state_of result) t calls }
    {
        let time = client.time();
        let own = client.own();
        DetClient {
            cycle_time: client.cycle_time(),
            time: time.unwrap_or(0),
            seed: client.seed(),
            own: DetRandom {
                state: own.state(),
                draws: own.draws(),
            },
            cycle: client.cycle(),
            last: last_number(client.last()),
            has_time: time.is_some(),
        }
    }
}
