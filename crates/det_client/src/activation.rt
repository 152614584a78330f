//! Activations, and the requests for them. The sequence is that of the deterministic client of the
//! AUTOSAR Adaptive Platform.

ghost use Rattle.std.specs.Prelude.{◌≡◌};
ghost use Rattle.det_client.specs.Life.{successor, next_activation, go_time};

/// What the process is to do next.
#[derive(Clone, Copy, Debug, PartialEq, Eq)]
pub enum Activation {
    /// Registers its services.
    RegisterServices,
    /// Discovers the services that it uses.
    ServiceDiscovery,
    /// Initialises its data.
    Init,
    /// Does one cycle.
    Run,
    /// Ends.
    Terminate,
}

/// A request for an activation.
#[derive(Clone, Copy, Debug, PartialEq, Eq)]
pub enum Next {
    /// Go on, at a time in nanoseconds, if it is known. Only a cycle keeps its time.
    Go(Option<u64>),
    /// End. All later requests are answered with `Terminate` too.
    Stop,
}

impl Activation {
    /// The activation after the last one, if nothing stops the process.
    fn successor(last: Option<Activation>) -> Activation
        ensures { result ≡ successor last }
    {
        match last {
            None => Activation::RegisterServices,
            Some(Activation::RegisterServices) => Activation::ServiceDiscovery,
            Some(Activation::ServiceDiscovery) => Activation::Init,
            Some(Activation::Init | Activation::Run) => Activation::Run,
            Some(Activation::Terminate) => Activation::Terminate,
        }
    }
}

impl Next {
    /// The activation that answers this request after the last one.
    pub(crate) fn activation_after(self, last: Option<Activation>) -> Activation
        ensures { result ≡ next_activation last self }
    {
        match self {
            Next::Go(_) => Activation::successor(last),
            Next::Stop => Activation::Terminate,
        }
    }

    /// The time that this request carries, if any.
    pub(crate) fn time(self) -> Option<u64>
        ensures { result ≡ go_time self }
    {
        match self {
            Next::Go(time) => time,
            Next::Stop => None,
        }
    }
}
