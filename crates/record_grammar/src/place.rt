//! Places in a record, which decide what may come next.
use det_values::Format;

/// What the frames depend on in the header before them: the format and the number of events.
#[derive(Clone, Copy, Debug, PartialEq, Eq, Drop)]
pub struct Layout {
    pub format: Format,
    pub events: u16,
}

/// A place in a record, named by the item that may come there.
#[derive(Clone, Copy, Debug, PartialEq, Eq, Drop)]
pub enum Place {
    Header,
    Register(Layout),
    Discover(Layout),
    Init(Layout),
    /// A Run frame after this number of others, or Terminate.
    Runs(Layout, u32),
    /// After Terminate, where nothing may come.
    End,
}
