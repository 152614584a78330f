//! The items of a record.
use det_values::{Frame, Profile};

/// A part of a record: its header, and then one frame after another.
#[derive(Debug, PartialEq, Drop)]
pub enum Item {
    /// The profile's format is the one that the version field names.
    Header(Profile),
    /// In format 1 the draws of each element are 0.
    Frame(Frame),
}
