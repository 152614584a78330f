//! `Shown`, the result of printing a record.

/// The number of Run frames of the record.
#[derive(Clone, Copy, Debug, PartialEq, Eq, Drop)]
pub struct Shown {
    pub cycles: u32,
}
