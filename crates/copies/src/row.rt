//! `Row`: a row of a record, as contracts see it.
use record_grammar::{Item, RecordFault};

/// A row of a copy: an item, or how its record ends after all items. Only definitions use it. The
/// code compares items by their bytes and makes no value of this type.
#[derive(Drop)]
pub enum Row {
    Item(Item),
    /// The record is whole.
    Whole,
    /// The record has this fault.
    Fault(RecordFault),
}
