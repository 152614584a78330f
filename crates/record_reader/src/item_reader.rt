//! Reads the items of a record from a slot, as views of the bytes in a window. Nothing of an item
//! is copied. Reading takes no memory once the longest item has come.

mod comparison;
mod reader;
mod window;

pub use comparison::Comparison;
pub use reader::ItemReader;
