//! Prints a record as text, item by item, and then what an audience reports of its runs.

mod presenter;
mod printer;
mod show_form;
mod show_items;
mod shown;

pub(crate) use printer::Printer;
pub use show_form::{Notation, ShowForm};
pub(crate) use show_items::show_items;
pub use show_items::show_run;
pub use shown::Shown;
