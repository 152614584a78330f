//! Opens names: one, or several for the commands that read copies.

mod one_name;
mod open_slots;

pub use one_name::open_record;
pub use open_slots::open_all;
