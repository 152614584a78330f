//! Tests of `det_io`: interrupted and failing readers and writers, a folder read as a file, and the
//! buffer in front of a sink. They are in a crate of their own, since proving a crate's tests
//! proves that crate a second time.
#![tactic(auto)]

#[cfg(test)]
mod read_folder;
#[cfg(test)]
mod sink_buffer_front;
#[cfg(test)]
mod std_failures;
