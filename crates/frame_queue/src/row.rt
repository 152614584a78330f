//! `Row`: what goes through a queue.
use det_values::Frame;

/// One frame of a client, and its place among that client's frames. Places count from 0.
#[derive(Debug, PartialEq, Drop)]
pub struct Row {
    pub number: u32,
    pub frame: Frame,
}
