//! `RunningChild`, how far a child of a spawner in memory has come.

// The index of the child's script, how many of its bytes were read, whether the child was given to
// `finish`, and whether that failed.
#[derive(Clone, Copy, Debug)]
pub struct RunningChild {
    pub script: usize,
    pub at: usize,
    pub is_finished: bool,
    pub is_lost: bool,
}
