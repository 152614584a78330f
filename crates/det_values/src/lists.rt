//! The bounded lists of a run, each with its limit in its type.
use crate::{Bytes64, EventSpec, Limited, Sample};

/// The parameters of a job: at most 16.
pub type Params = Limited<i64, 16>;

/// The events of a profile: at most 256.
pub type Events = Limited<EventSpec, 256>;

/// The samples that one cycle brings: at most 4,096.
pub type Samples = Limited<Sample, 4096>;

/// The bytes of each element: at most 65,536 elements.
pub type Elements = Limited<Bytes64, 65536>;

/// The bytes of one cycle's output, or of a text: at most 1,048,576.
pub type Bytes = Limited<u8, 1048576>;
