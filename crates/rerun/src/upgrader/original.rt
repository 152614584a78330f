//! `Original`: the record that is upgraded.
use det_values::Format;
use record_reader::FrameReader;

/// The format of a record that is upgraded, and the reader of its frames, which has given only the
/// header.
#[derive(Drop)]
pub struct Original {
    pub format: Format,
    pub frames: FrameReader,
}
