//! A short text.
ghost use Rattle.std.specs.Prelude.{◌≡◌, ◌≤◌, length};

/// A text: the first `len` bytes, with no 0 after them.
#[repr(C)]
#[derive(Drop)]
pub struct DetText {
    pub bytes: [u8; 1024],
    pub len: u16,
}

impl DetText {
    ghost use Rattle.c_types.specs.CValues.{text_of};

    /// Becomes a copy of a text.
    pub fn set(&mut self, text: &[u8])
        requires { length text.now ≤ 1024 }
        ensures { text_of self.new ≡ text.now }
    {
        self.bytes[..text.len()].copy_from_slice(text);
        self.len = text.len() as u16;
    }
}
