//! `Twins`, what the arguments ask for, and its options.
ghost use Rattle.std.specs.Prelude.{◌≤◌};

/// The frame of a copy in which a bit is flipped. Both are counted from 0.
#[derive(Clone, Copy, Debug, PartialEq, Eq)]
pub struct Flip {
    pub copy: u32,
    pub number: u32,
}

/// The options after the names.
#[derive(Clone, Copy, Debug, PartialEq, Eq)]
pub struct TwinOptions {
    /// Whether an unknown key in the manifest is a fault.
    pub strict: bool,
    pub flip: Option<Flip>,
}

/// Copies of the run of a manifest over a stimulus.
#[derive(Clone, Copy)]
pub struct Twins<'a> {
    /// 2 to 8.
    pub copies: u32,
    pub manifest: &'a str,
    pub stimulus: &'a str,
    pub options: TwinOptions,
    ghost some: { 2 ≤ copies },
    ghost few: { copies ≤ 8 },
}
