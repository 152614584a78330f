//! The place of a line, with numbers of blocks and samples only. It decides which line may come, and
//! takes no memory.
ghost use Rattle.stimulus.specs.States.{FollowingIs};

use crate::parse_line::Line;

const MAX_BLOCKS: u32 = 1_000_000;

const MAX_SAMPLES: u16 = 4_096;

/// What comes before a line.
#[derive(Clone, Copy, Debug, PartialEq, Eq, Drop)]
pub enum LinePlace {
    /// Nothing.
    First,
    /// Only the first line.
    Between,
    /// `blocks` lines `cycle`, the last of them followed by `samples` samples.
    Inside { blocks: u32, samples: u16 },
    /// The line `terminate`.
    Ended,
}

impl LinePlace {
    /// The place after a line. None if the line may not come here.
    #[tactic(auto, using(crate::proofs::Following::following))]
    pub fn after(self, line: &Line) -> Option<LinePlace>
        ensures { FollowingIs result self line.now }
    {
        match self {
            LinePlace::First => match line {
                Line::Stim => Some(LinePlace::Between),
                _ => None,
            },
            LinePlace::Between => match line {
                Line::Cycle(_) => Some(LinePlace::Inside {
                    blocks: 1,
                    samples: 0,
                }),
                Line::Terminate => Some(LinePlace::Ended),
                _ => None,
            },
            LinePlace::Inside { blocks, samples } => match line {
                Line::Cycle(_) if blocks < MAX_BLOCKS => Some(LinePlace::Inside {
                    blocks: blocks + 1,
                    samples: 0,
                }),
                Line::Sample(_) if samples < MAX_SAMPLES => Some(LinePlace::Inside {
                    blocks,
                    samples: samples + 1,
                }),
                Line::Terminate => Some(LinePlace::Ended),
                _ => None,
            },
            LinePlace::Ended => None,
        }
    }
}
