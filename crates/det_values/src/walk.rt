//! The walk over a `DrawnElements`, across its blocks.
ghost use Rattle.std.specs.Prelude.{◌≡◌, ◌≤◌, ◌∷◌, [], length, IfSome, IfNone};
ghost use Rattle.det_values.specs.Spelling.{an_element};

use crate::block_walk::BlockWalk;
use crate::drawn_block::DrawnBlock;
use std::marker::Model;

/// The elements of a `DrawnElements` that remain.
#[derive(Drop)]
pub struct Walk<'a> {
    pub(crate) here: BlockWalk<'a>,
    pub(crate) behind: &'a [DrawnBlock],
}

impl<'a> Model for Walk<'a> {
    ghost use Rattle.std.specs.Prelude.{List, ◌++◌};
    ghost use Rattle.det_values.specs.declared.frames.DrawnElement.{DrawnElement};
    ghost use Rattle.det_values.specs.Blocks.{joined};

    ghost Value = { List DrawnElement };

    ghost view = { λ w. w.here ++ joined w.behind.now };
}

impl<'a> Walk<'a> {
    /// Takes the next element: its bytes and its draws.
    pub fn next(&mut self) -> Option<(&'a [u8], u32)>
        ensures some { IfSome result (λ x. self.old ≡ an_element x.0.now x.1 ∷ self.new) }
        ensures short { IfSome result (λ x. length x.0.now ≤ 64) }
        ensures none { IfNone result (self.old ≡ []) }
        ensures ended { IfNone result (self.new ≡ []) }
    {
        'next: loop {
            if let Some(element) = self.here.next() {
                return Some(element);
            }
            match self.behind {
                [block, behind @ ..] => {
                    self.here = block.walk();
                    self.behind = behind;
                }
                [] => return None,
            }
        }
    }
}
