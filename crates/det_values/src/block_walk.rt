//! The walk over one `DrawnBlock`, which reads elements from its bytes.
ghost use Rattle.std.specs.Prelude.{◌≡◌, ◌≤◌, ◌∷◌, [], length, IfSome, IfNone};
ghost use Rattle.det_values.specs.Spelling.{an_element};

use crate::first_element::split_first_element;
use std::marker::Model;

/// The elements of a `DrawnBlock` that remain.
#[derive(Drop)]
pub struct BlockWalk<'a> {
    pub(crate) rest: &'a [u8],
    pub(crate) left: u32,
}

impl<'a> Model for BlockWalk<'a> {
    ghost use Rattle.std.specs.Prelude.{List};
    ghost use Rattle.det_values.specs.declared.frames.DrawnElement.{DrawnElement};
    ghost use Rattle.det_values.specs.Spelling.{elements_in, IsFlat};

    ghost Value = { List DrawnElement };

    ghost view = { λ w. elements_in w.left w.rest.now };

    ghost invariant = { λ w. IsFlat w.left w.rest.now };
}

impl<'a> BlockWalk<'a> {
    /// Takes the next element: its bytes and its draws.
    pub fn next(&mut self) -> Option<(&'a [u8], u32)>
        ensures some { IfSome result (λ x. self.old ≡ an_element x.0.now x.1 ∷ self.new) }
        ensures short { IfSome result (λ x. length x.0.now ≤ 64) }
        ensures none { IfNone result (self.old ≡ []) }
        ensures ended { IfNone result (self.new ≡ []) }
    {
        if self.left == 0 {
            return None;
        }
        match split_first_element(self.rest) {
            Some((bytes, draws, rest)) => {
                self.rest = rest;
                self.left -= 1;
                Some((bytes, draws))
            }
            None => None,
        }
    }
}
