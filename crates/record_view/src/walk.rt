//! Walks over a frame's samples and elements. Each of these is read from the frame's bytes when it
//! is asked for.
ghost use Rattle.std.specs.Prelude.{◌≡◌, ◌≤◌, ◌∷◌, [], length, IfSome, IfNone};
ghost use Rattle.det_values.specs.Spelling.{an_element};

use crate::field::drawn_element;
use crate::input::sample;
use det_values::{Format, Sample};
use std::marker::Model;

/// The samples of a frame that are still to be read.
#[derive(Drop)]
pub struct SampleWalk<'a> {
    pub(crate) events: u16,
    pub(crate) rest: &'a [u8],
    pub(crate) left: u32,
}

impl<'a> Model for SampleWalk<'a> {
    ghost use Rattle.std.specs.Prelude.{◌≡◌, List, true};
    ghost use Rattle.det_values.specs.Values.{SampleValue};
    ghost use Rattle.record_grammar.specs.Grammar.{sample_at};
    ghost use Rattle.record_view.specs.Walks.{values_at, stand_at};

    ghost Value = { List SampleValue };

    ghost view = { λ w. values_at (sample_at w.events) w.left w.rest.now };

    ghost invariant = { λ w. stand_at (sample_at w.events) w.left w.rest.now ≡ true };
}

impl<'a> SampleWalk<'a> {
    /// Reads the next sample.
    pub fn next(&mut self) -> Option<Sample>
        ensures some { IfSome result (λ s. self.old ≡ s ∷ self.new) }
        ensures none { IfNone result ((self.old ≡ []) × (self.new ≡ [])) }
    {
        if self.left == 0 {
            return None;
        }
        match sample(self.events, self.rest) {
            Ok((event, value, rest)) => {
                self.rest = rest;
                self.left -= 1;
                Some(Sample { event, value })
            }
            Err(_) => None,
        }
    }
}

/// The elements of a frame that are still to be read.
#[derive(Drop)]
pub struct ElementWalk<'a> {
    pub(crate) format: Format,
    pub(crate) rest: &'a [u8],
    pub(crate) left: u32,
}

impl<'a> Model for ElementWalk<'a> {
    ghost use Rattle.std.specs.Prelude.{◌≡◌, List, true};
    ghost use Rattle.det_values.specs.declared.frames.DrawnElement.{DrawnElement};
    ghost use Rattle.record_grammar.specs.Grammar.{drawn_at};
    ghost use Rattle.record_view.specs.Walks.{values_at, stand_at};

    ghost Value = { List DrawnElement };

    ghost view = { λ w. values_at (drawn_at w.format) w.left w.rest.now };

    ghost invariant = { λ w. stand_at (drawn_at w.format) w.left w.rest.now ≡ true };
}

impl<'a> ElementWalk<'a> {
    /// Reads the next element: its bytes and its draws.
    pub fn next(&mut self) -> Option<(&'a [u8], u32)>
        ensures some { IfSome result (λ x. self.old ≡ an_element x.0.now x.1 ∷ self.new) }
        ensures short { IfSome result (λ x. length x.0.now ≤ 64) }
        ensures none { IfNone result ((self.old ≡ []) × (self.new ≡ [])) }
    {
        if self.left == 0 {
            return None;
        }
        match drawn_element(self.format, self.rest) {
            Ok((bytes, draws, rest)) => {
                self.rest = rest;
                self.left -= 1;
                Some((bytes, draws))
            }
            Err(_) => None,
        }
    }
}
