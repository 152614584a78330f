//! Sets the draws of elements to 0 in place, as format One keeps none.
ghost use Rattle.std.specs.Prelude.{◌≡◌, ◌≤◌, ◌+◌, ◌++◌, ◌∷◌, [], length, take, drop, IfSome};
ghost use Rattle.std.specs.Prelude.{IfNone};
ghost use Rattle.det_values.specs.Spelling.{elements_in, spelled_all, IsFlat, FirstAt, NoneAt};
ghost use Rattle.det_values.specs.Frames.{all_without_draws};

use crate::first_element::split_first_element;

/// Writes 0 over the four bytes at an index.
fn fill_zero(bytes: &mut [u8], at: usize)
    requires { at + 4 ≤ length bytes.old }
    ensures { bytes.new ≡ take at bytes.old ++ (0 ∷ 0 ∷ 0 ∷ 0 ∷ drop (at + 4) bytes.old) }
{
    bytes[at] = 0;
    bytes[at + 1] = 0;
    bytes[at + 2] = 0;
    bytes[at + 3] = 0;
}

/// The end of the element that begins at index `at`, or None if none begins there.
fn drawn_element_end(bytes: &[u8], at: usize) -> Option<usize>
    requires { at ≤ length bytes.now }
    ensures some { IfSome result (FirstAt bytes.now at) }
    ensures none { IfNone result (NoneAt bytes.now at) }
{
    match split_first_element(&bytes[at..]) {
        Some((_, _, behind)) => Some(bytes.len() - behind.len()),
        None => None,
    }
}

/// Sets the draws of all elements to 0.
pub fn clear_all_draws(bytes: &mut [u8], count: u32)
    requires { IsFlat count bytes.old }
    ensures { bytes.new ≡ spelled_all (all_without_draws (elements_in count bytes.old)) }
{
    let mut at = 0;
    for _ in 0..count {
        match drawn_element_end(bytes, at) {
            Some(end) => {
                fill_zero(bytes, end - 4);
                at = end;
            }
            None => return,
        }
    }
}
