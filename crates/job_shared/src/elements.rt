//! The elements with which a run starts, and their bytes in a frame.

ghost use Rattle.std.specs.Prelude.{◌≡◌, ℕ, ◌+◌, ◌<◌, ◌≤◌, ◌++◌, length, map, IfOk, OnOk, OnErr};
ghost use Rattle.std.specs.List.{range_with_len};
ghost use Rattle.std.specs.Vec.{vec_capacity, vec_len};
ghost use Rattle.det_values.specs.Spelling.{an_element, spelled_drawn};

use det_values::Container;
use std::alloc::{AllocError, Global};

/// An element that a job makes from its number alone, counted from 0.
pub trait FirstElement<J>: Sized + Drop {
    ghost use Rattle.std.specs.Prelude.{◌≡◌, ℕ};

    ghost first: { J → ℕ → Self };

    /// The element of a new run with this number.
    fn first_element(job: &J, number: u32) -> Self
        ensures { result ≡ first job.now number };
}

/// The elements of a new run.
pub fn first_elements<J, E: FirstElement<J>>(
    alloc: Global,
    job: &J,
    count: u32,
) -> Result<Container<E>, AllocError>
    requires { count ≤ 65536 }
    ensures elements { IfOk result (λ elements.
        elements ≡ map (E.first job.now) (range_with_len 0 count)) }
    ensures few { IfOk result (λ elements. length elements ≤ 65536) }
{
    let mut elements = Container::with_room(alloc, count as usize)?;
    for number in 0..count {
        elements.push(alloc, E::first_element(job, number))?;
    }
    Ok(elements)
}

/// The most bytes of an element in a frame, with their number and its draws.
const MOST_DRAWN: usize = 70;

/// Appends an element's bytes, after their number and before its draws, by one append.
#[inline(always)]
#[tactic(auto, unfolding(det_values::specs::Spelling::spelled_u16, det_values::specs::Spelling::spelled_u32, det_values::specs::Spelling::spelled_drawn))]
pub fn put_drawn_bytes(bytes: &[u8], draws: u32, out: &mut Vec<u8>) -> Result<(), AllocError>
    requires { length bytes.now ≤ 64 }
    ensures ok { OnOk result (out.new.items ≡ out.old.items
        ++ spelled_drawn (an_element bytes.now draws)) }
    ensures room { vec_capacity out.old ≤ vec_capacity out.new }
    ensures full { OnErr result (vec_capacity out.old < vec_len out.old + 70) }
{
    let end = 2 + bytes.len();
    let mut drawn = [0; MOST_DRAWN];
    drawn[..2].copy_from_slice(&(bytes.len() as u16).to_be_bytes());
    drawn[2..end].copy_from_slice(bytes);
    drawn[end..end + 4].copy_from_slice(&draws.to_be_bytes());
    Ok(out.extend_from_slice(&drawn[..end + 4])?)
}
