//! Looks up files by name, and reads from a place in a file.
ghost use Rattle.std.specs.Prelude.{◌≡◌, ◌<◌, ◌≤◌, ◌+◌, ◌^◌, min, length, take, IfSome};
ghost use Rattle.det_io.specs.MemShelf.{index_of, rest_of};

use super::MemFile;
use super::place::FilePlace;
use crate::read_memory::read_memory;

// The index of the first file with this name, or None.
pub(super) fn index_of(files: &[MemFile], name: &str) -> Option<usize>
    ensures value { result ≡ index_of files.now name.now }
    ensures within { IfSome result (λ i. i < length files.now) }
{
    files.iter().position(|file| file.name.as_str() == name)
}

// The bytes from a place to the end of its file; none for a place past the end.
fn file_rest_at(files: &[MemFile], place: FilePlace) -> &[u8]
    ensures rest { result.now ≡ rest_of files.now place }
    ensures fits { place.at + length result.now < 2 ^ 64 }
{
    match files.get(place.file) {
        Some(file) if place.at <= file.bytes.len() => &file.bytes.as_slice()[place.at..],
        _ => &[],
    }
}

// Copies the next bytes at a place, at most `most`, and returns their number.
pub(super) fn copy_file_bytes(
    files: &[MemFile],
    place: FilePlace,
    buf: &mut [u8],
    most: usize,
) -> usize
    ensures count { result ≡ min (min (length buf.old) most) (length (rest_of files.now place)) }
    ensures fits { place.at + result < 2 ^ 64 }
    ensures front { take result buf.new ≡ take result (rest_of files.now place) }
{
    read_memory(file_rest_at(files, place), buf, most)
}
