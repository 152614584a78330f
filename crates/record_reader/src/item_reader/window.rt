//! A window over a slot: the bytes that were read and are still needed.
ghost use Rattle.std.specs.Prelude.{◌≡◌, ℕ, ◌+◌, ◌-◌, ◌<◌, ◌≤◌, List, [], ◌++◌, length, take, drop};
ghost use Rattle.std.specs.Prelude.{OnOk, OnErr, IfOk, ◌≢◌, ◌⊎◌};
ghost use Rattle.det_io.specs.Count.{Rose};
ghost use Rattle.det_io.specs.Shelf.{Reads, IsAtEnd, moved};
ghost use Rattle.record_grammar.specs.Spelling.{AreBytes};
ghost use Rattle.std.specs.Vec.{vec_len};

use det_io::{Failure, ShelfFailed, Slots};
use std::alloc::{AllocError, Global};

/// The number of bytes that a read asks for. It is large enough that the cost of a call is small
/// beside that of moving the bytes. It is small enough that they are still in the processor's cache
/// when they are checked.
pub const PIECE: usize = 65_536;

/// A buffer, a part of which is held. Bytes are read into its free end, so none is copied or
/// cleared for that.
#[derive(Drop)]
pub struct Window {
    buffer: Vec<u8>,
    /// The offset of the first held byte.
    from: usize,
    /// The offset after the last held byte.
    to: usize,
    ghost order: { from ≤ to },
    ghost within: { to ≤ vec_len buffer },
}

impl Window {
    ghost use Rattle.det_io.specs.Traffic.{ShelfTraffic, shelf_run, failure_of};
    ghost use Rattle.record_reader.specs.item_reader.Held.{held, Took, Matched};

    /// A window that holds nothing. It takes no memory.
    pub fn new(alloc: Global) -> Window
        ensures { held result ≡ [] }
    {
        Window {
            buffer: Vec::new(alloc),
            from: 0,
            to: 0,
        }
    }

    /// The number of held bytes.
    pub fn len(&self) -> usize
        ensures { result ≡ length (held self.now) }
    {
        self.to - self.from
    }

    /// The held bytes.
    pub fn as_slice(&self) -> &[u8]
        ensures value { result.now ≡ held self.now }
        ensures bytes { AreBytes result.now }
    {
        buffer_part(&self.buffer, self.from, self.to)
    }

    /// Drops the first bytes.
    pub fn skip(&mut self, count: usize)
        requires { count ≤ length (held self.old) }
        ensures { held self.new ≡ drop count (held self.old) }
    {
        self.from += count;
    }

    /// Drops the first bytes as long as they are equal to those of `bytes` from `matched` on.
    /// Returns the new number of matched bytes.
    pub fn skip_equal(&mut self, bytes: &[u8], matched: usize) -> usize
        requires { matched ≤ length bytes.now }
        ensures { Matched bytes.now matched result (held self.old) (held self.new) }
    {
        let most = self.len().min(bytes.len() - matched);
        let equal = equal_front(&self.as_slice()[..most], &bytes[matched..matched + most]);
        self.skip(equal);
        matched + equal
    }

    /// Puts bytes before the held ones.
    pub fn put_front(&mut self, bytes: &[u8]) -> Result<(), AllocError>
        ensures ok { OnOk result (held self.new ≡ bytes.now ++ held self.old) }
        ensures err { OnErr result (held self.new ≡ held self.old) }
    {
        if self.from < bytes.len() {
            self.move_back(bytes.len())?;
        }
        self.write_front(bytes);
        Ok(())
    }

    /// Moves the held bytes back, until there is room for `count` bytes before them.
    fn move_back(&mut self, count: usize) -> Result<(), AllocError>
        ensures same { held self.new ≡ held self.old }
        ensures room { OnOk result (count ≤ self.new.from) }
    {
        let Some(end) = count.checked_add(self.len()) else {
            return Err(AllocError);
        };
        self.lengthen_to(end)?;
        self.move_to(count);
        Ok(())
    }

    /// Moves the held bytes to another offset of the buffer.
    fn move_to(&mut self, place: usize)
        requires { place + length (held self.old) ≤ vec_len self.old.buffer }
        ensures same { held self.new ≡ held self.old }
        ensures place { self.new.from ≡ place }
    {
        let len = self.len();
        self.buffer.copy_within(self.from..self.to, place);
        self.from = place;
        self.to = place + len;
    }

    /// Makes the buffer at least `len` bytes long.
    fn lengthen_to(&mut self, len: usize) -> Result<(), AllocError>
        ensures same { held self.new ≡ held self.old }
        ensures places { (self.new.from ≡ self.old.from) × (self.new.to ≡ self.old.to) }
        ensures long { OnOk result (len ≤ vec_len self.new.buffer) }
    {
        if self.buffer.len() >= len {
            return Ok(());
        }
        lengthen_buffer(&mut self.buffer, len)
    }

    /// Writes bytes right before the held ones.
    fn write_front(&mut self, bytes: &[u8])
        requires { length bytes.now ≤ self.old.from }
        ensures { held self.new ≡ bytes.now ++ held self.old }
    {
        let from = self.from - bytes.len();
        write_buffer_at(&mut self.buffer, from, bytes);
        self.from = from;
    }

    /// Reads a piece after the held bytes and returns its length, which is 0 at the end of the
    /// slot.
    pub fn read<S: Slots>(&mut self, slot: u32, shelf: &mut S) -> Result<usize, Failure>
        requires { slot < (S.sees shelf.old).slots }
        ensures took { Took result (S.sees shelf.old) (S.sees shelf.new) slot (held self.old)
            (held self.new) }
        ensures most { length (held self.new) ≤ length (held self.old) + 65536 }
        ensures traffic { ShelfTraffic (shelf_run S.sees S.stays shelf.old shelf.new)
            (failure_of result) }
    {
        self.make_room()?;
        match read_slot(&mut self.buffer[self.to..self.to + PIECE], slot, shelf) {
            Ok(n) => {
                self.to += n;
                Ok(n)
            }
            Err(_) => Err(Failure::Read),
        }
    }

    /// Makes room for a piece at the end. It moves the held bytes to the front if that costs no
    /// more than was dropped, so all moves together are linear. Otherwise it doubles the buffer.
    fn make_room(&mut self) -> Result<(), AllocError>
        ensures same { held self.new ≡ held self.old }
        ensures room { OnOk result (self.new.to + 65536 ≤ vec_len self.new.buffer) }
    {
        if self.buffer.len() - self.to >= PIECE {
            return Ok(());
        }
        if self.from >= self.len() {
            self.move_to(0);
        }
        self.double_buffer()
    }

    /// Makes room for a piece at the end. If there is none, the buffer becomes at least twice as
    /// long.
    fn double_buffer(&mut self) -> Result<(), AllocError>
        ensures same { held self.new ≡ held self.old }
        ensures room { OnOk result (self.new.to + 65536 ≤ vec_len self.new.buffer) }
    {
        let len = self.buffer.len();
        if len - self.to >= PIECE {
            return Ok(());
        }
        self.lengthen_to((self.to + PIECE).max(len.saturating_mul(2)))
    }
}

/// The bytes from offset `from` up to offset `to`.
fn buffer_part(bytes: &[u8], from: usize, to: usize) -> &[u8]
    requires order { from ≤ to }
    requires within { to ≤ length bytes.now }
    ensures is { result.now ≡ drop from (take to bytes.now) }
    ensures bytes { AreBytes bytes.now }
{
    &bytes[from..to]
}

/// Reads the next bytes of a slot and returns their number.
fn read_slot<S: Slots>(buffer: &mut [u8], slot: u32, shelf: &mut S) -> Result<usize, ShelfFailed>
    requires { slot < (S.sees shelf.old).slots }
    ensures within { IfOk result (λ n. n ≤ length buffer.old) }
    ensures reads { Reads (S.sees shelf.old) (S.sees shelf.new) slot (moved result buffer.new) }
    ensures end { IfOk result (λ n. n ≡ 0 → 0 < length buffer.old
        → IsAtEnd (S.sees shelf.new) slot) }
    ensures cause { OnErr result (Rose (S.sees shelf.old).faults (S.sees shelf.new).faults) }
    ensures counted { (S.sees shelf.old).faults ≤ (S.sees shelf.new).faults }
    ensures stays { S.stays shelf.old shelf.new }
    ensures bytes { AreBytes buffer.new }
{
    shelf.read(slot, buffer)
}

/// Makes a buffer longer. The new bytes have no meaning.
fn lengthen_buffer(buffer: &mut Vec<u8>, len: usize) -> Result<(), AllocError>
    requires { vec_len buffer.old ≤ len }
    ensures same { take (vec_len buffer.old) buffer.new.items ≡ buffer.old.items }
    ensures longer { vec_len buffer.old ≤ vec_len buffer.new }
    ensures len { OnOk result (vec_len buffer.new ≡ len) }
{
    buffer.resize(len, 0)?;
    Ok(())
}

/// Overwrites the bytes from offset `at` on.
fn write_buffer_at(buffer: &mut Vec<u8>, at: usize, bytes: &[u8])
    requires { at + length bytes.now ≤ vec_len buffer.old }
    ensures items { buffer.new.items ≡ take at buffer.old.items
        ++ (bytes.now ++ drop (at + length bytes.now) buffer.old.items) }
    ensures len { vec_len buffer.new ≡ vec_len buffer.old }
{
    buffer[at..at + bytes.len()].copy_from_slice(bytes);
}

/// The length of the longest common prefix of two slices of the same length.
fn equal_front(one: &[u8], other: &[u8]) -> usize
    requires { length one.now ≡ length other.now }
    ensures within { result ≤ length one.now }
    ensures same { take result one.now ≡ take result other.now }
    ensures ends { (result ≡ length one.now)
        ⊎ (take 1 (drop result one.now) ≢ take 1 (drop result other.now)) }
{
    if one == other {
        return one.len();
    }
    let blocks = equal_blocks(one, other);
    blocks + equal_bytes(&one[blocks..], &other[blocks..])
}

/// The length of the common prefix in blocks of 64 bytes.
fn equal_blocks(one: &[u8], other: &[u8]) -> usize
    requires { length one.now ≡ length other.now }
    ensures within { result ≤ length one.now }
    ensures same { take result one.now ≡ take result other.now }
{
    let mut at = 0;
    'blocks: while one.len() - at >= 64 {
        if one[at..at + 64] != other[at..at + 64] {
            return at;
        }
        at += 64;
    }
    at
}

fn equal_bytes(one: &[u8], other: &[u8]) -> usize
    requires { length one.now ≡ length other.now }
    ensures within { result ≤ length one.now }
    ensures same { take result one.now ≡ take result other.now }
    ensures ends { (result ≡ length one.now)
        ⊎ (take 1 (drop result one.now) ≢ take 1 (drop result other.now)) }
{
    for i in 0..one.len() {
        if one[i] != other[i] {
            return i;
        }
    }
    one.len()
}
