//! Byte strings, one behind another in one buffer.
ghost use Rattle.std.specs.Prelude.{◌≡◌, ◌≤◌, ◌<◌, ◌+◌, [], ◌∷◌, ◌++◌, length, Some, None, IfOk, OnOk, OnErr, MatchOption, slice_get, vec_len, vec_capacity};
ghost use Rattle.xcp_trace.specs.Tape.{behind_string, framed, length_at, spelt, string_at};

use crate::spelling::HEAD_BYTES;
use std::alloc::{AllocError, Global};
use std::marker::Model;
use std::mem;

/// The bytes before a string, which say its length.
pub(crate) const LENGTH_BYTES: usize = 2;

/// Byte strings of at most 65,535 bytes each, one behind another in one growing buffer.
#[derive(Drop)]
pub struct Tape {
    bytes: Vec<u8>,
    count: usize,
}

impl Model for Tape {
    ghost use Rattle.std.specs.Prelude.{◌≡◌, ◌-◌, vec_len, vec_capacity};
    ghost use Rattle.xcp_trace.specs.Tape.{TapeValue, spelt, strings_in};

    ghost Value = { TapeValue };

    ghost view = { λ t. record { strings = strings_in t.count t.bytes.items; room = vec_capacity t.bytes - vec_len t.bytes } };

    // the bytes are those strings' and nothing else
    ghost invariant = { λ t. spelt (strings_in t.count t.bytes.items) ≡ t.bytes.items };
}

impl Tape {
    /// A tape with no string on it. It takes no memory yet.
    pub fn new(alloc: Global) -> Tape
        ensures { result.strings ≡ [] }
    {
        Tape {
            bytes: Vec::new(alloc),
            count: 0,
        }
    }

    /// A tape with no string on it, and with as much room as the other one has in all.
    pub fn with_room_of(alloc: Global, other: &Tape) -> Result<Tape, AllocError>
        ensures { IfOk result (λ t. (t.strings ≡ []) × (other.now.room ≤ t.room)) }
    {
        let bytes = Vec::with_capacity(alloc, other.bytes.capacity())?;
        Ok(Tape { bytes, count: 0 })
    }

    /// How many strings are on the tape.
    pub fn len(&self) -> usize
        ensures { result ≡ length self.now.strings }
    {
        self.count
    }

    /// Makes room for a string of at most so many bytes.
    pub fn reserve(&mut self, most: usize) -> Result<(), AllocError>
        requires { most < 65536 }
        ensures strings { self.new.strings ≡ self.old.strings }
        ensures ok { OnOk result (2 + most ≤ self.new.room) }
        ensures err { OnErr result (self.new ≡ self.old) }
    {
        self.bytes.reserve(LENGTH_BYTES + most)
    }

    /// Puts a string behind the others. It takes no memory.
    pub fn push_whole(&mut self, string: &[u8])
        requires short { length string.now < 65536 }
        requires room { 2 + length string.now ≤ self.old.room }
        ensures { self.new.strings ≡ self.old.strings ++ string.now ∷ [] }
    {
        self.push_parts(&[], string, &[]);
    }

    /// Puts a head and two more parts behind the others, as one string. It takes no memory.
    pub(crate) fn push_headed(&mut self, head: &[u8; HEAD_BYTES], second: &[u8], third: &[u8])
        requires short { length head.now + length second.now + length third.now < 65536 }
        requires room { 2 + (length head.now + length second.now + length third.now)
            ≤ self.old.room }
        ensures { self.new.strings
            ≡ self.old.strings ++ (head.now ++ second.now ++ third.now) ∷ [] }
    {
        self.push_parts(head, second, third);
    }

    /// Puts a caller's number, a head and two more parts behind the others, as one string. It takes no memory.
    pub(crate) fn push_called(
        &mut self,
        caller: u8,
        head: &[u8; HEAD_BYTES],
        second: &[u8],
        third: &[u8],
    )
        requires short { 1 + length head.now + length second.now + length third.now < 65536 }
        requires room { 2 + (1 + length head.now + length second.now + length third.now)
            ≤ self.old.room }
        ensures { self.new.strings
            ≡ self.old.strings ++ (caller ∷ [] ++ head.now ++ second.now ++ third.now) ∷ [] }
    {
        let called = [caller, head[0], head[1], head[2], head[3], head[4], head[5]];
        self.push_parts(&called, second, third);
    }

    /// Puts a few bytes and two more parts behind the others, as one string.
    #[inline(always)]
    fn push_parts<const N: usize>(&mut self, few: &[u8; N], second: &[u8], third: &[u8])
        requires few { N ≤ 8 }
        requires short { length few.now + length second.now + length third.now < 65536 }
        requires room { 2 + (length few.now + length second.now + length third.now)
            ≤ self.old.room }
        ensures { self.new.strings
            ≡ self.old.strings ++ (few.now ++ second.now ++ third.now) ∷ [] }
    {
        put_string(&mut self.bytes, few, second, third);
        self.count += 1;
    }

    /// The string at an index from 0 on, if there is one. It passes over those before it.
    pub fn get(&self, index: usize) -> Option<&[u8]>
        ensures { MatchOption result (slice_get self.now.strings index ≡ None)
            (λ string. slice_get self.now.strings index ≡ Some string.now) }
    {
        let mut strings = self.strings();
        for _passed in 0..index {
            match strings.next() {
                None => return None,
                Some(_) => {}
            }
        }
        strings.next()
    }

    /// The strings, from the first one on.
    pub fn strings(&self) -> Strings<'_>
        ensures { result ≡ self.now.strings }
    {
        Strings {
            left: &self.bytes,
            count: self.count,
        }
    }
}

/// Appends a few bytes and two more parts, as one string behind its length.
#[inline(always)]
fn put_string<const N: usize>(bytes: &mut Vec<u8>, few: &[u8; N], second: &[u8], third: &[u8])
    requires few { N ≤ 8 }
    requires short { length few.now + length second.now + length third.now < 65536 }
    requires room { vec_len bytes.old + (2 + (length few.now + length second.now
        + length third.now)) ≤ vec_capacity bytes.old }
    ensures { bytes.new.items
        ≡ bytes.old.items ++ framed (few.now ++ second.now ++ third.now) }
{
    // In a local Vec the length stays in a register: behind the reference it would be stored with
    // each piece that is put.
    let alloc = *bytes.allocator();
    let mut local = mem::replace(bytes, Vec::new(alloc));
    let length = N + second.len() + third.len();
    put_few(&mut local, &(length as u16).to_le_bytes());
    put_few(&mut local, few);
    put(&mut local, second);
    put(&mut local, third);
    *bytes = local;
}

/// Appends a few bytes for which there is room.
#[inline(always)]
fn put_few<const N: usize>(bytes: &mut Vec<u8>, few: &[u8; N])
    requires few { N ≤ 8 }
    requires room { vec_len bytes.old + N ≤ vec_capacity bytes.old }
    ensures items { bytes.new.items ≡ bytes.old.items ++ few.now }
    ensures len { vec_len bytes.new ≡ vec_len bytes.old + N }
    ensures capacity { vec_capacity bytes.new ≡ vec_capacity bytes.old }
{
    let _none = put_piece::<N>(bytes, few);
}

/// Appends bytes for which there is room.
#[inline(always)]
fn put(bytes: &mut Vec<u8>, more: &[u8])
    requires { vec_len bytes.old + length more.now ≤ vec_capacity bytes.old }
    ensures items { bytes.new.items ≡ bytes.old.items ++ more.now }
    ensures len { vec_len bytes.new ≡ vec_len bytes.old + length more.now }
    ensures capacity { vec_capacity bytes.old ≤ vec_capacity bytes.new }
{
    let mut left = more;
    for _eight in 0..more.len() / 8 {
        left = put_piece::<8>(bytes, left);
    }
    let left = put_piece::<4>(bytes, left);
    let left = put_piece::<2>(bytes, left);
    let _none = put_piece::<1>(bytes, left);
}

/// Appends the first `N` bytes, if there are so many, and returns those behind them. They are all
/// read before one is written, so that they are moved at once.
#[inline(always)]
fn put_piece<'a, const N: usize>(bytes: &mut Vec<u8>, more: &'a [u8]) -> &'a [u8]
    requires few { N ≤ 8 }
    requires room { vec_len bytes.old + length more.now ≤ vec_capacity bytes.old }
    ensures items { bytes.new.items ++ result.now ≡ bytes.old.items ++ more.now }
    ensures len { vec_len bytes.new + length result.now ≡ vec_len bytes.old + length more.now }
    ensures capacity { vec_capacity bytes.new ≡ vec_capacity bytes.old }
    ensures taken { N ≤ length more.now → length result.now + N ≡ length more.now }
    ensures kept { length more.now < N → length result.now ≡ length more.now }
{
    let Some((piece, left)) = more.split_first_chunk::<N>() else {
        return more;
    };
    let piece = *piece;
    for i in 0..N {
        bytes.push_reserved(piece[i]);
    }
    left
}

/// The string at the head of bytes, and the bytes behind it.
fn split_string(bytes: &[u8]) -> (&[u8], &[u8])
    requires { 2 + length_at bytes.now ≤ length bytes.now }
    ensures string { result.0.now ≡ string_at bytes.now }
    ensures behind { result.1.now ≡ behind_string bytes.now }
{
    let (head, more) = bytes.split_at(LENGTH_BYTES);
    more.split_at(u16::from_le_bytes([head[0], head[1]]) as usize)
}

/// The strings of a tape that are still to be read.
#[derive(Drop)]
pub struct Strings<'a> {
    left: &'a [u8],
    count: usize,
}

impl<'a> Model for Strings<'a> {
    ghost use Rattle.std.specs.Prelude.{◌≡◌, List, ℕ};
    ghost use Rattle.xcp_trace.specs.Tape.{spelt, strings_in};

    ghost Value = { List (List ℕ) };

    ghost view = { λ s. strings_in s.count s.left.now };

    ghost invariant = { λ s. spelt (strings_in s.count s.left.now) ≡ s.left.now };
}

impl<'a> Strings<'a> {
    /// The same strings, to be read once more.
    pub fn again(&self) -> Strings<'a>
        ensures { result ≡ self.now }
    {
        Strings {
            left: self.left,
            count: self.count,
        }
    }

    /// How many strings there are.
    pub(crate) fn len(&self) -> usize
        ensures { result ≡ length self.now }
    {
        self.count
    }

    /// Their bytes, each string behind its length.
    pub(crate) fn bytes(&self) -> &'a [u8]
        ensures { result.now ≡ spelt self.now }
    {
        self.left
    }

    /// The next string, if there is one.
    pub fn next(&mut self) -> Option<&'a [u8]>
        ensures { MatchOption result ((self.old ≡ []) × (self.new ≡ []))
            (λ string. self.old ≡ string.now ∷ self.new) }
    {
        if self.count == 0 {
            return None;
        }
        let (string, left) = split_string(self.left);
        self.left = left;
        self.count -= 1;
        Some(string)
    }
}
