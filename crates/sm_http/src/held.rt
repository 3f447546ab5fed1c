// Bytes that were read and not used yet.
ghost use Rattle.std.specs.Prelude.{◌≡◌, ◌<◌, ◌≤◌, ◌+◌, ◌-◌, [], length, take, drop, slice_range, IfOk, IsErr, IsErrOf, OnOk};
ghost use Rattle.sm_io.specs.Causes.{HasCause};
ghost use Rattle.sm_http.specs.Limits.{head_limit};
ghost use Rattle.sm_http.specs.steps.Holding.{Fills, FillsRoom};

use crate::limits::{HEAD_LIMIT, PIECE_LIMIT};
use sm_io::{Failed, Source};
use std::alloc::{AllocError, Global};
use std::marker::Model;

/// Bytes that were read and not used yet: at most 16,384. Contracts see them as a list. Their room grows by 4,096 bytes where a
/// read finds it full, and is kept.
#[derive(Drop)]
pub struct Held {
    room: Vec<u8>,
    // The bytes held stand in the room from here ..
    at: usize,
    // .. up to here.
    end: usize,
    pub ghost ordered: { at ≤ end },
    pub ghost inside: { end ≤ length room.items },
    pub ghost few: { length room.items ≤ head_limit },
}

impl Model for Held {
    ghost use Rattle.std.specs.Prelude.{List, ℕ, slice_range};

    ghost Value = { List ℕ };

    ghost view = { λ a. slice_range a.room.items a.at a.end };
}

// Moves some of the bytes to the start, where they don't stand there.
fn move_to_start(bytes: &mut [u8], at: usize, end: usize)
    requires ordered { at ≤ end }
    requires inside { end ≤ length bytes.old }
    ensures bytes { take (end - at) bytes.new ≡ slice_range bytes.old at end }
    ensures len { length bytes.new ≡ length bytes.old }
{
    if at > 0 {
        bytes.copy_within(at..end, 0);
    }
}

// Makes the room longer where all of it is used.
fn widen(room: &mut Vec<u8>, used: usize) -> Result<(), AllocError>
    requires used { used ≤ length room.old.items }
    requires less { used < head_limit }
    requires few { length room.old.items ≤ head_limit }
    ensures kept { take used room.new.items ≡ take used room.old.items }
    ensures room { OnOk result (used < length room.new.items) }
    ensures inside { used ≤ length room.new.items }
    ensures still_few { length room.new.items ≤ head_limit }
{
    if used < room.len() {
        return Ok(());
    }
    room.resize((used + PIECE_LIMIT).min(HEAD_LIMIT), 0)
}

// Takes bytes from the source to the room behind those that are used; none only at the end.
fn take_behind<S: Source>(source: &mut S, room: &mut [u8], used: usize) -> Result<usize, Failed>
    requires { used < length room.old }
    ensures bytes { FillsRoom (S.left source.old) (S.left source.new) used room.old room.new result }
    ensures bound { IfOk result (λ count. used + count ≤ length room.new) }
    ensures len { length room.new ≡ length room.old }
    ensures later { S.faults source.old ≤ S.faults source.new }
    ensures cause { HasCause (IsErr result) (S.faults source.old) (S.faults source.new) }
{
    let end = room.len().min(used + PIECE_LIMIT);
    source.take(&mut room[used..end])
}

/// Why no bytes came.
pub enum Unfilled {
    /// The source failed.
    Failed,
    /// Memory ran out.
    NoMemory,
}

impl Held {
    /// Holds nothing. No memory: the first read takes it.
    pub fn new(alloc: Global) -> Self
        ensures { result ≡ [] }
    {
        Held {
            room: Vec::new(alloc),
            at: 0,
            end: 0,
        }
    }

    /// How many bytes are held. No memory.
    pub fn len(&self) -> u64
        ensures count { result ≡ length self.now }
        ensures few { result ≤ head_limit }
    {
        (self.end - self.at) as u64
    }

    /// The bytes.
    pub(crate) fn as_slice(&self) -> &[u8]
        ensures bytes { result.now ≡ self.now }
        ensures few { length self.now ≤ head_limit }
    {
        &self.room[self.at..self.end]
    }

    /// Uses so many of the bytes.
    pub(crate) fn advance(&mut self, count: usize)
        requires { count ≤ length self.old }
        ensures { self.new ≡ drop count self.old }
    {
        self.at += count;
    }

    /// Takes more bytes from the source, behind those held; none only at the end.
    pub(crate) fn fill<S: Source>(&mut self, source: &mut S) -> Result<usize, Unfilled>
        requires room { length self.old < head_limit }
        ensures bytes { Fills (S.left source.old) (S.left source.new) self.old self.new result }
        ensures few { length self.new ≤ head_limit }
        ensures later { S.faults source.old ≤ S.faults source.new }
        ensures cause { HasCause (IsErrOf result Unfilled.Failed) (S.faults source.old) (S.faults source.new) }
    {
        move_to_start(self.room.as_mut_slice(), self.at, self.end);
        self.end -= self.at;
        self.at = 0;
        match widen(&mut self.room, self.end) {
            Ok(()) => {}
            Err(AllocError) => return Err(Unfilled::NoMemory),
        }
        match take_behind(source, self.room.as_mut_slice(), self.end) {
            Ok(count) => {
                self.end += count;
                Ok(count)
            }
            Err(Failed) => Err(Unfilled::Failed),
        }
    }
}
