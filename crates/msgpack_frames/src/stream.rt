//! Frame groups out of a stream that comes in pieces.

ghost use Rattle.std.specs.Prelude.{◌≡◌, ◌-◌, ◌≤◌, ◌++◌, ◌∷◌, ◌⊎◌, [], List, ℕ, length, take, drop, IfOk, IfErr, IfSome, IfNone, OnOk, OnErr, IsNone, ◌↔◌, None, Some, Err};
ghost use Rattle.msgpack_frames.specs.Groups.{Group, Advances, IsReading};

use crate::error::FrameError;
use crate::group::{Frames, Stop, group_of};
use std::alloc::{AllocError, Global};
use std::collections::VecDeque;
use std::marker::Model;

/// Adds the groups at the front of the bytes. Answers how many bytes they take, and why there is no more.
fn split(
    alloc: Global,
    ready: &mut VecDeque<Frames>,
    bytes: &[u8],
) -> Result<(usize, Option<FrameError>), AllocError>
    ensures within { IfOk result (λ x. x.0 ≤ length bytes.now) }
    ensures advances { IfOk result (λ x. Advances bytes.now ready.old.items ready.new.items (drop x.0 bytes.now) x.1) }
    ensures refused { IfOk result (λ x. x.1 ≡ Some FrameError.OutOfMemory → ⊥) }
    ensures err { OnErr result (take (length ready.old.items) ready.new.items ≡ ready.old.items) }
{
    let mut rest = bytes;
    'groups: loop {
        match group_of(alloc, rest) {
            Ok((group, after)) => {
                ready.push_back(group)?;
                rest = after;
            }
            Err(Stop::At(why)) => return Ok((bytes.len() - rest.len(), why)),
            Err(Stop::Memory) => return Err(AllocError),
        }
    }
}

/// Takes the bytes before `start` away.
fn keep_from(rest: &mut Vec<u8>, start: usize) -> Result<(), AllocError>
    requires { start ≤ length rest.old.items }
    ensures ok { OnOk result (rest.new.items ≡ drop start rest.old.items) }
    ensures err { OnErr result (rest.new.items ≡ rest.old.items) }
{
    if start > 0 {
        let kept = Vec::from_slice(*rest.allocator(), &rest[start..])?;
        *rest = kept;
    }
    Ok(())
}

/// Adds the groups that are whole once the piece is there, and keeps the rest.
fn advance(
    alloc: Global,
    ready: &mut VecDeque<Frames>,
    rest: &mut Vec<u8>,
    piece: &[u8],
) -> Result<Option<FrameError>, AllocError>
    ensures advances { IfOk result (λ why. Advances (rest.old.items ++ piece.now) ready.old.items ready.new.items rest.new.items why) }
    ensures refused { IfOk result (λ why. why ≡ Some FrameError.OutOfMemory → ⊥) }
    ensures ready { OnErr result (ready.new.items ≡ ready.old.items) }
    ensures rest { OnErr result (rest.new.items ≡ rest.old.items) }
{
    let had = ready.len();
    let kept = rest.len();
    rest.extend_from_slice(piece)?;
    match advance_over(alloc, ready, rest) {
        Ok(why) => Ok(why),
        Err(e) => {
            ready.truncate(had);
            rest.truncate(kept);
            Err(e)
        }
    }
}

fn advance_over(
    alloc: Global,
    ready: &mut VecDeque<Frames>,
    bytes: &mut Vec<u8>,
) -> Result<Option<FrameError>, AllocError>
    ensures advances { IfOk result (λ why. Advances bytes.old.items ready.old.items ready.new.items bytes.new.items why) }
    ensures refused { IfOk result (λ why. why ≡ Some FrameError.OutOfMemory → ⊥) }
    ensures ready { OnErr result (take (length ready.old.items) ready.new.items ≡ ready.old.items) }
    ensures bytes { OnErr result (bytes.new.items ≡ bytes.old.items) }
{
    let (taken, why) = split(alloc, ready, bytes)?;
    keep_from(bytes, taken)?;
    Ok(why)
}

/// A stream of frame groups, fed piece by piece: how it is cut into pieces makes no difference.
///
/// A group is its number of frames, from 1 to 17, the length of each, and the frames; the numbers are 8
/// bytes, the lowest first. The first frame has at most 2^24 bytes, and the others at most 2^27.
#[derive(Drop)]
pub struct FrameReader {
    ready: VecDeque<Frames>,
    rest: Vec<u8>,
    fault: Option<FrameError>,
}

impl Model for FrameReader {
    ghost use Rattle.msgpack_frames.specs.Groups.{Progress};

    ghost Value = { Progress };

    ghost view = { λ r. record { ready = r.ready.items; rest = r.rest.items; fault = r.fault } };
}

impl FrameReader {
    /// A reader of a stream of which nothing has come.
    pub fn new(alloc: Global) -> Self
        ensures { IsReading [] [] result }
    {
        FrameReader {
            ready: VecDeque::new(alloc),
            rest: Vec::new(alloc),
            fault: None,
        }
    }

    /// Takes the next piece of the stream. Whole groups are then ready to be taken.
    ///
    /// # Errors
    /// `TooMany` and `TooLong` are answered again by every later call; the groups before stay ready.
    /// After `OutOfMemory` the reader is as before.
    pub fn feed(&mut self, piece: &[u8]) -> Result<(), FrameError>
        // It is the reader of what was fed before and the piece, however that was cut.
        ensures reading { (stream : List ℕ) (taken : List Group) → IsReading stream taken self.old
            → (result ≡ Err FrameError.OutOfMemory → ⊥) → IsReading (stream ++ piece.now) taken self.new }
        ensures ok { OnOk result (self.new.fault ≡ None) }
        ensures refused { IfErr result (λ e. (e ≡ FrameError.OutOfMemory) ⊎ (self.new.fault ≡ Some e)) }
        ensures again { IfSome self.old.fault (λ e. (result ≡ Err e) × (self.new ≡ self.old)) }
        ensures memory { result ≡ Err FrameError.OutOfMemory → self.new ≡ self.old }
    {
        if let Some(fault) = self.fault {
            return Err(fault);
        }
        let alloc = *self.rest.allocator();
        let why = match advance(alloc, &mut self.ready, &mut self.rest, piece) {
            Ok(why) => why,
            Err(_) => return Err(FrameError::OutOfMemory),
        };
        self.fault = why;
        match why {
            None => Ok(()),
            Some(fault) => Err(fault),
        }
    }

    /// The first group that was not taken yet, or `None` where no whole group is left. Takes no memory.
    pub fn take(&mut self) -> Option<Frames>
        ensures none { IsNone result ↔ (self.old.ready ≡ []) }
        ensures some { IfSome result (λ group. self.old.ready ≡ group ∷ self.new.ready) }
        ensures unchanged { IfNone result (self.new ≡ self.old) }
        ensures same { (self.new.rest ≡ self.old.rest) × (self.new.fault ≡ self.old.fault) }
        ensures reading { (stream : List ℕ) (taken : List Group) → IsReading stream taken self.old
            → IfSome result (λ group. IsReading stream (taken ++ group ∷ []) self.new) }
    {
        self.ready.pop_front()
    }
}
