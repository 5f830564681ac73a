//! One frame group at the front of some bytes.

ghost use Rattle.std.specs.Prelude.{◌≡◌, ◌==◌, ◌<◌, ◌≤◌, ◌++◌, ◌↔◌, map, drop, length, option_map, slice_get, IsTrue, IfOk, IfErr, Some, None, Ok};
ghost use Rattle.msgpack_frames.specs.Groups.{IsGroup, group_bytes, Stops, Takes, number_at, count_at, len_at, lens_at, total, cut, frames_at, group_at, frame_limit};
ghost use Rattle.msgpack_frames.specs.declared.group.Stop.TheVariants.{Memory};

use crate::error::FrameError;
use std::alloc::{AllocError, AllocFailed, Global};
use std::marker::Model;

const MAX_FRAMES: u64 = 17;

/// Why no group was read: no memory, a refusal, or, for `At(None)`, more bytes are wanted.
#[derive(Drop)]
pub enum Stop {
    Memory,
    At(Option<FrameError>),
}

impl From<AllocError> for Stop {
    ghost from_gives = { λ _ e. e ≡ Memory };

    fn from(_e: AllocError) -> Stop {
        Stop::Memory
    }
}

impl<T: Drop> From<AllocFailed<T>> for Stop {
    ghost from_gives = { λ _ e. e ≡ Memory };

    fn from(_e: AllocFailed<T>) -> Stop {
        Stop::Memory
    }
}

fn number_of(bytes: &[u8]) -> Result<(u64, &[u8]), Stop>
    ensures { Takes (λ x. (x.0, x.1.now)) result (number_at bytes.now) }
{
    if bytes.len() < 8 {
        return Err(Stop::At(None));
    }
    let (front, rest) = bytes.split_at(8);
    let number = u64::from_le_bytes([
        front[0], front[1], front[2], front[3], front[4], front[5], front[6], front[7],
    ]);
    Ok((number, rest))
}

#[tactic(auto, unfolding(crate::specs::Groups::count_at))]
fn count_of(bytes: &[u8]) -> Result<(u64, &[u8]), Stop>
    ensures { Takes (λ x. (x.0, x.1.now)) result (count_at bytes.now) }
{
    let (count, rest) = number_of(bytes)?;
    if count == 0 || count > MAX_FRAMES {
        return Err(Stop::At(Some(FrameError::TooMany { count })));
    }
    Ok((count, rest))
}

/// How long the frame at this place may be.
fn limit_at(place: u64) -> u64
    ensures { result ≡ frame_limit place }
{
    if place == 0 { 1 << 24 } else { 1 << 27 }
}

#[tactic(auto, unfolding(crate::specs::Groups::len_at))]
fn len_of(place: u64, bytes: &[u8]) -> Result<(u64, &[u8]), Stop>
    ensures { Takes (λ x. (x.0, x.1.now)) result (len_at place bytes.now) }
{
    let (len, rest) = number_of(bytes)?;
    if len > limit_at(place) {
        return Err(Stop::At(Some(FrameError::TooLong { len })));
    }
    Ok((len, rest))
}

fn lens_of(alloc: Global, count: u64, bytes: &[u8]) -> Result<(Vec<u64>, &[u8]), Stop>
    ensures { Takes (λ x. (x.0.items, x.1.now)) result (lens_at 0 count bytes.now) }
{
    let mut lens = Vec::new(alloc);
    let mut rest = bytes;
    'lens: for place in 0..count {
        let (len, after) = len_of(place, rest)?;
        lens.push(len)?;
        rest = after;
    }
    Ok((lens, rest))
}

/// Whether so many bytes have room for frames of these lengths.
fn has_room(lens: &[u64], room: usize) -> bool
    ensures { IsTrue result ↔ (total lens.now ≤ room) }
{
    let mut left = room as u64;
    for len in lens {
        if *len > left {
            return false;
        }
        left -= *len;
    }
    true
}

fn frames_of(alloc: Global, lens: &[u64], bytes: &[u8]) -> Result<Vec<Vec<u8>>, AllocError>
    requires { total lens.now ≤ length bytes.now }
    ensures { IfOk result (λ v. map (λ f. f.items) v.items ≡ cut lens.now bytes.now) }
{
    let mut frames = Vec::new(alloc);
    let mut rest = bytes;
    for len in lens {
        let (frame, after) = rest.split_at(*len as usize);
        frames.push(Vec::from_slice(alloc, frame)?)?;
        rest = after;
    }
    Ok(frames)
}

/// The frames of a group, in order.
#[derive(Drop)]
pub struct Frames {
    frames: Vec<Vec<u8>>,
}

impl Model for Frames {
    ghost use Rattle.std.specs.Prelude.{List, ℕ, map};

    ghost Value = { List (List ℕ) };

    ghost view = { λ g. map (λ f. f.items) g.frames.items };
}

impl Frames {
    /// The group of these frames.
    pub fn from_vec(frames: Vec<Vec<u8>>) -> Self
        ensures { result ≡ map (λ f. f.items) frames.items }
    {
        Frames { frames }
    }

    /// The frames, taken out.
    pub fn into_vec(self) -> Vec<Vec<u8>>
        ensures { map (λ f. f.items) result.items ≡ self }
    {
        self.frames
    }

    /// How many frames there are.
    pub fn len(&self) -> usize
        ensures { result ≡ length self.now }
    {
        self.frames.len()
    }

    /// Whether there is no frame.
    pub fn is_empty(&self) -> bool
        ensures { result ≡ (length self.now == 0) }
    {
        self.frames.is_empty()
    }

    /// The frame at this place, from 0, or `None` past the last.
    pub fn get(&self, place: usize) -> Option<&[u8]>
        ensures { option_map (λ f. f.now) result ≡ slice_get self.now place }
    {
        match self.frames.get(place) {
            Some(frame) => Some(frame.as_slice()),
            None => None,
        }
    }
}

#[tactic(auto, unfolding(crate::specs::Groups::group_at))]
fn first_group(alloc: Global, bytes: &[u8]) -> Result<(Frames, &[u8]), Stop>
    ensures { Takes (λ x. (x.0, x.1.now)) result (group_at bytes.now) }
{
    let (count, rest) = count_of(bytes)?;
    let (lens, rest) = lens_of(alloc, count, rest)?;
    let (frames, rest) = body_of(alloc, &lens, rest)?;
    Ok((frames, rest))
}

/// The group at the front of the bytes, and the bytes after it.
pub(crate) fn group_of(alloc: Global, bytes: &[u8]) -> Result<(Frames, &[u8]), Stop>
    ensures parts { IfOk result (λ x. IsGroup x.0 × (bytes.now ≡ group_bytes x.0 ++ x.1.now)) }
    ensures shorter { IfOk result (λ x. length x.1.now < length bytes.now) }
    ensures stops { IfErr result (λ e. Stops e (group_at bytes.now)) }
    ensures refused { IfErr result (λ e. e ≡ Stop.At (Some FrameError.OutOfMemory) → ⊥) }
{
    first_group(alloc, bytes)
}

#[tactic(auto, unfolding(crate::specs::Groups::frames_at))]
fn body_of<'a>(alloc: Global, lens: &[u64], bytes: &'a [u8]) -> Result<(Frames, &'a [u8]), Stop>
    ensures { Takes (λ x. (x.0, x.1.now)) result (frames_at lens.now bytes.now) }
{
    if !has_room(lens, bytes.len()) {
        return Err(Stop::At(None));
    }
    let frames = frames_of(alloc, lens, bytes)?;
    let rest = after_frames(lens, bytes);
    Ok((Frames { frames }, rest))
}

/// The bytes after frames of these lengths.
fn after_frames<'a>(lens: &[u64], bytes: &'a [u8]) -> &'a [u8]
    requires { total lens.now ≤ length bytes.now }
    ensures { result.now ≡ drop (total lens.now) bytes.now }
{
    let mut rest = bytes;
    for len in lens {
        let (_, after) = rest.split_at(*len as usize);
        rest = after;
    }
    rest
}
