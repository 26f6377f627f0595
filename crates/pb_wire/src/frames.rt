// The frames of a file: payloads, each behind a prefix that tells its length.
ghost use Rattle.std.specs.Prelude.{◌≡◌, ◌+◌, ◌^◌, ◌<◌, ◌≤◌, ℕ, List, [], length, take, drop, slice_get};
ghost use Rattle.std.specs.Prelude.{Ok, Some, IfOk, IfSome};
ghost use Rattle.pb_schema.specs.Frames.{frames_of};
ghost use Rattle.pb_wire.specs.FrameAnswers.{answer_of, Answers};
ghost use Rattle.pb_wire.specs.FramePlaces.{payload_in, payloads_at, Inside, AreFrames, frame_in, placed_in};

use crate::frame_fault::FrameFault;
use crate::frame_place::FramePlace;
use crate::tag::{LENGTH_BYTES, LENGTH_END};
use crate::varint::find_varint;
use std::alloc::Global;
use std::marker::Model;

/// How many frames a file may have.
const MOST_FRAMES: usize = 1 << 20;

/// The bytes of a file, and where its frames begin in them. Contracts see the list of the payloads.
///
/// The place of a payload follows from that of its frame, by reading the prefix once more. So a frame takes 8 bytes:
/// most prefixes have one byte, and to read it costs less than to fetch what would be stored in its place.
#[derive(Debug, Drop)]
pub struct Frames {
    bytes: Vec<u8>,
    starts: Vec<usize>,
}

impl Model for Frames {
    ghost use Rattle.std.specs.Prelude.{ℕ, List, ◌<◌, ◌^◌, length};
    ghost use Rattle.pb_wire.specs.FramePlaces.{payloads_at, AreFrames};

    ghost Value = { List (List ℕ) };

    ghost view = { λ f. payloads_at f.bytes.items f.starts.items };

    ghost invariant = { λ f. AreFrames f.bytes.items f.starts.items × (length f.starts.items < 2 ^ 32) };
}

impl Frames {
    /// How many frames there are.
    pub fn count(&self) -> u32
        ensures { result ≡ length self.now }
    {
        self.starts.len() as u32
    }

    /// The payload of the frame of this index, where it lies.
    #[inline]
    pub fn payload(&self, index: u32) -> &[u8]
        requires { index < length self.now }
        ensures { slice_get self.now index ≡ Some result.now }
    {
        let place = place_of(&self.bytes, &self.starts, index as usize);
        &self.bytes[place.start..place.end]
    }

    /// The bytes of the file from the payload of this index on, and how many of them are the payload's: what lies
    /// behind it are the frames that follow, up to the end of the file. Where payloads are short, a reader that looks a
    /// few bytes ahead is faster over these.
    #[inline]
    pub fn payload_and_behind(&self, index: u32) -> (&[u8], usize)
        requires { index < length self.now }
        ensures payload { slice_get self.now index ≡ Some (take result.1 result.0.now) }
        ensures inside { result.1 ≤ length result.0.now }
        ensures behind { frames_of (drop result.1 result.0.now) ≡ Ok (drop (index + 1) self.now) }
    {
        let place = place_of(&self.bytes, &self.starts, index as usize);
        (&self.bytes[place.start..], place.end - place.start)
    }
}

/// Cuts the bytes of a file into frames (the guide on techniques, "Streaming Multiple Messages"). It goes over them
/// once, and keeps them.
///
/// The fault is `FrameCut` at the first place where no whole frame can be read, counted in whole frames in front, or
/// `TooManyFrames`, whichever comes first; or `NoMemory`.
pub fn read_frames(alloc: Global, bytes: Vec<u8>) -> Result<Frames, FrameFault>
    ensures exact { Answers (λ frames. frames) result (answer_of bytes.items) }
    ensures few { IfOk result (λ frames. length frames ≤ 2 ^ 20) }
{
    let starts = find_frames(alloc, &bytes)?;
    Ok(Frames { bytes, starts })
}

// Where the frames begin.
fn find_frames(alloc: Global, bytes: &[u8]) -> Result<Vec<usize>, FrameFault>
    ensures exact { Answers (λ starts. payloads_at bytes.now starts.items) result (answer_of bytes.now) }
    ensures frames { IfOk result (λ starts. AreFrames bytes.now starts.items) }
    ensures few { IfOk result (λ starts. length starts.items ≤ 2 ^ 20) }
{
    let mut starts = with_room(alloc, bytes.len().min(MOST_FRAMES));
    let mut at = 0;
    while at < bytes.len() {
        if starts.len() >= MOST_FRAMES {
            return Err(FrameFault::TooManyFrames);
        }
        let Some(place) = find_frame(bytes, at) else {
            return Err(FrameFault::FrameCut {
                index: starts.len() as u32,
            });
        };
        if starts.push(at).is_err() {
            return Err(FrameFault::NoMemory);
        }
        at = place.end;
    }
    Ok(starts)
}

// No starts, with room for so many where it can be had. Room that isn't written is address space alone.
fn with_room(alloc: Global, most: usize) -> Vec<usize>
    ensures { result.items ≡ [] }
{
    match Vec::with_capacity(alloc, most) {
        Ok(room) => room,
        Err(_) => Vec::new(alloc),
    }
}

// Where the payload of the frame at `start` lies; none where no whole frame stands there.
#[inline]
fn find_frame(bytes: &[u8], start: usize) -> Option<FramePlace>
    requires { start ≤ length bytes.now }
    ensures found { placed_in bytes.now result ≡ frame_in bytes.now start }
    ensures inside { IfSome result (λ place. Inside bytes.now place × (start < place.end)) }
{
    let (len, at) = find_varint(bytes, start, LENGTH_BYTES)?;
    if len >= LENGTH_END {
        return None;
    }
    let len = len as usize;
    if bytes.len() - at < len {
        return None;
    }
    Some(FramePlace {
        start: at,
        end: at + len,
    })
}

// Where the payload of the frame of this index lies; behind it the frames follow that start behind it.
#[inline]
fn place_of(bytes: &[u8], starts: &[usize], index: usize) -> FramePlace
    requires index { index < length starts.now }
    requires frames { AreFrames bytes.now starts.now }
    ensures behind { frames_of (drop result.end bytes.now) ≡ Ok (drop (index + 1) (payloads_at bytes.now starts.now)) }
    ensures found { slice_get (payloads_at bytes.now starts.now) index ≡ Some (payload_in bytes.now result) }
    ensures inside { Inside bytes.now result }
{
    let Some(place) = find_frame(bytes, starts[index]) else {
        unreachable!()
    };
    place
}
