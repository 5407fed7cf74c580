//! The frames of a host in one region, the last one first. Nothing is allocated once a stack is made.
//!
//! Promises:
//!
//! - `FrameStack::new`: no frame (no name). It fails only with `NoMemory`, and no other call takes memory.
//! - `push`: false exactly where there are nine frames (`full`), and then nothing changes (`same`); else the frame is
//!   on top of the others (`pushed`).
//! - `pop`: the top frame, with the others left (`popped`); none exactly where there is none (`none`), and then nothing
//!   changes (`same`).
//! - `slot`: a slot of the frame that has so many frames below it (no name).
//! - `set_slot`, `set_mark`: the top frame has another number in a slot, or another entry, callback and count, and
//!   nothing else changes (`after`); there are as many frames as before (`len`).
//! - `mark`: the entry, the callback and the count of the top frame (`entry`, `callback`, `count`).
//! - `depth`: how many frames there are (`count`), at most nine (`few`).
//! - `region`: the region, of 2,016 bytes (`len`), where the bytes of each frame are that frame's fields (`frames`).
//!
//! `slot`, `set_slot`, `set_mark` and `mark` need a frame (`frame`), and a slot from 0 to 15 (`slot`).
#![tactic(auto)]

ghost use Rattle.std.specs.Prelude.{◌≡◌, ℕ, ◌+◌, ◌*◌, ◌<◌, ◌≤◌, ◌↔◌, [], ◌∷◌, length, slice_get, slice_index, false, IfOk, IfSome, IfNone};
ghost use Rattle.std.specs.Prelude.{Some};
ghost use Rattle.std.specs.Bool.{OnTrue, OnFalse};
ghost use Rattle.ebc_width.specs.Bytes.{little_endian};
ghost use Rattle.frame_stack.specs.declared.Frame.{Frame};
ghost use Rattle.frame_stack.specs.Words.{SameApart};
ghost use Rattle.frame_stack.specs.Frames.{frame_at};

mod words;

pub use ebc_base::NoMemory;
use raw_region::Region;
use std::alloc::Global;
use std::marker::Model;
use words::{read_words, write_words};

/// The most frames.
pub const FRAMES: usize = 9;

/// How many bytes a frame has.
pub const FRAME_BYTES: usize = 224;

const REGION_BYTES: usize = 2016;

// Where the fields of a frame lie from its first byte on; its registers come first.
const IP: usize = 64;

const FLAGS: usize = 72;

const ENTRY: usize = 80;

const CALLBACK: usize = 84;

const FUNC: usize = 88;

const COUNT: usize = 92;

const SLOTS: usize = 96;

/// What a host keeps for each function that it entered, until that function is left.
#[derive(Clone, Copy)]
pub struct Frame {
    /// The registers R0 to R7 as they were.
    pub regs: [u64; 8],
    /// The address at which the machine stood.
    pub ip: u64,
    /// The flags as they were.
    pub flags: u64,
    /// The entry of the script that answers the native call under way in the function.
    pub entry: u32,
    /// How many callbacks of that entry were entered.
    pub callback: u32,
    /// The function that was entered.
    pub func: u32,
    /// How many of the slots hold an argument of that call.
    pub count: u32,
    /// The argument slots of that call, the first one first.
    pub slots: [u64; 16],
}

/// The frames of a host, at most nine, which contracts see as their list, the last one first. Frame i
/// from the bottom begins at byte 224 * i of a region of 2,016 bytes.
#[derive(Drop)]
pub struct FrameStack {
    region: Region,
    depth: usize,
}

impl Model for FrameStack {
    ghost use Rattle.std.specs.Prelude.{◌≡◌, ◌≤◌, List, length, slice_index};
    ghost use Rattle.frame_stack.specs.declared.Frame.{Frame};
    ghost use Rattle.frame_stack.specs.declared.TheConstants.{FRAMES, REGION_BYTES};
    ghost use Rattle.frame_stack.specs.Frames.{frames};

    ghost Value = { List Frame };

    ghost view = { λ s. frames (slice_index s.region) s.depth };

    ghost invariant = { λ s. (length s.region ≡ REGION_BYTES) × (s.depth ≤ FRAMES) };
}

impl FrameStack {
    ghost use Rattle.frame_stack.specs.Frames.{from_bottom, with_slot, with_mark};

    /// No frame, with room for nine. It fails only where there is no memory for them.
    pub fn new(alloc: Global) -> Result<FrameStack, NoMemory>
        ensures { IfOk result (λ s. s ≡ []) }
    {
        let region = Region::new(alloc, REGION_BYTES)?;
        Ok(FrameStack { region, depth: 0 })
    }

    /// Puts a frame on top: false exactly where there are nine, and then nothing changes.
    pub fn push(&mut self, frame: &Frame) -> bool
        ensures full { (result ≡ false) ↔ (length self.old ≡ FRAMES) }
        ensures pushed { OnTrue result (self.new ≡ frame.now ∷ self.old) }
        ensures same { OnFalse result (self.new ≡ self.old) }
    {
        if self.depth == FRAMES {
            return false;
        }
        write_frame(&mut self.region, start_of(self.depth), frame);
        self.depth += 1;
        true
    }

    /// Takes the top frame away, which is the one that was pushed last: none exactly where there is
    /// no frame.
    pub fn pop(&mut self) -> Option<Frame>
        ensures popped { IfSome result (λ f. self.old ≡ f ∷ self.new) }
        ensures none { IfNone result (self.old ≡ []) }
        ensures same { IfNone result (self.new ≡ self.old) }
    {
        if self.depth == 0 {
            return None;
        }
        self.depth -= 1;
        Some(read_frame(&self.region, start_of(self.depth)))
    }

    /// A slot, from 0 to 15, of the frame that has `below` frames below it.
    pub fn slot(&self, below: usize, slot: usize) -> u64
        requires frame { below < length self.now }
        requires slot { slot < 16 }
        ensures { (f : Frame) → from_bottom self.now below ≡ Some f → result ≡ slice_index f.slots slot }
    {
        self.region.load(start_of(below) + SLOTS + 8 * slot, 8)
    }

    /// Puts a number into a slot, from 0 to 15, of the top frame.
    pub fn set_slot(&mut self, slot: usize, value: u64)
        requires frame { 0 < length self.old }
        requires slot { slot < 16 }
        ensures after { self.new ≡ with_slot slot value self.old }
        ensures len { length self.new ≡ length self.old }
    {
        let top = self.top();
        self.region.store(top + SLOTS + 8 * slot, 8, value);
    }

    /// Sets the entry, the callback and the count of the top frame.
    pub fn set_mark(&mut self, entry: u32, callback: u32, count: u32)
        requires { 0 < length self.old }
        ensures after { self.new ≡ with_mark entry callback count self.old }
        ensures len { length self.new ≡ length self.old }
    {
        let top = self.top();
        self.region.store(top + ENTRY, 4, u64::from(entry));
        self.region.store(top + CALLBACK, 4, u64::from(callback));
        self.region.store(top + COUNT, 4, u64::from(count));
    }

    /// The entry, the callback and the count of the top frame.
    pub fn mark(&self) -> (u32, u32, u32)
        requires { 0 < length self.now }
        ensures entry { (f : Frame) → slice_get self.now 0 ≡ Some f → result.0 ≡ f.entry }
        ensures callback { (f : Frame) → slice_get self.now 0 ≡ Some f → result.1 ≡ f.callback }
        ensures count { (f : Frame) → slice_get self.now 0 ≡ Some f → result.2 ≡ f.count }
    {
        let top = self.top();
        (
            load_u32(&self.region, top + ENTRY),
            load_u32(&self.region, top + CALLBACK),
            load_u32(&self.region, top + COUNT),
        )
    }

    /// How many frames there are.
    pub fn depth(&self) -> usize
        ensures count { result ≡ length self.now }
        ensures few { result ≤ FRAMES }
    {
        self.depth
    }

    /// The region that the frames lie in: its bytes from 224 * i on are the fields of frame i from the
    /// bottom.
    pub fn region(&self) -> &Region
        ensures len { length result.now ≡ REGION_BYTES }
        ensures frames { (i : ℕ) (f : Frame) → from_bottom self.now i ≡ Some f → frame_at (slice_index result.now) (FRAME_BYTES * i) ≡ f }
    {
        &self.region
    }

    // Where the top frame begins.
    fn top(&self) -> usize
        requires { 0 < length self.now }
        ensures top { result + FRAME_BYTES ≡ FRAME_BYTES * length self.now }
        ensures within { result + FRAME_BYTES ≤ REGION_BYTES }
    {
        start_of(self.depth - 1)
    }
}

// Where the frame begins that has `below` frames below it.
fn start_of(below: usize) -> usize
    requires { below < FRAMES }
    ensures start { result ≡ FRAME_BYTES * below }
    ensures within { result + FRAME_BYTES ≤ REGION_BYTES }
{
    FRAME_BYTES * below
}

// The number in the four bytes from an offset on.
fn load_u32(region: &Region, offset: usize) -> u32
    requires { offset + 4 ≤ length region.now }
    ensures { result ≡ little_endian (slice_index region.now) offset 4 }
{
    region.load(offset, 4) as u32
}

// The frame that begins at an offset.
#[tactic(auto, unfolding(crate::specs::Frames::frame_at))]
fn read_frame(region: &Region, offset: usize) -> Frame
    requires within { offset + FRAME_BYTES ≤ length region.now }
    requires small { length region.now ≡ REGION_BYTES }
    ensures { result ≡ frame_at (slice_index region.now) offset }
{
    Frame {
        regs: read_words(region, offset),
        ip: region.load(offset + IP, 8),
        flags: region.load(offset + FLAGS, 8),
        entry: load_u32(region, offset + ENTRY),
        callback: load_u32(region, offset + CALLBACK),
        func: load_u32(region, offset + FUNC),
        count: load_u32(region, offset + COUNT),
        slots: read_words(region, offset + SLOTS),
    }
}

// Writes a frame from an offset on.
fn write_frame(region: &mut Region, offset: usize, frame: &Frame)
    requires within { offset + FRAME_BYTES ≤ length region.old }
    requires small { length region.old ≡ REGION_BYTES }
    ensures frame { frame_at (slice_index region.new) offset ≡ frame.now }
    ensures apart { SameApart (slice_index region.old) (slice_index region.new) offset FRAME_BYTES }
    ensures len { length region.new ≡ length region.old }
{
    write_words(region, offset, &frame.regs);
    region.store(offset + IP, 8, frame.ip);
    region.store(offset + FLAGS, 8, frame.flags);
    region.store(offset + ENTRY, 4, u64::from(frame.entry));
    region.store(offset + CALLBACK, 4, u64::from(frame.callback));
    region.store(offset + FUNC, 4, u64::from(frame.func));
    region.store(offset + COUNT, 4, u64::from(frame.count));
    write_words(region, offset + SLOTS, &frame.slots);
}
