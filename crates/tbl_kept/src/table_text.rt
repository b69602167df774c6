//! The bytes of a table, as they are kept while they are read.

ghost use Rattle.std.specs.Prelude.{◌≡◌, ℕ, ◌+◌, ◌<◌, ◌≤◌, ◌++◌, [], ◌∷◌, length, drop, true};
ghost use Rattle.std.specs.Prelude.{is_some, IfOk, vec_capacity, vec_len};
ghost use Rattle.tbl_kept.specs.Joined.{RiseWithin, behind_joined, ends_joined, goes_on, line_at};
ghost use Rattle.tbl_kept.specs.Joined.{unjoined};
ghost use Rattle.tbl_kept.specs.TableText.{block_of, no_text, text_closed, text_ended};
ghost use Rattle.tbl_kept.specs.TableText.{StaysBehind, asked_from, ends_of, line_first};
ghost use Rattle.tbl_kept.specs.TableText.{text_joined, text_whole};

use std::alloc::{AllocError, Global};
use std::marker::Model;

/// Where a line of the data goes on in the next.
#[derive(Clone, Copy)]
pub struct Joint {
    /// The place in the block.
    pub place: usize,
    /// The number of the line that ends there.
    pub line: u32,
}

/// The bytes of a table as they were read, but where lines of the data go on: there they are
/// joined. All its memory is reserved as it is made.
#[derive(Drop)]
pub struct TableText {
    block: Vec<u8>,
    joints: Vec<Joint>,
    /// Where the line that is begun starts.
    line_start: usize,
    /// Where the first of the lines starts that are joined to it, and how many joints were before.
    open_start: usize,
    open_joints: usize,
    /// The place that was asked last in the line that goes on, and the first joint behind it:
    /// places that are asked in order take one pass over the joints.
    asked_place: usize,
    asked_joint: usize,
    text_room: usize,
}

impl Model for TableText {
    ghost use Rattle.tbl_kept.specs.TableText.{KeptText, kept_by, IsSound};

    ghost Value = { KeptText };

    ghost view = { kept_by };

    ghost invariant = { IsSound };
}

/// The bytes of a `.TE` line and the byte behind it.
const ENDING: usize = 4;

impl TableText {
    /// No line, with room for so many bytes of complete lines and a `.TE` line behind them.
    pub fn new(alloc: Global, room: u32) -> Result<TableText, AllocError>
        ensures { IfOk result (λ t. t ≡ no_text room) }
    {
        let text_room = room as usize;
        Ok(TableText {
            block: Vec::with_capacity(alloc, text_room + ENDING)?,
            joints: Vec::with_capacity(alloc, text_room / 2 + 1)?,
            line_start: 0,
            open_start: 0,
            open_joints: 0,
            asked_place: 0,
            asked_joint: 0,
            text_room,
        })
    }

    /// No line.
    pub fn clear(&mut self)
        ensures { self.new ≡ no_text self.old.text_room }
    {
        self.block.clear();
        self.joints.clear();
        self.line_start = 0;
        self.open_start = 0;
        self.open_joints = 0;
        self.asked_place = 0;
        self.asked_joint = 0;
    }

    /// A byte of the line that is begun, but its newline.
    #[inline(always)]
    pub fn push(&mut self, byte: u8)
        requires { length (self.old.read ++ self.old.line) < self.old.text_room + 4 }
        ensures { self.new ≡ record self.old { line = self.old.line ++ byte ∷ [] } }
    {
        self.block.push_reserved(byte);
    }

    /// Bytes of the line that is begun, but its newline.
    #[inline(always)]
    pub fn push_all(&mut self, bytes: &[u8])
        requires { length (self.old.read ++ self.old.line) + length bytes.now
            ≤ self.old.text_room + 4 }
        ensures { self.new ≡ record self.old { line = self.old.line ++ bytes.now } }
    {
        append(&mut self.block, bytes);
    }

    /// The newline behind a line that is done.
    pub fn end_line(&mut self)
        requires { length (self.old.read ++ self.old.line) < self.old.text_room }
        ensures { self.new ≡ text_ended self.old }
    {
        self.block.push_reserved(b'\n');
        self.line_start = self.block.len();
        self.open_start = self.line_start;
        self.open_joints = self.joints.len();
        self.asked_place = 0;
        self.asked_joint = self.open_joints;
    }

    /// The newline behind a line that goes on: it vanishes, as does the backslash.
    pub fn join(&mut self, number: u32)
        requires room { length (self.old.read ++ self.old.line) < self.old.text_room }
        requires goes_on { goes_on self.old.line ≡ true }
        ensures { self.new ≡ text_joined number self.old }
    {
        let _ = self.block.pop();
        self.line_start = self.block.len();
        self.joints.push_reserved(Joint {
            place: self.line_start,
            line: number,
        });
    }

    /// A line that goes on is done.
    pub fn close(&mut self)
        ensures { self.new ≡ text_closed self.old }
    {
        self.open_start = self.line_start;
        self.open_joints = self.joints.len();
        self.asked_place = 0;
        self.asked_joint = self.open_joints;
    }

    /// All bytes are of complete lines.
    pub fn complete(&mut self)
        ensures { self.new ≡ text_whole self.old }
    {
        self.line_start = self.block.len();
        self.open_start = self.line_start;
        self.open_joints = self.joints.len();
        self.asked_place = 0;
        self.asked_joint = self.open_joints;
    }

    /// How many bytes were read.
    #[inline(always)]
    pub fn len(&self) -> usize
        ensures { result ≡ length (self.now.read ++ self.now.line) }
    {
        self.block.len() + 2 * self.joints.len()
    }

    /// The line that is begun.
    #[inline(always)]
    pub fn line(&self) -> &[u8]
        ensures { result.now ≡ self.now.line }
    {
        &self.block.as_slice()[self.line_start..]
    }

    /// The line that is begun, behind those that are joined to it.
    pub fn joined_line(&self) -> &[u8]
        ensures { result.now ≡ behind_joined self.now.pending self.now.line }
    {
        &self.block.as_slice()[self.open_start..]
    }

    /// The line that goes on, as far as it is joined.
    pub fn open_line(&self) -> &[u8]
        ensures { result.now ≡ behind_joined self.now.pending [] }
    {
        &self.block.as_slice()[self.open_start..self.line_start]
    }

    /// Whether a line goes on.
    pub fn is_open(&self) -> bool
        ensures { result ≡ is_some self.now.pending }
    {
        self.open_joints < self.joints.len()
    }

    /// The line of the input on which a byte of the joined line stands, the last of which has this
    /// number. Places that are asked in order take one pass over the joints.
    pub fn line_at(&mut self, place: usize, number: u32) -> u32
        ensures value { result ≡ line_at (ends_joined self.old.pending) place number }
        ensures same { self.new ≡ self.old }
    {
        let from = asked_from(place, self.asked_place, self.open_joints, self.asked_joint);
        let at = joint_behind(self.joints.as_slice(), self.open_start, from, place);
        self.asked_place = place;
        self.asked_joint = at;
        line_of(self.joints.as_slice(), at, number)
    }

    /// All bytes, lines of the data joined.
    pub fn block(&self) -> &[u8]
        ensures { result.now ≡ block_of self.now }
    {
        self.block.as_slice()
    }

    /// Where lines of the data go on.
    pub fn joints(&self) -> &[Joint]
        ensures value { result.now ≡ self.now.joints }
        ensures rise { RiseWithin (length (block_of self.now)) 0 self.now.joints }
        ensures read { unjoined 0 (block_of self.now) self.now.joints
            ≡ self.now.read ++ self.now.line }
    {
        self.joints.as_slice()
    }

    /// Where the line that is begun starts in the block.
    pub fn line_start(&self) -> usize
        ensures line { drop result (block_of self.now) ≡ self.now.line }
        ensures within { result ≤ length (block_of self.now) }
        ensures value { result ≡ length (self.now.settled ++ behind_joined self.now.pending []) }
    {
        self.line_start
    }

    /// Where the first of the lines starts that are joined to it.
    pub fn open_start(&self) -> usize
        ensures { result ≡ length self.now.settled }
    {
        self.open_start
    }
}

/// Adds bytes, for which there is room.
#[inline(always)]
fn append(block: &mut Vec<u8>, bytes: &[u8])
    requires { vec_len block.old + length bytes.now ≤ vec_capacity block.old }
    ensures items { block.new.items ≡ block.old.items ++ bytes.now }
    ensures capacity { vec_capacity block.old ≤ vec_capacity block.new }
{
    block.extend_from_slice(bytes).unwrap();
}

/// From which joint on a place is looked for: from the one that was asked last, if it isn't before
/// the place that was asked then.
fn asked_from(place: usize, asked_place: usize, open_joints: usize, asked_joint: usize) -> usize
    ensures { result ≡ asked_from place asked_place open_joints asked_joint }
{
    if place < asked_place {
        open_joints
    } else {
        asked_joint
    }
}

/// The first joint behind a place of the line that begins there, from a joint on.
fn joint_behind(joints: &[Joint], start: usize, from: usize, place: usize) -> usize
    requires { from ≤ length joints.now }
    ensures within { result ≤ length joints.now }
    ensures passed { StaysBehind start place (drop from joints.now) (drop result joints.now) }
    ensures first { (number : ℕ) → line_at (ends_of start (drop result joints.now)) place number
        ≡ line_first (drop result joints.now) number }
{
    for at in from..joints.len() {
        if place < joints[at].place.saturating_sub(start) {
            return at;
        }
    }
    joints.len()
}

/// The number of the line that ends at a joint, if there is one, else this one.
fn line_of(joints: &[Joint], at: usize, number: u32) -> u32
    ensures { result ≡ line_first (drop at joints.now) number }
{
    match joints.get(at) {
        Some(joint) => joint.line,
        None => number,
    }
}
