//! The messages of a table, and those that are to tell.

ghost use Rattle.std.specs.Prelude.{◌≡◌, ◌+◌, ◌-◌, ◌<◌, ◌≤◌, ◌^◌, [], ◌∷◌, ◌++◌, true, length};
ghost use Rattle.std.specs.Prelude.{map, replicate, slice_range, IfOk};
ghost use Rattle.std.specs.Option.{MatchOption};
ghost use Rattle.tbl_format.specs.Format.{Format, letters_left_out};
ghost use Rattle.tbl_format.specs.KeyCounts.{Counts, IsCount};
ghost use Rattle.tbl_options.specs.Notes.{NotesWithin, cut_note, ignored_message, left_out_note};
ghost use Rattle.tbl_options.specs.Notes.{told_at, told_of_all};
ghost use Rattle.tbl_options.specs.Options.{ignored_options};
ghost use Rattle.tbl_kept.specs.TableNotes.{no_notes};

use std::alloc::{AllocError, Global};
use std::marker::Model;
use tbl_format::key_count::KeyCount;
use tbl_format::left_out::push_left_out;
use tbl_options::notes::{Cause, KeptNote};
use tbl_options::options::push_ignored;

/// The messages of a table, in order. All memory for them is reserved as they are made.
#[derive(Drop)]
pub struct TableNotes {
    notes: Vec<KeptNote>,
    /// Those from one place up to the other are to tell.
    next: usize,
    end: usize,
    /// How many entries of this line that are cut are to tell behind them.
    cut: usize,
    cut_line: u32,
    note_room: usize,
}

impl Model for TableNotes {
    ghost use Rattle.tbl_kept.specs.TableNotes.{KeptNotes, kept_by, IsSound};

    ghost Value = { KeptNotes };

    ghost view = { kept_by };

    ghost invariant = { IsSound };
}

impl TableNotes {
    /// No message, with room for so many.
    pub fn new(alloc: Global, room: usize) -> Result<TableNotes, AllocError>
        ensures { IfOk result (λ n. n ≡ no_notes room) }
    {
        Ok(TableNotes {
            notes: Vec::with_capacity(alloc, room)?,
            next: 0,
            end: 0,
            cut: 0,
            cut_line: 0,
            note_room: room,
        })
    }

    /// No message.
    pub fn clear(&mut self)
        ensures { self.new ≡ no_notes self.old.note_room }
    {
        self.notes.clear();
        self.next = 0;
        self.end = 0;
        self.cut = 0;
    }

    /// One message more.
    pub fn push(&mut self, note: KeptNote)
        requires { length self.old.notes < self.old.note_room }
        ensures { self.new ≡ record self.old { notes = self.old.notes ++ note ∷ [] } }
    {
        self.notes.push_reserved(note);
    }

    /// A message for each option that is ignored, of the options that lie there in a block.
    pub fn push_ignored(&mut self, block: &[u8], from: usize, to: usize, line: u32)
        requires order { from ≤ to }
        requires block { to ≤ length block.now }
        requires small { length block.now < 2 ^ 32 }
        requires room { length self.old.notes + (to - from) ≤ self.old.note_room }
        requires within { NotesWithin (length block.now) self.old.notes }
        requires none { self.old.to_tell ≡ [] }
        ensures told { told_of_all block.now self.new.notes ≡ told_of_all block.now self.old.notes
            ++ map (λ word. told_at line (ignored_message word))
            (ignored_options (slice_range block.now from to)) }
        ensures few { length self.new.notes ≤ length self.old.notes + (to - from) }
        ensures within { NotesWithin (length block.now) self.new.notes }
        ensures none { self.new.to_tell ≡ [] }
        ensures room { self.new.note_room ≡ self.old.note_room }
    {
        self.next = 0;
        self.end = 0;
        self.cut = 0;
        push_ignored(&mut self.notes, block, from, to, line);
    }

    /// A message for each letter that is left out of a line of the format, behind what is counted
    /// of the lines before it.
    pub fn push_left_out(&mut self, count: KeyCount, bytes: &[u8], line: u32)
        requires is { IsCount 0 count }
        requires few { count.columns + length bytes.now < 2 ^ 63 }
        requires room { length self.old.notes + length bytes.now ≤ self.old.note_room }
        ensures { (f : Format) → Counts f count → self.new ≡ record self.old {
          notes
              = self.old.notes ++ map (left_out_note line) (letters_left_out f bytes.now);
        } }
    {
        push_left_out(&mut self.notes, count, bytes, line);
    }

    /// All messages are to tell.
    pub fn tell(&mut self)
        ensures { self.new ≡ record self.old { to_tell = self.old.notes } }
    {
        self.tell_with_cut(0, 0);
    }

    /// All messages are to tell, and then of so many entries that they are cut, on this line.
    pub fn tell_with_cut(&mut self, count: usize, line: u32)
        ensures { self.new ≡ record self.old
            { to_tell = self.old.notes ++ replicate count (cut_note line) } }
    {
        self.next = 0;
        self.end = self.notes.len();
        self.cut = count;
        self.cut_line = line;
    }

    /// Whether no message is left to tell.
    #[inline(always)]
    pub fn are_told(&self) -> bool
        ensures { result ≡ true → self.now.to_tell ≡ [] }
    {
        self.next == self.end && self.cut == 0
    }

    /// The next message to tell.
    pub fn next(&mut self) -> Option<KeptNote>
        ensures { MatchOption result ((self.old.to_tell ≡ []) × (self.new ≡ self.old))
            (λ note. self.old ≡ record self.new { to_tell = note ∷ self.new.to_tell }) }
    {
        if self.next < self.end {
            let note = self.notes[self.next];
            self.next += 1;
            return Some(note);
        }
        if self.cut == 0 {
            return None;
        }
        self.cut -= 1;
        Some(KeptNote {
            line: self.cut_line,
            cause: Cause::EntryCut,
        })
    }
}
