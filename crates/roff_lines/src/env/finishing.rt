//! Ends of words and of lines of the input, and breaks: the lines that they finish.

ghost use Rattle.std.specs.Prelude.{◌≡◌, ℕ, None, is_some, option_map};
ghost use Rattle.std.specs.Borrow.{sem};
ghost use Rattle.roff_lines.specs.Clauses.{WordEnd, LineEnd, Break, History, finished, finished_of};
ghost use Rattle.roff_lines.specs.Clauses.{shaped};

use super::{Env, counted};
use crate::shape::Shape;
use page_model::{Event, Line};
use std::mem;

impl Env {
    ghost use Rattle.roff_lines.specs.Env.Kept.{with_line_finished, finished_by_break};
    ghost use Rattle.roff_lines.specs.Env.Kept.{with_input_line_ended, finished_by_line_end};
    ghost use Rattle.roff_lines.specs.Env.Kept.{with_field_left, with_line_ended};
    ghost use Rattle.roff_lines.specs.Env.Stands.{Finishes, Stands};
    ghost use Rattle.roff_lines.specs.Env.Rests.{RestsBehind};

    /// Ends the open word, which finishes the pending line if the word doesn't fit there.
    pub fn end_word(&mut self) -> Option<Line<'_>>
        ensures* stands { sem 𝓛 (RestsBehind self.entry WordEnd) }
        ensures line { Finishes self.old WordEnd (option_map finished_of result) }
    {
        let shape = self.place_word();
        self.lent(shape)
    }

    /// Ends a line of the input, which finishes the pending line where words aren't measured.
    pub fn end_line(&mut self) -> Option<Line<'_>>
        ensures* stands { sem 𝓛 (RestsBehind self.entry LineEnd) }
        ensures line { Finishes self.old LineEnd (option_map finished_of result) }
    {
        self.leave_open_field();
        let shape = self.finish_input_line();
        self.lent(shape)
    }

    /// Finishes the pending line.
    pub fn brk(&mut self) -> Option<Line<'_>>
        ensures* stands { sem 𝓛 (RestsBehind self.entry Break) }
        ensures line { Finishes self.old Break (option_map finished_of result) }
    {
        self.leave_open_field();
        let shape = self.finish_pending();
        self.lent(shape)
    }

    /// Whether an event would finish a line.
    pub fn finishes(&self, event: Event) -> bool
        ensures { (line_cap : ℕ) (h : History) → Stands line_cap h self.now
            → result ≡ is_some (finished h event) }
    {
        match event {
            Event::WordEnd => self.is_open && self.has_line && !self.word_fits(),
            Event::LineEnd => {
                !self.settings.fills() && (self.has_line || !self.settings.filling)
            }
            Event::Break => self.has_line,
            Event::Tab => self.is_in_field() && self.tab_finishes(),
            _ => false,
        }
    }

    /// Puts the text of a field that is open all the same into its word, as it stands.
    #[inline(always)]
    fn leave_open_field(&mut self)
        ensures { self.new ≡ with_field_left self.old }
    {
        if self.is_in_field() {
            self.leave_field();
        }
    }

    /// The finished line, in this shape.
    pub(super) fn lent(&self, shape: Option<Shape>) -> Option<Line<'_>>
        ensures { option_map finished_of result
            ≡ option_map (λ s. shaped s self.now.finished) shape }
    {
        match shape {
            Some(shape) => Some(shape.over(self.finished.as_slice())),
            None => None,
        }
    }

    /// Finishes the pending line where words aren't measured, and else sets the gap of a line's
    /// end. Then one line less is to be centred.
    fn finish_input_line(&mut self) -> Option<Shape>
        requires { self.old.field ≡ None }
        ensures kept { self.new ≡ with_input_line_ended self.old }
        ensures line { option_map (λ s. shaped s self.new.finished) result
            ≡ finished_by_line_end self.old }
    {
        let settings = counted(self.settings);
        let shape = self.finish_uncounted_line();
        self.settings = settings;
        shape
    }

    /// Finishes the pending line where words aren't measured, and else sets the gap of a line's
    /// end. The count of lines to be centred stays.
    #[inline(always)]
    fn finish_uncounted_line(&mut self) -> Option<Shape>
        requires { self.old.field ≡ None }
        ensures kept { self.new ≡ with_line_ended self.old }
        ensures line { option_map (λ s. shaped s self.new.finished) result
            ≡ finished_by_line_end self.old }
    {
        let ends_gap = !self.is_open && self.has_glyph;
        let gap = if self.ends_sentence { 2 } else { 1 };
        self.has_glyph = false;
        self.ends_sentence = false;
        self.place = 0;
        if self.settings.fills() {
            if ends_gap {
                self.blanks = gap;
            }
            return None;
        }
        match self.finish_pending() {
            Some(shape) => Some(shape),
            None => {
                if self.settings.filling {
                    return None;
                }
                self.last_width = 0;
                self.finished.clear();
                Some(Shape::empty(self.settings))
            }
        }
    }

    /// Finishes the pending line, if there is one.
    fn finish_pending(&mut self) -> Option<Shape>
        requires { self.old.field ≡ None }
        ensures kept { self.new ≡ with_line_finished self.old }
        ensures line { option_map (λ s. shaped s self.new.finished) result
            ≡ finished_by_break self.old }
    {
        if !self.is_open {
            self.blanks = 0;
        }
        if !self.has_line {
            return None;
        }
        let shape = Shape::of(self.settings, false, self.indent, &self.line);
        self.last_width = shape.width();
        self.finished.clear();
        mem::swap(&mut self.finished, &mut self.line);
        self.has_line = false;
        Some(shape)
    }
}
