//! Texts behind escapes: those between delimiters, and those that are measured.

ghost use Rattle.std.specs.Prelude.{◌≡◌, ◌≤◌, ◌+◌, ℕ, true, List, Option, Some, None, [], ◌∷◌};
ghost use Rattle.std.specs.Prelude.{drop, pos};
ghost use Rattle.input_escapes.specs.OpenEscape.{OpenEscape, Backslash as OpenBackslash};
ghost use Rattle.input_escapes.specs.OpenEscape.{Delimited as OpenDelimited, text_held, texts_held};
ghost use Rattle.input_escapes.specs.EscapeTexts.{IsOnTop, begun, holds_text, leaving};
ghost use Rattle.input_escapes.specs.OpenEscapes.{byte_of_text, byte_of_width, grown, motion_given};
ghost use Rattle.input_escapes.specs.OpenEscapes.{reads_widths, surroundings, text_given};
ghost use Rattle.input_escapes.specs.OpenEscapes.{unit_of_text};
ghost use Rattle.input_escapes.specs.OpenEscapes.{width_beginning, place_above};
ghost use Rattle.input_escapes.specs.Nesting.{IsNested};
ghost use Rattle.input_escapes.specs.declared.escapes.TextUse.{TextUse as PurposeOf};

use super::OpenEscapes;
use crate::escapes::TextUse;
use crate::measures::{Measured, byte_columns, wider};
use crate::open_escape::{CopyUnit, Found, HeldEscape, Surroundings};

/// Within so many texts that are measured a further one isn't measured.
const MOST_WIDTHS: usize = 8;

impl OpenEscapes {
    /// How many bytes more would be held behind a unit of the text that is being read.
    #[inline(always)]
    pub fn bytes_more(&self, unit: CopyUnit) -> usize
        ensures { texts_held (text_held unit self.now.escapes)
            ≡ texts_held self.now.escapes + result }
    {
        match self.top() {
            Some(item) if holds_text(item) => match unit {
                CopyUnit::Byte(_) => 1,
                CopyUnit::Kept(_) => 2,
            },
            _ => 0,
        }
    }

    /// Holds one unit more of the text that is being read.
    #[inline(always)]
    pub fn hold(&mut self, unit: CopyUnit)
        requires { texts_held (text_held unit self.old.escapes) ≤ self.old.room }
        ensures { self.new ≡ record self.old { escapes = text_held unit self.old.escapes } }
    {
        match self.top() {
            Some(item) if holds_text(item) => match unit {
                CopyUnit::Byte(byte) => self.texts.push(byte).unwrap(),
                CopyUnit::Kept(byte) => {
                    self.texts.push(b'\\').unwrap();
                    self.texts.push(byte).unwrap();
                }
            },
            _ => {}
        }
    }

    /// A text between delimiters begins.
    pub(super) fn begin_text(&mut self, purpose: TextUse) -> Found
        requires { IsNested (OpenDelimited purpose None [] ∷ self.old.escapes) }
        ensures going { result ≡ Found.GoesOn }
        ensures begun { self.new
            ≡ record self.old { escapes = OpenDelimited purpose None [] ∷ self.old.escapes } }
    {
        let begin = self.held();
        self.begin(HeldEscape::Delimited(purpose, None, begin))
    }

    /// A byte of the text between delimiters on top: the first delimits it, and the same ends it.
    pub(super) fn read_byte_of_text(
        &mut self,
        base: Surroundings,
        purpose: TextUse,
        delimiter: Option<u8>,
        begin: usize,
        byte: u8,
    ) -> Found
        requires nested { IsNested self.old.escapes }
        requires on_top { IsOnTop (HeldEscape.Delimited purpose delimiter begin) self.old.escapes }
        ensures { (text : List ℕ) (rest : List OpenEscape)
            → self.old.escapes ≡ OpenDelimited purpose delimiter text ∷ rest
            → (result, self.new)
            ≡ leaving (byte_of_text (place_above base) rest purpose delimiter text byte) self.old }
    {
        match delimiter {
            None => {
                self.delimit(byte);
                Found::GoesOn
            }
            Some(delimiter) => {
                if byte == delimiter {
                    self.end_text(base, purpose, begin)
                } else if byte == b'\\' {
                    self.begin(HeldEscape::Backslash)
                } else {
                    unit_of_text(purpose, CopyUnit::Byte(byte))
                }
            }
        }
    }

    /// The text between delimiters on top has its delimiter.
    fn delimit(&mut self, delimiter: u8)
        ensures { (purpose : PurposeOf) (text : List ℕ) (rest : List OpenEscape)
            → self.old.escapes ≡ OpenDelimited purpose None text ∷ rest
            → self.new ≡ record self.old {
              escapes = OpenDelimited purpose (Some delimiter) text ∷ rest;
            } }
    {
        if let Some(HeldEscape::Delimited(purpose, _, begin)) = self.top() {
            self.items.pop();
            self.items
                .push(HeldEscape::Delimited(purpose, Some(delimiter), begin));
        }
    }

    /// The text between delimiters on top is whole.
    pub(super) fn end_text(&mut self, base: Surroundings, purpose: TextUse, begin: usize) -> Found
        requires { begin ≡ texts_held (drop 1 self.old.escapes) }
        ensures { (delimiter : Option ℕ) (text : List ℕ) (rest : List OpenEscape)
            → self.old.escapes ≡ OpenDelimited purpose delimiter text ∷ rest
            → (result, self.new)
            ≡ leaving (text_given (place_above base) rest purpose text) self.old }
    {
        match purpose {
            TextUse::Motion => {
                let measured = Measured::of_motion(base.place(), self.text(begin));
                self.pop();
                self.give_motion(measured)
            }
            TextUse::LeftOut(byte) => {
                self.pop();
                self.give_escape(byte)
            }
        }
    }

    /// A motion: a text that is measured grows by it.
    fn give_motion(&mut self, measured: Measured) -> Found
        ensures { (result, self.new) ≡ leaving (motion_given self.old.escapes measured) self.old }
    {
        match self.top() {
            Some(HeldEscape::Width(delimiter, width, is_deep)) => {
                self.grow(delimiter, width, is_deep, measured)
            }
            _ => Found::Motion(measured.columns, measured.remark),
        }
    }

    /// A text that is measured begins, or one too deep for it.
    pub(super) fn begin_width(&mut self) -> Found
        requires nested { IsNested (OpenBackslash ∷ self.old.escapes) }
        requires around { reads_widths
            (surroundings (Surroundings.Text (pos 0)) self.old.escapes) ≡ true }
        ensures { (result, self.new) ≡ leaving (width_beginning self.old.escapes) self.old }
    {
        let is_deep = self.widths() >= MOST_WIDTHS;
        self.push(HeldEscape::Width(None, 0, is_deep));
        Found::GoesOn
    }

    /// A byte of the text on top that is measured.
    pub(super) fn read_byte_of_width(
        &mut self,
        delimiter: Option<u8>,
        width: u32,
        is_deep: bool,
        byte: u8,
    ) -> Found
        requires nested { IsNested self.old.escapes }
        requires on_top { IsOnTop (HeldEscape.Width delimiter width is_deep) self.old.escapes }
        ensures { (result, self.new) ≡ leaving
            (byte_of_width (drop 1 self.old.escapes) delimiter width is_deep byte) self.old }
    {
        match delimiter {
            None => {
                self.pop();
                self.begin(HeldEscape::Width(Some(byte), width, is_deep))
            }
            Some(delimiter) => {
                if byte == delimiter {
                    self.pop();
                    Found::Measures(width)
                } else if byte == b'\\' {
                    self.begin(HeldEscape::Backslash)
                } else if is_deep {
                    Found::GoesOn
                } else {
                    let columns = Measured::columns(byte_columns(byte));
                    self.grow(Some(delimiter), width, is_deep, columns)
                }
            }
        }
    }

    /// The text on top that is measured grows.
    pub(super) fn grow(
        &mut self,
        delimiter: Option<u8>,
        width: u32,
        is_deep: bool,
        measured: Measured,
    ) -> Found
        requires nested { IsNested self.old.escapes }
        requires on_top { IsOnTop (HeldEscape.Width delimiter width is_deep) self.old.escapes }
        ensures { (result, self.new) ≡ leaving
            (grown (drop 1 self.old.escapes) delimiter width is_deep measured) self.old }
    {
        let width = wider(width, measured.columns);
        self.pop();
        self.push(HeldEscape::Width(delimiter, width, is_deep));
        match measured.remark {
            None => Found::GoesOn,
            Some(remark) => Found::Tells(remark),
        }
    }
}

/// Whether something has a text.
fn holds_text(item: HeldEscape) -> bool
    ensures { result ≡ holds_text item }
{
    match item {
        HeldEscape::Delimited(..) => true,
        HeldEscape::Condition(..) => true,
        _ => false,
    }
}

/// A unit of a text between delimiters: a motion's is held, and one that is left out is dropped.
pub(super) fn unit_of_text(purpose: TextUse, unit: CopyUnit) -> Found
    ensures { (rest : List OpenEscape) (delimiter : Option ℕ) (text : List ℕ)
        → (result, OpenDelimited purpose delimiter text ∷ rest)
        ≡ unit_of_text rest purpose delimiter text unit }
{
    match purpose {
        TextUse::Motion => Found::Holds(unit),
        TextUse::LeftOut(_) => Found::GoesOn,
    }
}
