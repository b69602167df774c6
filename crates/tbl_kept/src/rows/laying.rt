//! The rows of a table, as they are laid out: their blocks are filled, and their columns get widths
//! and places (Lesk, "Tbl": Format, Text Blocks).

ghost use Rattle.std.specs.Prelude.{◌≡◌, ◌+◌, ◌<◌, ◌^◌, Bool, false, List, [], ℕ, length};
ghost use Rattle.std.specs.List.{AllByRecursion, list_any};
ghost use Rattle.tbl_format.specs.Format.{FormatRow};
ghost use Rattle.tbl_format.specs.RowsServed.{all_rows};
ghost use Rattle.tbl_kept.specs.KeptHeights.{raised};
ghost use Rattle.tbl_kept.specs.Rows.{ElementKept, ElementLaid, IsPlainTable, RowsKept, RowsLaid};
ghost use Rattle.tbl_kept.specs.Rows.{SameRoom, elements_of};
ghost use Rattle.tbl_kept.specs.RowsLaying.{AllFormatsCount, all_laid, element_at, fitted_rows};
ghost use Rattle.tbl_kept.specs.RowsLaying.{ElementWithin, NoFormatsGoOn, is_above_key, laid_at};
ghost use Rattle.tbl_kept.specs.RowsLaying.{RowsWithin, wide_in};
ghost use Rattle.tbl_layout.specs.Columns.{equalled, placed_with, width_of_all, with_bars};
ghost use Rattle.tbl_layout.specs.Columns.{with_widths};
ghost use Rattle.tbl_layout.specs.Heights.{NoneAbove};
ghost use Rattle.tbl_layout.specs.Spans.{all_fitted, columns_laid, filled};

use super::heights::{Fields, set_heights, with_height};
use super::{Element, TableRows};
use crate::held_columns::{fill_fields, fit_fields};
use input_escapes::OpenEscapes;
use tbl_format::cells::columns_of;
use tbl_format::format::{Asked, FormatKey, Key};
use tbl_format::format_rows::FormatRows;
use tbl_layout::bars::Bars;
use tbl_layout::columns::{make_equal, set_bars, set_needed, set_starts};
use tbl_layout::measures::Filling;

impl TableRows {
    /// The table is whole: its blocks are filled, and its columns have their widths.
    pub fn set_widths(
        &mut self,
        escapes: &mut OpenEscapes,
        bytes: &[u8],
        format: &FormatRows,
        bars: Bars,
        line_length: u32,
    )
        requires small { length bytes.now < 2 ^ 32 }
        requires kept { RowsKept bytes.now (all_rows format.now.format) self.old }
        requires columns { length self.old.columns ≡ length format.now.format.asked }
        requires none { self.old.row ≡ [] }
        ensures laid { RowsLaid bytes.now (all_rows format.now.format)
            bars.boxing.is_inside self.new }
        ensures elements { elements_of bytes.now (all_rows format.now.format) self.new.elements
            ≡ filled bars line_length format.now.format.asked
            (elements_of bytes.now (all_rows format.now.format) self.old.elements) }
        ensures columns { self.new.columns
            ≡ columns_laid bars line_length format.now.format.asked
            (elements_of bytes.now (all_rows format.now.format) self.old.elements) }
        ensures count { length self.new.elements ≡ length self.old.elements }
        ensures rooms { SameRoom self.old self.new }
        ensures room { escapes.new.room ≡ escapes.old.room }
    {
        let asked = format.asked();
        let filling = Filling {
            bars,
            line_length,
            asked,
        };
        self.set_bars(asked);
        self.fill_blocks(escapes, bytes, format, filling);
        self.set_needed(asked);
        self.fit_rows(format, bars);
        self.make_equal(asked);
        self.set_heights(format, bars.boxing.is_inside);
    }

    /// Whether a cell may go on with the one above it, or what stands in it may run on behind its
    /// columns, under these formats.
    pub fn may_go_on(&self, format: &FormatRows) -> bool
        ensures above { result ≡ false → (bytes : List ℕ) → AllByRecursion NoneAbove
            (elements_of bytes (all_rows format.now.format) self.now.elements) }
        ensures widths { result ≡ false → AllFormatsCount (all_rows format.now.format) }
    {
        let down = goes_on(self.has_above, has_above(format));
        goes_on(down, has_free(format))
    }

    /// Whether what stands in a cell may be without width, under these formats.
    pub fn may_run_on(&self, format: &FormatRows) -> bool
        ensures { result ≡ false → AllFormatsCount (all_rows format.now.format) }
    {
        has_free(format)
    }

    /// Each row is as high as what is left of the cells that end with it, where one may go on.
    fn set_heights(&mut self, format: &FormatRows, is_inside: bool)
        requires within { RowsWithin (all_rows format.now.format) self.old }
        requires few { length format.now.format.asked < 2 ^ 32 }
        requires columns { length self.old.columns ≡ length format.now.format.asked }
        ensures { (bytes : List ℕ)
            → AllByRecursion (ElementLaid bytes (all_rows format.now.format)
            (length self.old.columns)) self.old.elements → IsPlainTable self.old
            → self.new ≡ record self.old {
              elements = raised bytes (all_rows format.now.format)
                  is_inside (length self.old.columns) self.old.elements;
            } }
    {
        if goes_on(self.has_above, has_above(format)) {
            let entries = self.entries.as_slice();
            set_heights(
                self.elements.as_mut_slice(),
                Fields { entries, format },
                is_inside,
                &mut self.lefts,
            );
        }
    }

    /// Each column has its place: so many columns of the page more are spread over the gaps.
    pub fn set_starts(&mut self, bars: Bars, asked: &[Asked], more: usize)
        requires { width_of_all bars self.old.columns asked.now + more < 2 ^ 32 }
        ensures value { self.new ≡ record self.old
            { columns = placed_with bars more asked.now self.old.columns } }
        ensures laid { (bytes : List ℕ) (formats : List FormatRow) (is_inside : Bool)
            → RowsLaid bytes formats is_inside self.old
            → RowsLaid bytes formats is_inside self.new }
    {
        self.place(bars, asked, more);
    }

    /// Each column has the most bars behind it.
    fn set_bars(&mut self, asked: &[Asked])
        ensures { self.new ≡ record self.old { columns = with_bars asked.now self.old.columns } }
    {
        set_bars(self.columns.as_mut_slice(), asked);
    }

    /// Each column has the width that its own entries need.
    fn set_needed(&mut self, asked: &[Asked])
        ensures { self.new ≡ record self.old { columns = with_widths asked.now self.old.columns } }
    {
        set_needed(self.columns.as_mut_slice(), asked);
    }

    /// The columns with `e` have the greatest of their widths.
    fn make_equal(&mut self, asked: &[Asked])
        ensures { self.new ≡ record self.old { columns = equalled asked.now self.old.columns } }
    {
        make_equal(self.columns.as_mut_slice(), asked);
    }

    /// Columns have room for the entries that go over several of them, by rows and from the left.
    fn fit_rows(&mut self, format: &FormatRows, bars: Bars)
        requires kept { RowsWithin (all_rows format.now.format) self.old }
        requires columns { length self.old.columns ≡ length format.now.format.asked }
        ensures { self.new ≡ record self.old {
          columns = fitted_rows (all_rows format.now.format) bars format.now.format.asked
              self.old.elements self.old.columns;
        } }
    {
        for at in 0..self.elements.len() {
            self.fit_row(format, bars, at);
        }
    }

    /// Columns have room for those of a row.
    fn fit_row(&mut self, format: &FormatRows, bars: Bars, at: usize)
        requires at { at < length self.old.elements }
        requires kept { ElementWithin (all_rows format.now.format)
            (element_at self.old.elements at) }
        requires columns { length self.old.columns ≡ length format.now.format.asked }
        ensures { self.new ≡ record self.old {
          columns = all_fitted bars format.now.format.asked
              (wide_in (all_rows format.now.format) (element_at self.old.elements at))
              self.old.columns;
        } }
    {
        if let Element::Row(row) = self.elements[at] {
            let keys = format.row_of_all(row.keys as usize);
            if columns_of(keys) != keys.len() {
                fit_fields(
                    self.columns.as_mut_slice(),
                    bars,
                    format.asked(),
                    keys,
                    &self.entries.as_slice()[row.from as usize..row.to as usize],
                );
            }
        }
    }

    /// Each column has its place.
    fn place(&mut self, bars: Bars, asked: &[Asked], more: usize)
        requires { width_of_all bars self.old.columns asked.now + more < 2 ^ 32 }
        ensures { self.new ≡ record self.old
            { columns = placed_with bars more asked.now self.old.columns } }
    {
        set_starts(self.columns.as_mut_slice(), bars, asked, more);
    }

    /// The blocks of all rows are filled, if there may be one.
    fn fill_blocks(
        &mut self,
        escapes: &mut OpenEscapes,
        bytes: &[u8],
        format: &FormatRows,
        filling: Filling<'_>,
    )
        requires small { length bytes.now < 2 ^ 32 }
        requires asked { filling.asked.now ≡ format.now.format.asked }
        requires few { length filling.asked.now < 2 ^ 32 }
        requires kept { AllByRecursion (ElementKept bytes.now (all_rows format.now.format)
            (length self.old.columns)) self.old.elements }
        requires columns { length self.old.columns ≡ length format.now.format.asked }
        ensures value { self.new ≡ all_laid bytes.now (all_rows format.now.format)
            filling.entry.bars filling.entry.line_length filling.entry.asked.now self.old }
        ensures room { escapes.new.room ≡ escapes.old.room }
    {
        if self.has_block {
            self.fill_rows(escapes, bytes, format, filling);
        }
    }

    /// The blocks of all rows are filled.
    fn fill_rows(
        &mut self,
        escapes: &mut OpenEscapes,
        bytes: &[u8],
        format: &FormatRows,
        filling: Filling<'_>,
    )
        requires small { length bytes.now < 2 ^ 32 }
        requires asked { filling.asked.now ≡ format.now.format.asked }
        requires few { length filling.asked.now < 2 ^ 32 }
        requires kept { AllByRecursion (ElementKept bytes.now (all_rows format.now.format)
            (length self.old.columns)) self.old.elements }
        requires columns { length self.old.columns ≡ length format.now.format.asked }
        ensures value { self.new ≡ all_laid bytes.now (all_rows format.now.format)
            filling.entry.bars filling.entry.line_length filling.entry.asked.now self.old }
        ensures room { escapes.new.room ≡ escapes.old.room }
    {
        for at in 0..self.elements.len() {
            self.fill_row(escapes, bytes, format, filling, at);
        }
    }

    /// The blocks of a row are filled: it is as high as the highest.
    fn fill_row(
        &mut self,
        escapes: &mut OpenEscapes,
        bytes: &[u8],
        format: &FormatRows,
        filling: Filling<'_>,
        at: usize,
    )
        requires small { length bytes.now < 2 ^ 32 }
        requires asked { filling.asked.now ≡ format.now.format.asked }
        requires few { length filling.asked.now < 2 ^ 32 }
        requires at { at < length self.old.elements }
        requires kept { ElementKept bytes.now (all_rows format.now.format)
            (length self.old.columns) (element_at self.old.elements at) }
        requires columns { length self.old.columns ≡ length format.now.format.asked }
        ensures value { self.new ≡ laid_at bytes.now (all_rows format.now.format)
            filling.entry.bars filling.entry.line_length filling.entry.asked.now at self.old }
        ensures room { escapes.new.room ≡ escapes.old.room }
    {
        if let Element::Row(row) = self.elements[at] {
            let keys = format.row_of_all(row.keys as usize);
            let entries = &mut self.entries.as_mut_slice()[row.from as usize..row.to as usize];
            let columns = self.columns.as_mut_slice();
            let height = fill_fields(escapes, bytes, filling, keys, entries, columns);
            self.elements[at] = with_height(row, height);
        }
    }
}

/// Whether a cell may go on: a field does, or a key.
fn goes_on(field: bool, key: bool) -> bool
    ensures fields { result ≡ false → field ≡ false }
    ensures keys { result ≡ false → key ≡ false }
{
    field || key
}

/// Whether a row of the formats has a key `^`.
fn has_above(format: &FormatRows) -> bool
    ensures { result ≡ false → NoFormatsGoOn (all_rows format.now.format) }
{
    for row in 0..format.all_rows() {
        if has_above_key(format.row_of_all(row)) {
            return true;
        }
    }
    false
}

/// Whether one of these keys is `^`.
fn has_above_key(keys: &[FormatKey]) -> bool
    ensures { result ≡ list_any (λ k. is_above_key k.key) keys.now }
{
    for key in keys {
        if is_above_key(key.key) {
            return true;
        }
    }
    false
}

/// Whether a row of the formats has a key under which nothing counts for the widths of columns.
fn has_free(format: &FormatRows) -> bool
    ensures { result ≡ false → AllFormatsCount (all_rows format.now.format) }
{
    for row in 0..format.all_rows() {
        if has_free_key(format.row_of_all(row)) {
            return true;
        }
    }
    false
}

/// Whether one of these keys is such.
fn has_free_key(keys: &[FormatKey]) -> bool
    ensures { result ≡ list_any (λ k. k.has_no_width) keys.now }
{
    for key in keys {
        if key.has_no_width {
            return true;
        }
    }
    false
}

/// Whether a key is `^`.
fn is_above_key(key: Key) -> bool
    ensures { result ≡ is_above_key key }
{
    matches!(key, Key::Above)
}
