//! Titles, piece by piece.

ghost use Rattle.std.specs.Prelude.{◌≡◌, ◌+◌, ◌<◌, ◌^◌, ◌++◌, [], ℕ, List, length};
ghost use Rattle.std.specs.Prelude.{IfSome, IfNone};
ghost use Rattle.page_model.specs.Glyphs.{text_width};
ghost use Rattle.page_model.specs.Columns.{spaces, trimmed};
ghost use Rattle.page_model.specs.Titles.{part_text, title_text};
ghost use Rattle.page_bytes.specs.TitleParts.{HasNoBlank, blanks_before};
ghost use Rattle.page_bytes.specs.TitleLeft.{title_of};

use crate::title_part::{PartText, TitlePiece, width_of_part};
use roff_lines::place_title;
use std::marker::Model;

/// A title: its three parts as they are kept, its length, and the page number (manual, section 14).
///
/// In a part [`UNPADDABLE`](page_model::UNPADDABLE) stands for a blank, and
/// [`PAGE_NUMBER`](crate::PAGE_NUMBER) for the page number.
#[derive(Clone, Copy)]
pub struct TitleLine<'a> {
    /// The part on the left.
    pub left: &'a [u8],
    /// The part in the centre.
    pub centre: &'a [u8],
    /// The part on the right.
    pub right: &'a [u8],
    /// The title's length in columns.
    pub length: u64,
    /// The page number as it is printed.
    pub number: &'a [u8],
}

/// A title as it is written, piece by piece: without the blanks at its end.
#[derive(Drop)]
pub struct TitlePieces<'a> {
    left: PartText<'a>,
    centre: PartText<'a>,
    right: PartText<'a>,
}

impl<'a> Model for TitlePieces<'a> {
    ghost use Rattle.std.specs.Prelude.{ℕ, List};
    ghost use Rattle.page_bytes.specs.TitleLeft.{title_left};

    ghost Value = { List ℕ };

    ghost view = { title_left };
}

impl<'a> TitlePieces<'a> {
    /// The pieces of a title behind so many columns, such as the page offset.
    pub fn of(title: TitleLine<'a>, columns: u64) -> Self
        requires some { 0 < length title.number.now }
        requires shown { HasNoBlank title.number.now }
        requires width { let number = title.number.now in
            text_width (part_text number title.left.now)
            + text_width (part_text number title.centre.now)
            + text_width (part_text number title.right.now) + title.length < 2 ^ 64 }
        ensures { result ≡ trimmed (spaces columns ++ title_text (title_of title.entry)) }
    {
        let left = width_of_part(title.left, title.number);
        let centre = width_of_part(title.centre, title.number);
        let right = width_of_part(title.right, title.number);
        let (centre_gap, right_gap) = gaps_in_title(title, left, centre, right);
        TitlePieces {
            left: PartText::of(columns, title.left, title.number),
            centre: PartText::of(centre_gap, title.centre, title.number),
            right: PartText::of(right_gap, title.right, title.number),
        }
    }

    /// Takes a piece: none only where nothing is left.
    pub fn next_piece(&mut self) -> Option<TitlePiece<'a>>
        ensures some { IfSome result (λ piece. (0 < length piece.glyphs.now)
            × (spaces piece.blanks ++ (piece.glyphs.now ++ self.new) ≡ self.old)) }
        ensures none { IfNone result (self.old ≡ []) }
    {
        let left = self.left.take();
        if !left.glyphs.is_empty() {
            return Some(left);
        }
        let centre = self.centre.take();
        if !centre.glyphs.is_empty() {
            return Some(TitlePiece {
                blanks: left.blanks + centre.blanks,
                glyphs: centre.glyphs,
            });
        }
        let right = self.right.take();
        if !right.glyphs.is_empty() {
            return Some(TitlePiece {
                blanks: left.blanks + centre.blanks + right.blanks,
                glyphs: right.glyphs,
            });
        }
        None
    }
}

/// How many blanks stand in front of a title's centre, and in front of its right part: none in
/// front of an empty one. The widths of its parts are given, in columns.
#[inline(always)]
pub(crate) fn gaps_in_title(title: TitleLine<'_>, left: u64, centre: u64, right: u64) -> (u64, u64)
    requires some { 0 < length title.number.now }
    requires left { left ≡ text_width (part_text title.number.now title.left.now) }
    requires centre { centre ≡ text_width (part_text title.number.now title.centre.now) }
    requires right { right ≡ text_width (part_text title.number.now title.right.now) }
    requires width { left + centre + right + title.length < 2 ^ 64 }
    ensures { let t = title_of title.entry in
        part_text t.number t.left ++ ((spaces result.0 ++ part_text t.number t.centre)
        ++ (spaces result.1 ++ part_text t.number t.right))
        ≡ title_text (title_of title.entry) }
{
    let [_, centre_at, right_at] = place_title([left, centre, right], title.length);
    let end = if title.centre.is_empty() {
        left
    } else {
        centre_at + centre
    };
    (
        gap_before(centre_at - left, title.centre),
        gap_before(right_at - end, title.right),
    )
}

/// How many blanks stand in front of a part that is so far from the one in front of it.
#[inline(always)]
fn gap_before(blanks: u64, part: &[u8]) -> u64
    ensures { (number : List ℕ) → 0 < length number
        → spaces result ++ part_text number part.now
        ≡ blanks_before blanks (part_text number part.now) }
{
    if part.is_empty() { 0 } else { blanks }
}

/// How wide a title is, in columns.
pub fn width_of_title(title: TitleLine<'_>) -> u64
    requires some { 0 < length title.number.now }
    requires width { let number = title.number.now in
        text_width (part_text number title.left.now)
        + text_width (part_text number title.centre.now)
        + text_width (part_text number title.right.now) + title.length < 2 ^ 64 }
    ensures { result ≡ text_width (title_text (title_of title.entry)) }
{
    let left = width_of_part(title.left, title.number);
    let centre = width_of_part(title.centre, title.number);
    let right = width_of_part(title.right, title.number);
    let [_, centre_at, right_at] = place_title([left, centre, right], title.length);
    if !title.right.is_empty() {
        return right_at + right;
    }
    if !title.centre.is_empty() {
        return centre_at + centre;
    }
    left
}
