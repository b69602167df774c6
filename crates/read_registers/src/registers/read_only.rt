//! The read-only registers, as in the manual's lists of registers before section 1.

ghost use Rattle.std.specs.Prelude.{◌≡◌, bytes_eq, find, option_map};
ghost use Rattle.std.specs.Option.{option_copied};
ghost use Rattle.page_model.specs.Layout.{Layout};
ghost use Rattle.roff_pages.specs.Pages.Counted.{counted};
ghost use Rattle.roff_pages.specs.Pages.Stands.{StandsAs};
ghost use Rattle.run_model.specs.Registers.{Known, answer, at_greatest, in_heights, in_units};
ghost use Rattle.run_model.specs.Registers.{is_read_only, place_told, query_of, text_place};
ghost use Rattle.read_registers.specs.Registers.ReadOnly.{begins_read_only};
ghost use Rattle.read_registers.specs.Registers.Coded.{AreOf};

use super::Facts;
use crate::number::{COLUMN, LINE};
use roff_num::Name;
use run_model::Query;

/// A read-only register.
#[derive(Clone, Copy)]
struct ReadOnly {
    /// Its name.
    name: [u8; 2],
    /// What it asks for.
    query: Query,
}

/// The table of read-only registers.
#[rattlefmt::skip]
static READ_ONLY: [ReadOnly; 17] = [
    ReadOnly { name: *b".c", query: Query::Newlines },
    ReadOnly { name: *b".i", query: Query::Indent },
    ReadOnly { name: *b".l", query: Query::LineLength },
    ReadOnly { name: *b".n", query: Query::LastWidth },
    ReadOnly { name: *b".u", query: Query::Filling },
    ReadOnly { name: *b".v", query: Query::LineSpacing },
    ReadOnly { name: *b".V", query: Query::LineSpacing },
    ReadOnly { name: *b".H", query: Query::ColumnWidth },
    ReadOnly { name: *b".$", query: Query::Arguments },
    ReadOnly { name: *b".d", query: Query::TextPlace },
    ReadOnly { name: *b".o", query: Query::PageOffset },
    ReadOnly { name: *b".p", query: Query::PageLength },
    ReadOnly { name: *b".t", query: Query::WayToTrap },
    ReadOnly { name: *b".z", query: Query::DiversionName },
    ReadOnly { name: *b"nl", query: Query::PagePlace },
    ReadOnly { name: *b"dn", query: Query::DiversionHeight },
    ReadOnly { name: *b"dl", query: Query::DiversionWidth },
];

/// A count above this reads as this.
const GREATEST_NUMBER: u64 = 2147483647;

/// What a read-only register asks for, if a name is one's.
#[inline(always)]
pub(super) fn query_of(name: &Name) -> Option<Query>
    ensures { result ≡ query_of name.now }
{
    Some(row_named(name.as_bytes())?.query)
}

/// Whether a name is that of a read-only register.
#[inline(always)]
pub(super) fn is_read_only(name: &Name) -> bool
    ensures { result ≡ is_read_only name.now }
{
    query_of(name).is_some()
}

/// The row of a name.
fn row_named(name: &[u8]) -> Option<&'static ReadOnly>
    ensures { option_copied result ≡ find (λ row. bytes_eq name.now row.name) READ_ONLY }
{
    if !begins_read_only(name) {
        return None;
    }
    READ_ONLY.iter().find(|row| name == row.name.as_slice())
}

/// Whether a name begins as one of those in the table does: of most, nothing more is looked at.
fn begins_read_only(name: &[u8]) -> bool
    ensures { result ≡ begins_read_only name.now }
{
    match name.first() {
        Some(first) => *first == b'.' || *first == b'n' || *first == b'd',
        None => false,
    }
}

impl Facts<'_> {
    /// What a read-only register asks for, in basic units where it is a length.
    #[tactic(auto, using(crate::proofs::Heights::told_counted, crate::proofs::Heights::wide_counted, crate::proofs::Heights::told_place))]
    pub(super) fn answer(self, query: Query) -> i32
        ensures { (k : Known) → AreOf k self.entry → result ≡ answer k query }
    {
        let lines = &self.composer.environments.in_force.lines;
        match query {
            Query::Newlines => at_greatest(u64::from(self.newlines)),
            Query::Indent => columns_told(u64::from(lines.settings().indent)),
            Query::LineLength => columns_told(u64::from(lines.settings().line_length)),
            Query::LastWidth => columns_told(u64::from(lines.last_width())),
            Query::Filling => i32::from(lines.settings().filling),
            Query::LineSpacing => LINE as i32,
            Query::ColumnWidth => COLUMN as i32,
            Query::Arguments => at_greatest(self.arguments as u64),
            Query::PagePlace => place_told(self.composer.pages.nl()),
            Query::PageLength => lines_told(u64::from(self.composer.pages.length())),
            Query::PageOffset => columns_told(u64::from(self.composer.pages.offset())),
            Query::WayToTrap => match self.composer.pages.way_to_trap() {
                Some(way) => lines_told(way),
                None => GREATEST_NUMBER as i32,
            },
            Query::TextPlace => place_told(self.text_place()),
            Query::DiversionHeight => lines_told(self.composer.pages.height()),
            Query::DiversionWidth => columns_told(self.composer.pages.width()),
            Query::DiversionName => 0,
        }
    }

    /// The place where text goes: in the innermost open diversion, or on the page; none before the
    /// first page.
    fn text_place(self) -> Option<u64>
        ensures { (L : Layout) → StandsAs L self.entry.composer.now.pages
            → result ≡ option_map counted (text_place L) }
    {
        let pages = &self.composer.pages;
        if pages.is_diverting() {
            return Some(pages.place_now());
        }
        pages.nl()
    }
}

/// A width in columns, in basic units.
fn columns_told(columns: u64) -> i32
    ensures { result ≡ at_greatest (in_units columns) }
{
    at_greatest(columns.saturating_mul(u64::from(COLUMN)))
}

/// A place, in basic units; before the first page it is -1.
fn place_told(place: Option<u64>) -> i32
    ensures { result ≡ place_told place }
{
    match place {
        Some(lines) => lines_told(lines),
        None => -1,
    }
}

/// A height in lines, in basic units.
fn lines_told(lines: u64) -> i32
    ensures { result ≡ at_greatest (in_heights lines) }
{
    at_greatest(lines.saturating_mul(u64::from(LINE)))
}

/// A count; one above the greatest number reads as that.
fn at_greatest(count: u64) -> i32
    ensures { result ≡ at_greatest count }
{
    count.min(GREATEST_NUMBER) as i32
}
