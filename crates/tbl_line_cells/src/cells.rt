//! What is left of the cells of a row (Lesk, "Tbl": Format).

ghost use Rattle.std.specs.Prelude.{◌≡◌, ℕ, ◌+◌, ◌-◌, ◌<◌, ◌^◌, List, nat_lt, true};
ghost use Rattle.tbl_lines.specs.CellsLeft.{Left, behind_line, gone_on};
ghost use Rattle.tbl_lines.specs.LinesLeft.{joined_here, runs_on};
ghost use Rattle.tbl_layout.specs.KeptEntries.{Lies};
ghost use Rattle.tbl_lines.specs.RowsLeft.{block_text};
ghost use Rattle.tbl_line_cells.specs.KeptCells.{IsLeft, ShowsRule, behind_rules};
ghost use Rattle.tbl_text.specs.BlockPlaces.{IsWithin};

use crate::block_places::behind_block_line;
use input_escapes::OpenEscapes;
use tbl_format::format::FormatKey;
use tbl_layout::columns::Column;
use tbl_layout::data_lines::RuleSign;
use tbl_layout::entry::{Entry, EntryKind};
use tbl_lines::row_columns::{block_bytes, is_ruled};
use tbl_text::block_parts::BlockPlace;

/// What is left of a cell in front of a line: its key, its field, how many lines stand above the
/// field's next one, where its block goes on, and over how many rows it has come.
#[derive(Clone, Copy)]
pub struct CellLeft {
    pub key: FormatKey,
    pub entry: Entry,
    pub lead: u128,
    pub place: BlockPlace,
    pub rows: usize,
    /// Whether something stands in it, on any of its lines.
    pub is_used: bool,
    /// Behind how many columns what stands in it ends at the latest, if it is without width.
    pub stop: usize,
    /// Whether a line of that was cut.
    pub is_cut: bool,
}

impl CellLeft {
    /// Whether it goes on from the row above.
    pub fn goes_on(self) -> bool
        ensures { result ≡ nat_lt 0 self.rows }
    {
        self.rows > 0
    }

    /// The line was given: of a block a line less is left, and of any other field nothing.
    pub fn pass_line(&mut self, escapes: &mut OpenEscapes, bytes: &[u8])
        requires lies { Lies bytes.now self.old.entry }
        requires within { IsWithin (block_text bytes.now self.old.entry) self.old.place }
        ensures left { (l : Left) → IsLeft bytes.now self.old l
            → IsLeft bytes.now self.new (behind_line l) }
        ensures room { escapes.new.room ≡ escapes.old.room }
    {
        if self.lead > 0 {
            self.lead -= 1;
            return;
        }
        match self.entry.kind {
            EntryKind::Block(_) => {
                let block = block_bytes(bytes, self.entry);
                let measure = u64::from(self.entry.measure());
                self.place = behind_block_line(escapes, block, self.place, measure);
            }
            _ => {
                self.entry = Entry::NOTHING;
                self.place = BlockPlace::AtEnd;
            }
        }
    }

    fn with(self, entry: Entry, lead: u128, place: BlockPlace) -> CellLeft
        ensures { result ≡ record self { entry = entry; lead = lead; place = place } }
    {
        CellLeft {
            key: self.key,
            entry,
            lead,
            place,
            rows: self.rows,
            is_used: self.is_used,
            stop: self.stop,
            is_cut: self.is_cut,
        }
    }

    /// Whether something in it passes an end of its columns, as one, on the line: then it begins at
    /// their first place.
    pub fn runs_on(self, column: Column) -> bool
        ensures { (bytes : List ℕ) (l : Left) → IsLeft bytes self l
            → result ≡ runs_on l column }
    {
        self.key.has_no_width
            && self.lead == 0
            && column.passes(self.key.key, self.entry.stands(self.key.key))
    }

    /// Something in it is cut on a line.
    pub fn cut(self) -> CellLeft
        ensures { result ≡ record self { is_cut = true } }
    {
        CellLeft {
            key: self.key,
            entry: self.entry,
            lead: self.lead,
            place: self.place,
            rows: self.rows,
            is_used: self.is_used,
            stop: self.stop,
            is_cut: true,
        }
    }

    /// What is left of it on the first line of its row, in front of which so many lines of rules
    /// stand, as far as the rule counts that it shows there. The bars that meet a line of rules
    /// from below are found by it, before these lines are given.
    pub fn on_first_line(self, rules: u128) -> CellLeft
        ensures { (bytes : List ℕ) (l : Left) → IsLeft bytes self l
            → ShowsRule bytes result (behind_rules rules l) }
    {
        if !self.goes_on() {
            return self;
        }
        if self.lead < rules {
            return self.with(Entry::NOTHING, 0, BlockPlace::AtEnd);
        }
        self.with(self.entry, self.lead - rules, self.place)
    }

    /// It goes on in the row below, under a key there.
    pub fn gone_on(self, key: FormatKey) -> CellLeft
        requires { self.rows < 2 ^ 64 - 1 }
        ensures left { (bytes : List ℕ) (l : Left) → IsLeft bytes self l
            → IsLeft bytes result (gone_on key l) }
        ensures value { result
            ≡ record self {
              key = record key { key = self.key.key; has_no_width = self.key.has_no_width };
              rows = self.rows + 1;
            } }
    {
        CellLeft {
            key: FormatKey {
                bars: key.bars,
                key: self.key.key,
                end: key.end,
                standing: key.standing,
                has_no_width: self.key.has_no_width,
            },
            entry: self.entry,
            lead: self.lead,
            place: self.place,
            rows: self.rows + 1,
            is_used: self.is_used,
            stop: self.stop,
            is_cut: self.is_cut,
        }
    }

    /// The sign of the rule that it and the next one both show on the line.
    pub fn joined(self, next: CellLeft) -> Option<RuleSign>
        ensures { (bytes : List ℕ) (l m : Left) → IsLeft bytes self l → IsLeft bytes next m
            → result ≡ joined_here l m }
    {
        if self.lead > 0 {
            return None;
        }
        if next.lead > 0 {
            return None;
        }
        match self.entry.kind {
            EntryKind::Ruled(sign) => {
                if is_ruled(sign, next.entry.kind) {
                    Some(sign)
                } else {
                    None
                }
            }
            _ => None,
        }
    }
}
