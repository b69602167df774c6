//! The pieces of a picture that follow, as many as there is room for.

ghost use Rattle.std.specs.Prelude.{◌≡◌, false, true};
ghost use Rattle.tbl_giving.specs.declared.giving.Rest.TheVariants.{Lines};

use super::Giving;
use input_escapes::OpenEscapes;
use tbl_format::format_rows::FormatRows;
use tbl_kept::rows::TableRows;
use tbl_kept::table_text::TableText;
use tbl_picture::walk::STEP_PIECES;

impl Giving {
    ghost use Rattle.tbl_giving.specs.Giving.{CanFollow, CanGive, coming, following};

    /// The next pieces of the picture, as many as there is room for, and behind its lines what
    /// stands there.
    pub(super) fn refill_lines(
        &mut self,
        escapes: &mut OpenEscapes,
        text: &TableText,
        rows: &TableRows,
        format: &FormatRows,
    )
        requires lines { self.old.rest ≡ Lines }
        requires can { CanFollow text.now rows.now format.now self.old }
        ensures coming { coming text.now rows.now format.now self.new
            ≡ following text.now rows.now format.now self.old }
        ensures can { CanGive text.now rows.now format.now self.new }
        ensures room { self.new.columns ≡ self.old.columns }
    {
        if self.is_tall {
            self.refill_tall(escapes, text, rows, format);
        } else {
            self.refill_plain(escapes, text, rows, format);
        }
    }

    /// The next pieces of a picture whose cells have one row each, as many as there is room for,
    /// and behind its lines what stands there.
    fn refill_plain(
        &mut self,
        escapes: &mut OpenEscapes,
        text: &TableText,
        rows: &TableRows,
        format: &FormatRows,
    )
        requires lines { self.old.rest ≡ Lines }
        requires plain { self.old.is_tall ≡ false }
        requires can { CanFollow text.now rows.now format.now self.old }
        ensures coming { coming text.now rows.now format.now self.new
            ≡ following text.now rows.now format.now self.old }
        ensures can { CanGive text.now rows.now format.now self.new }
        ensures room { self.new.columns ≡ self.old.columns }
    {
        self.pieces.clear();
        while self.pieces.has_room(STEP_PIECES) {
            let is_some = self
                .walk
                .step(&mut self.pieces, escapes, text.block(), rows, format);
            if !is_some {
                return self.add_end(text);
            }
        }
    }

    /// The next pieces of a picture with cells of several rows, as many as there is room for, and
    /// behind its lines what stands there.
    fn refill_tall(
        &mut self,
        escapes: &mut OpenEscapes,
        text: &TableText,
        rows: &TableRows,
        format: &FormatRows,
    )
        requires lines { self.old.rest ≡ Lines }
        requires tall { self.old.is_tall ≡ true }
        requires can { CanFollow text.now rows.now format.now self.old }
        ensures coming { coming text.now rows.now format.now self.new
            ≡ following text.now rows.now format.now self.old }
        ensures can { CanGive text.now rows.now format.now self.new }
        ensures room { self.new.columns ≡ self.old.columns }
    {
        self.pieces.clear();
        while self.pieces.has_room(STEP_PIECES) {
            let is_some = self.line_by_line.step(
                &mut self.walk,
                &mut self.pieces,
                escapes,
                text.block(),
                rows,
                format,
            );
            if !is_some {
                return self.add_end(text);
            }
        }
    }
}
