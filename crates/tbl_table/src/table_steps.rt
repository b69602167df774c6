//! What a line of a table does to the parts that keep it.

ghost use Rattle.std.specs.Prelude.{◌≡◌, ℕ, ◌+◌, ◌-◌, ◌<◌, ◌≤◌, ◌^◌, ◌++◌, [], length};
ghost use Rattle.std.specs.Prelude.{false, true, IfOk, IfSome, take, unwrap_or, if◌then◌else◌};
ghost use Rattle.tbl_format.specs.Format.{Format, format_read};
ghost use Rattle.tbl_format.specs.KeyCounts.{Counts, IsCount, StandsOnLine};
ghost use Rattle.tbl_format.specs.FormatRows.{key_count};
ghost use Rattle.tbl_giving.specs.Giving.{IsLaidOut, cuts_laid};
ghost use Rattle.tbl_kept.specs.Joined.{goes_on};
ghost use Rattle.tbl_format.specs.RowsServed.{all_rows};
ghost use Rattle.tbl_kept.specs.TableText.{block_of};
ghost use Rattle.tbl_options.specs.Notes.{NotesWithin, told_of_all};
ghost use Rattle.tbl_data.specs.OpenBlocks.{is_open};
ghost use Rattle.tbl_table.specs.Steps.{BlockEnds, CanEnd, data_behind};
ghost use Rattle.tbl_table.specs.Steps.{emptied, fault_noted, head_letters, letters_noted};
ghost use Rattle.tbl_table.specs.Steps.{options_told, phase_at_last, phase_behind, roomy};
ghost use Rattle.tbl_table.specs.Steps.{with_cause, with_cut, with_keys};
ghost use Rattle.tbl_options.specs.declared.notes.Cause.TheVariants.{BadFormat};
ghost use Rattle.tbl_data.specs.declared.phase.Phase.TheVariants.{Bad};

use input_escapes::OpenEscapes;
use std::alloc::{AllocError, Global};
use tbl_data::phase::Phase;
use tbl_data::table_data::{OpenBlock, TableData};
use tbl_format::format::FormatPlace;
use tbl_format::format_rows::FormatRows;
use tbl_format::key_count::KeyCount;
use tbl_giving::giving::Giving;
use tbl_kept::rows::TableRows;
use tbl_kept::table_notes::TableNotes;
use tbl_kept::table_text::TableText;
use tbl_layout::bars::Bars;
use tbl_options::notes::{Cause, KeptNote};
use tbl_options::options::read_options;

/// No data, with room for a text of so many bytes and so many columns.
pub fn new_data(alloc: Global, text: u32, columns: u32) -> Result<TableData, AllocError>
    ensures { IfOk result (λ d. d ≡ roomy text columns d) }
{
    let bytes = text as usize;
    let count = columns as usize;
    Ok(TableData {
        format: FormatRows::new(alloc, bytes, count)?,
        keys: 0,
        rules: 0,
        rows: TableRows::new(alloc, bytes, bytes, count)?,
        open: OpenBlock::Nothing,
        notes: TableNotes::new(alloc, bytes + 2)?,
        escapes: OpenEscapes::new(alloc, 0)?,
    })
}

/// No data.
pub fn clear_data(kept: &mut TableData)
    ensures { kept.new ≡ emptied kept.old }
{
    kept.format.clear();
    kept.keys = 0;
    kept.rules = 0;
    kept.rows.clear();
    kept.open = OpenBlock::Nothing;
    kept.notes.clear();
}

/// A text block that is open ends with the table.
pub fn end_block(kept: &mut TableData)
    requires small { length (all_rows kept.old.format.format) < 2 ^ 32 }
    requires can { is_open kept.old.open ≡ true → CanEnd kept.old }
    ensures done { is_open kept.old.open ≡ true → BlockEnds kept.old kept.new }
    ensures none { is_open kept.old.open ≡ false → kept.new ≡ kept.old }
{
    if kept.open.is_open() {
        kept.close_block();
    }
}

/// Reports a table that can't be formatted, for what stands on this line. Answers what is read
/// then.
pub fn refuse(notes: &mut TableNotes, line: u32) -> Phase
    requires { length notes.old.notes < notes.old.note_room }
    ensures notes { notes.new ≡ with_cause line BadFormat notes.old }
    ensures phase { result ≡ Bad }
{
    notes.push(KeptNote {
        line,
        cause: Cause::BadFormat,
    });
    Phase::Bad
}

/// The keys of a line of the format, with its newline. Answers what is read then.
pub fn take_keys(kept: &mut TableData, keys: &[u8], line: u32) -> Phase
    requires keys { key_count kept.old.format.format + length keys.now
        ≤ kept.old.format.key_room }
    requires columns { length (format_read kept.old.format.format keys.now).asked
        ≤ kept.old.format.column_room }
    requires row_columns { kept.old.rows.column_room ≡ kept.old.format.column_room }
    requires place { StandsOnLine 0 kept.old.format.format.place }
    requires few { length kept.old.format.format.asked + length keys.now < 2 ^ 63 }
    requires notes { length kept.old.notes.notes + length keys.now < kept.old.notes.note_room }
    ensures kept { kept.new ≡ with_keys line keys.now kept.old }
    ensures phase { result ≡ phase_behind (format_read kept.old.format.format keys.now).place }
{
    kept.notes.push_left_out(kept.format.count(), keys, line);
    kept.format.take_all(keys);
    go_behind_keys(kept, line)
}

/// Behind keys of the format, by where their reading stands.
fn go_behind_keys(kept: &mut TableData, line: u32) -> Phase
    requires notes { length kept.old.notes.notes < kept.old.notes.note_room }
    requires columns { length kept.old.format.format.asked ≤ kept.old.rows.column_room }
    ensures kept { kept.new ≡ data_behind kept.old.format.format.place line kept.old }
    ensures phase { result ≡ phase_behind kept.old.format.format.place }
{
    match kept.format.place() {
        FormatPlace::InRows(_) => Phase::InFormat,
        FormatPlace::AtEnd => {
            kept.rows.add_columns(kept.format.columns());
            let first = kept.format.earlier_rows();
            kept.serve_from(first);
            Phase::InData
        }
        FormatPlace::AtFault => refuse(&mut kept.notes, line),
    }
}

/// Behind the last line of keys, which has no newline, by where their reading stands.
pub fn tell_keys(place: FormatPlace, notes: &mut TableNotes, line: u32) -> Phase
    requires { length notes.old.notes < notes.old.note_room }
    ensures phase { result ≡ phase_at_last place }
    ensures notes { notes.new ≡ fault_noted place line notes.old }
{
    match place {
        FormatPlace::InRows(_) => Phase::InFormat,
        FormatPlace::AtEnd => Phase::InFormat,
        FormatPlace::AtFault => refuse(notes, line),
    }
}

/// Whether a line goes on: it ends in a backslash.
pub fn goes_on(line: &[u8]) -> bool
    ensures { result ≡ goes_on line.now }
{
    match line.last() {
        Some(byte) => *byte == b'\\',
        None => false,
    }
}

/// Where the line that is begun ends in the block, but for a last backslash.
pub fn end_of_line(text: &TableText) -> usize
    ensures { result
        ≡ length (block_of text.now) - (if goes_on text.now.line then 1 else 0) }
{
    let end = text.block().len();
    if goes_on(text.line()) {
        end.saturating_sub(1)
    } else {
        end
    }
}

/// Reports the options that are ignored, of a line whose options end there.
pub fn tell_options(end: Option<usize>, notes: &mut TableNotes, block: &[u8], line: u32)
    requires block { IfSome end (λ e. e ≤ length block.now) }
    requires small { length block.now < 2 ^ 32 }
    requires room { length notes.old.notes + length block.now ≤ notes.old.note_room }
    requires within { NotesWithin (length block.now) notes.old.notes }
    requires none { notes.old.to_tell ≡ [] }
    ensures told { told_of_all block.now notes.new.notes ≡ told_of_all block.now notes.old.notes
        ++ options_told end line block.now }
    ensures few { length notes.new.notes
        ≤ length notes.old.notes + unwrap_or end 0 }
    ensures within { NotesWithin (length block.now) notes.new.notes }
    ensures none { notes.new.to_tell ≡ [] }
    ensures room { notes.new.note_room ≡ notes.old.note_room }
{
    match end {
        Some(end) => notes.push_ignored(block, 0, end, line),
        None => {}
    }
}

/// All messages of a table are to tell, and behind them, for this line, those of the entries that
/// are cut in its picture, which has these bars and is so wide. What was to give is given up.
pub fn tell_cut(
    giving: &mut Giving,
    kept: &mut TableData,
    text: &TableText,
    number: u32,
    bars: Bars,
    width: usize,
)
    requires { IsLaidOut bars width text.now kept.old.rows kept.old.format giving.old.columns }
    ensures kept { kept.new ≡ record kept.old {
      notes = with_cut number
          (cuts_laid bars width text.now kept.old.rows kept.old.format) kept.old.notes;
      escapes = kept.new.escapes;
    } }
    ensures room { giving.new.columns ≡ giving.old.columns }
{
    let count = giving.count_cut(
        &mut kept.escapes,
        text,
        &kept.rows,
        &kept.format,
        bars,
        width,
    );
    kept.notes.tell_with_cut(count, number);
}

/// Reports what is left out of the keys of a first line without a newline, whose options end there,
/// where so much was counted before it.
pub fn tell_head_letters(
    end: Option<usize>,
    count: KeyCount,
    notes: &mut TableNotes,
    block: &[u8],
    line: u32,
)
    requires end { IfSome end (λ e. e < length block.now) }
    requires is { IsCount 0 count }
    requires few { count.columns + length block.now < 2 ^ 63 }
    requires room { length notes.old.notes + (length block.now - unwrap_or end 0)
        ≤ notes.old.note_room }
    ensures { (f : Format) → Counts f count → notes.new
        ≡ letters_noted line (head_letters end f block.now) notes.old }
{
    match end {
        None => notes.push_left_out(count, block, line),
        Some(end) => notes.push_left_out(count, &block[end + 1..], line),
    }
}
