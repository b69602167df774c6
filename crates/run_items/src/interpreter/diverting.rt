//! The texts of diversions.

ghost use Rattle.std.specs.Prelude.{◌≡◌, ◌≤◌, ◌<◌, ◌+◌, ◌-◌, ◌^◌, ℕ, List, None, Ok, Some, length};
ghost use Rattle.run_state.specs.Composer.Due.{due_told, line_laid, title_laid};
ghost use Rattle.page_model.specs.Columns.{finished_of, printed};
ghost use Rattle.page_model.specs.Diverted.{diverted};
ghost use Rattle.page_model.specs.DueTexts.{AllDropped, Gets};
ghost use Rattle.page_model.specs.Titles.{title_text};
ghost use Rattle.roff_num.specs.RegisterText.{register_text};
ghost use Rattle.roff_num.specs.declared.limit.Limit.TheVariants.{Store};
ghost use Rattle.input_model.specs.Input.Names.{adding_to, stored};
ghost use Rattle.input_model.specs.Unread.{input_refusal};
ghost use Rattle.run_items.specs.Diverting.{ChangesText};
ghost use Rattle.page_bytes.specs.TitleParts.{HasNoBlank};
ghost use Rattle.std.specs.Prelude.{◌++◌, false, if◌then◌else◌, min, replicate, true};

use super::Interpreter;
use page_bytes::{DivertedText, TitleLine, diverted_text_len, diverted_title_len};
use page_model::Line;
use read_lines::Reader;
use roff_num::{Format, Limit, Num, NumText, write_num};
use roff_scan::Unread;
use run_model::PageEvent;
use run_state::{Composer, DueText, TitleText};

impl Interpreter {
    /// Changes the text of a diversion as is due, if it is.
    ///
    /// # Errors
    ///
    /// The limit that refuses it: nothing is changed then.
    pub fn change_text(&self, unread: &mut Unread<PageEvent>) -> Result<(), Limit>
        ensures { ChangesText (due_told self.now.formatter.composer self.now.reader.registers.all)
            unread.old unread.new result }
    {
        change(&self.formatter.composer, &self.reader, unread)
    }
}

/// Changes the text of a diversion as is due, if it is, by what the composer and the reader say of
/// it.
fn change(composer: &Composer, reader: &Reader, unread: &mut Unread<PageEvent>) -> Result<(), Limit>
    ensures { ChangesText (due_told composer.now reader.now.registers.all) unread.old unread.new
        result }
{
    match composer.due.text {
        DueText::Nothing => Ok(()),
        DueText::Begins => unread.begin_text(),
        DueText::Ends {
            index,
            name,
            appends,
        } => unread.enter_open(index, &name.name(), appends),
        DueText::Drops => {
            drop_all(unread);
            Ok(())
        }
        DueText::Line {
            lead,
            spare,
            gaps,
            blank_lines,
        } => {
            let line = Line {
                text: composer.environments.in_force.lines.finished_text(),
                lead,
                spare,
                gaps,
                after: 0,
            };
            add_line(innermost(composer), line, blank_lines, unread)
        }
        DueText::Title {
            which,
            number,
            length,
        } => {
            let text = reader.title(which);
            let index = innermost(composer);
            add_title(index, text, number, reader.page_format(), length, unread)
        }
        DueText::BlankLines(count) => {
            let text = DivertedText::blank_lines(count);
            add_text(innermost(composer), text, count, unread)
        }
    }
}

/// The number of the innermost open diversion's text.
fn innermost(composer: &Composer) -> usize
    ensures { result ≡ length composer.now.pages.diversions - 1 }
{
    composer.pages.diversion_count().saturating_sub(1)
}

/// Drops all texts in the making.
fn drop_all(unread: &mut Unread<PageEvent>)
    ensures { ChangesText (Some AllDropped) unread.old unread.new (Ok tt) }
{
    unread.stays_within();
    unread.drop_all();
}

/// Puts a line and so many blank lines, whatever it has itself, behind a text in the making. How
/// many bytes they are is counted only where the store might be too full for as many as they can
/// be.
fn add_line(
    index: usize,
    line: Line<'_>,
    blank_lines: u64,
    unread: &mut Unread<PageEvent>,
) -> Result<(), Limit>
    ensures { ChangesText (Some (Gets index (diverted (printed (finished_of line.entry))
        ++ replicate blank_lines 10))) unread.old unread.new result }
{
    unread.stays_within();
    let text = DivertedText::of_line(line, blank_lines);
    if is_store_full(most_bytes(line, blank_lines), unread) {
        let len = diverted_text_len(line, blank_lines);
        return add_text(index, text, len, unread);
    }
    add_pieces(index, text, unread)
}

/// No fewer than the bytes of a line in a diversion and of so many blank lines behind it, of which
/// no more than `u64::MAX` are counted: as if each byte of its text were two and a gap that gets
/// all its spare columns. None of them is looked at.
fn most_bytes(line: Line<'_>, blank_lines: u64) -> u64
    ensures { min (length (diverted (printed (finished_of line.entry))
        ++ replicate blank_lines 10)) (2 ^ 64 - 1) ≤ result }
{
    let len = line.text.len() as u64;
    let added = len.saturating_mul(line.spare);
    let columns = len.saturating_add(added).saturating_add(line.lead);
    let bytes = columns.saturating_mul(2).saturating_add(3);
    bytes.saturating_add(blank_lines)
}

/// Puts a title of this text and length behind a text in the making, with this number of the page
/// in this format.
fn add_title(
    index: usize,
    text: &TitleText,
    number: Num,
    format: Format,
    columns: u32,
    unread: &mut Unread<PageEvent>,
) -> Result<(), Limit>
    ensures { ChangesText (Some (Gets index (diverted (title_text
        (title_laid text.now.text columns (register_text format number.0))))))
        unread.old unread.new result }
{
    let mut shown = NumText::new();
    write_num(number, format, &mut shown);
    add_numbered(index, text, shown.as_slice(), columns, unread)
}

/// Puts a title of this text and length, in columns, behind a text in the making, with the number
/// of the page as it is printed.
fn add_numbered(
    index: usize,
    text: &TitleText,
    number: &[u8],
    columns: u32,
    unread: &mut Unread<PageEvent>,
) -> Result<(), Limit>
    requires some { 0 < length number.now }
    requires shown { HasNoBlank number.now }
    requires short { length number.now ≤ 48 }
    ensures { ChangesText (Some (Gets index (diverted (title_text
        (title_laid text.now.text columns number.now))))) unread.old unread.new result }
{
    text.stays_short();
    let title = TitleLine {
        left: text.left(),
        centre: text.centre(),
        right: text.right(),
        length: u64::from(columns),
        number,
    };
    let len = diverted_title_len(title);
    add_text(index, DivertedText::of_title(title), len, unread)
}

/// Puts bytes behind a text in the making if there is room for all of them, which are so many.
///
/// # Errors
///
/// [`Limit::Store`] if there would be too many: none of them is there then.
fn add_text(
    index: usize,
    text: DivertedText<'_>,
    len: u64,
    unread: &mut Unread<PageEvent>,
) -> Result<(), Limit>
    requires len { len ≡ min (length text) (2 ^ 64 - 1) }
    ensures { ChangesText (Some (Gets index text.entry)) unread.old unread.new result }
{
    if is_refused(index, len, unread) {
        return Err(Limit::Store);
    }
    add_pieces(index, text, unread)
}

/// Whether the limit on the store refuses so many bytes behind a text in the making.
fn is_refused(index: usize, len: u64, unread: &Unread<PageEvent>) -> bool
    ensures { (bytes : List ℕ) → len ≡ min (length bytes) (2 ^ 64 - 1)
        → input_refusal unread.now.limits (adding_to index bytes unread.now.input)
        ≡ (if result then Some Store else None) }
{
    unread.stays_within();
    if !unread.has_text(index) {
        return false;
    }
    is_store_full(len, unread)
}

/// Whether the limit on the store has no room for so many bytes more.
fn is_store_full(more: u64, unread: &Unread<PageEvent>) -> bool
    ensures full { result ≡ true → unread.now.limits.store < stored unread.now.input + more }
    ensures room { result ≡ false → stored unread.now.input + more ≤ unread.now.limits.store }
    ensures small { unread.now.limits.store < 2 ^ 32 }
{
    if more > u64::from(unread.limits().store) {
        return true;
    }
    unread.is_store_full(more as usize)
}

/// Puts bytes for which there is room behind a text in the making, a buffer after another.
fn add_pieces(
    index: usize,
    text: DivertedText<'_>,
    unread: &mut Unread<PageEvent>,
) -> Result<(), Limit>
    requires room { input_refusal unread.old.limits (adding_to index text unread.old.input) ≡ None }
    ensures { ChangesText (Some (Gets index text.entry)) unread.old unread.new result }
{
    unread.stays_within();
    let mut rest = text;
    let mut buffer = [0; 256];
    loop {
        let count = rest.fill(&mut buffer);
        if count == 0 {
            return Ok(());
        }
        match unread.add_to(index, buffer.split_at(count).0) {
            Ok(()) => {}
            Err(limit) => return Err(limit),
        }
    }
}
