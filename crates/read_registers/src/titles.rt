//! What is kept of titles: the one that is read, one that waits, and the page number's character
//! (manual, section 14).

ghost use Rattle.std.specs.Prelude.{◌≡◌, [], IfOk, replicate};
ghost use Rattle.page_model.specs.Glyphs.{glyph_blank};
ghost use Rattle.read_registers.specs.Lasting.{no_titles, title_allowed, title_in, titles_with};
ghost use Rattle.read_registers.specs.Titles.Fronts.{AddsFront, is_plain, kept_byte};
ghost use Rattle.run_model.specs.Reading.Titles.{is_page_character};
ghost use Rattle.run_model.specs.TitleTexts.{part_ended, title_begun, with_bytes};

use page_bytes::PAGE_NUMBER;
use page_model::UNPADDABLE;
use roff_num::Limit;
use run_model::{TitlePart, WhichTitle};
use run_state::TitleText;
use std::alloc::{AllocError, Global};
use std::marker::Model;
use std::mem;

/// The title that was read last, one that is kept, and the character that stands for the page
/// number in them.
///
/// All memory is reserved as they are made.
#[derive(Drop)]
pub struct Titles {
    title: TitleText,
    kept_title: TitleText,
    page_character: Option<u8>,
    /// How many bytes a title may have.
    line: usize,
}

impl Model for Titles {
    ghost use Rattle.read_registers.specs.Lasting.{TitlesKept};

    ghost Value = { TitlesKept };

    ghost use Rattle.read_registers.specs.Titles.Kept.{titles_by, HaveRoom};

    ghost view = { titles_by };

    ghost invariant = { HaveRoom };
}

impl Titles {
    /// No title was read, of which each may have so many bytes; `%` stands for the page number.
    ///
    /// # Errors
    ///
    /// [`AllocError`] if the memory for them can't be had.
    pub(crate) fn new(alloc: Global, line: u32) -> Result<Self, AllocError>
        ensures { IfOk result (λ r. r ≡ no_titles line) }
    {
        Ok(Titles {
            title: TitleText::new(alloc, line)?,
            kept_title: TitleText::new(alloc, line)?,
            page_character: Some(b'%'),
            line: line as usize,
        })
    }

    /// The text of a title.
    pub fn title(&self, which: WhichTitle) -> &TitleText
        ensures { result.now.text ≡ title_in self.now which }
    {
        match which {
            WhichTitle::Read => &self.title,
            WhichTitle::Kept => &self.kept_title,
        }
    }

    /// The part of a title that is read.
    pub fn title_part(&self) -> TitlePart
        ensures { result ≡ self.now.title.part }
    {
        self.title.part()
    }

    /// The character that stands for the page number in titles, if one does.
    pub fn page_character(&self) -> Option<u8>
        ensures { result ≡ self.now.page_character }
    {
        self.page_character
    }

    /// Sets it.
    pub(crate) fn set_page_character(&mut self, character: Option<u8>)
        ensures { self.new ≡ record self.old { page_character = character } }
    {
        self.page_character = character;
    }

    /// A title begins: these bytes are read of its left part.
    ///
    /// # Errors
    ///
    /// [`Limit::Line`] if these are more than a title may have.
    pub fn begin_title(&mut self, bytes: &[u8]) -> Result<(), Limit>
        ensures answer { result ≡ title_allowed (title_begun bytes.now) self.old }
        ensures titles { self.new ≡ titles_with (title_begun bytes.now) self.old }
    {
        if bytes.len() > self.line {
            return Err(Limit::Line);
        }
        self.title.begin();
        self.title.add(bytes);
        Ok(())
    }

    /// Bytes are read of the part of the title that comes.
    ///
    /// # Errors
    ///
    /// [`Limit::Line`] if a title would have more than it may; it is as it was then.
    pub fn add_to_title(&mut self, bytes: &[u8]) -> Result<(), Limit>
        ensures answer { result ≡ title_allowed (with_bytes bytes.now self.old.title) self.old }
        ensures titles { self.new
            ≡ titles_with (with_bytes bytes.now self.old.title) self.old }
    {
        if bytes.len() > self.title.room_left() {
            return Err(Limit::Line);
        }
        self.title.add(bytes);
        Ok(())
    }

    /// The first of these bytes are read of it, up to one that is the delimiter, or doesn't stand
    /// for the page number, a blank or itself, and no more than a title may have. How many they
    /// are.
    #[tactic(auto, using(crate::proofs::TitleFronts::plain_one_more, crate::proofs::TitleFronts::added_one_more))]
    pub fn add_front_to_title(&mut self, front: &[u8], delimiter: u8) -> usize
        ensures adds { AddsFront front.now delimiter result self.old self.new }
    {
        let Titles {
            title,
            page_character,
            ..
        } = self;
        let most = title.room_left().min(front.len());
        let mut count = 0;
        while count < most {
            let byte = front[count];
            if !is_plain(byte, delimiter) {
                return count;
            }
            title.push(kept_byte(byte, *page_character));
            count += 1;
        }
        count
    }

    /// So many blanks are read of it.
    ///
    /// # Errors
    ///
    /// [`Limit::Line`] if a title would have more bytes than it may; it is as it was then.
    pub fn add_blanks_to_title(&mut self, count: u32) -> Result<(), Limit>
        ensures answer { result ≡ title_allowed
            (with_bytes (replicate count glyph_blank) self.old.title) self.old }
        ensures titles { self.new ≡ titles_with
            (with_bytes (replicate count glyph_blank) self.old.title) self.old }
    {
        let count = count as usize;
        if count > self.title.room_left() {
            return Err(Limit::Line);
        }
        self.title.add_blanks(count);
        Ok(())
    }

    /// The part of the title that was read has ended.
    pub fn end_title_part(&mut self)
        ensures { self.new ≡ record self.old { title = part_ended self.old.title } }
    {
        self.title.end_part();
    }

    /// The title that was read last is kept: it waits behind a macro that sprang. Nothing is read
    /// of another yet.
    pub fn keep_title(&mut self)
        ensures { self.new ≡ record self.old {
          title = title_begun [];
          kept_title = self.old.title;
        } }
    {
        mem::swap(&mut self.title, &mut self.kept_title);
        self.title.begin();
    }
}

/// Whether a byte of a part stands for the page number, a blank or itself: it is not the delimiter,
/// no control byte, and no backslash.
#[inline(always)]
fn is_plain(byte: u8, delimiter: u8) -> bool
    ensures { result ≡ is_plain delimiter byte }
{
    byte >= b' ' && byte != 127 && byte != b'\\' && byte != delimiter
}

/// Whether it is the page number's character, if there is one.
#[inline(always)]
fn is_character(byte: u8, character: Option<u8>) -> bool
    ensures { result ≡ is_page_character character byte }
{
    match character {
        None => false,
        Some(character) => byte == character,
    }
}

/// What such a byte is in the part.
#[inline(always)]
fn kept_byte(byte: u8, character: Option<u8>) -> u8
    ensures { result ≡ kept_byte character byte }
{
    if is_character(byte, character) {
        PAGE_NUMBER
    } else if byte == b' ' {
        UNPADDABLE
    } else {
        byte
    }
}
