//! The words of a line.

use page_model::{GAP, UNPADDABLE};
use roff_num::ShortName;
use roff_pages::PAGE_NUMBER;
use std::alloc::{AllocError, Global};

/// What is left of a line.
#[derive(Clone, Copy)]
pub(crate) struct Words<'a> {
    rest: &'a str,
}

impl<'a> Words<'a> {
    /// The words of a line.
    pub(crate) fn of(line: &'a str) -> Self {
        Words { rest: line }
    }

    /// The next word; an empty one where none is left.
    fn next(&mut self) -> &'a str {
        match self.rest.split_once(' ') {
            Some((word, rest)) => {
                self.rest = rest;
                word
            }
            None => {
                let word = self.rest;
                self.rest = "";
                word
            }
        }
    }

    /// The first byte of the next word; 0 where it has none.
    pub(crate) fn letter(&mut self) -> u8 {
        self.next().as_bytes().first().copied().unwrap_or(0)
    }

    /// A count, 0 where the next word is none.
    pub(crate) fn count(&mut self) -> u32 {
        self.next().parse().unwrap_or(0)
    }

    /// A count that may be larger.
    pub(crate) fn large_count(&mut self) -> u64 {
        self.next().parse().unwrap_or(0)
    }

    /// A number, none where the next word is none.
    pub(crate) fn some_number(&mut self) -> Option<i32> {
        self.next().parse().ok()
    }

    /// A number, 0 where the next word is none.
    pub(crate) fn number(&mut self) -> i32 {
        self.some_number().unwrap_or(0)
    }

    /// A name, which is `?` where the next word is none.
    pub(crate) fn name(&mut self) -> ShortName {
        ShortName::of(self.next().as_bytes()).unwrap_or(ShortName {
            first: b'?',
            second: None,
        })
    }

    /// A text.
    pub(crate) fn text(&mut self, alloc: Global) -> Result<Vec<u8>, AllocError> {
        let mut text = Vec::new(alloc);
        for byte in self.next().as_bytes() {
            text.push(match *byte {
                b'_' => GAP,
                b'%' => PAGE_NUMBER,
                b'~' => UNPADDABLE,
                b'^' => 0x02,
                byte => byte,
            })?;
        }
        Ok(text)
    }
}
