//! What stands on top and below it, how much is held, and how many names and texts are open.

ghost use Rattle.std.specs.Prelude.{◌≡◌, ◌≤◌, true, [], ◌∷◌, drop, length, MatchOption};
ghost use Rattle.input_escapes.specs.OpenEscape.{names_in, texts_held, widths_in};
ghost use Rattle.input_escapes.specs.EscapeTexts.{BeginsBehind, IsOnTop, begun, names_among};
ghost use Rattle.input_escapes.specs.EscapeTexts.{text_on_top};
ghost use Rattle.input_escapes.specs.EscapeTexts.{widths_among};
ghost use Rattle.input_escapes.specs.Nesting.{IsNested};

use super::{MOST_NAMES, OpenEscapes};
use crate::open_escape::HeldEscape;

impl OpenEscapes {
    /// What is on top; the text that it has there stays.
    #[inline(always)]
    pub(super) fn top(&self) -> Option<HeldEscape>
        ensures top { MatchOption result (self.now.escapes ≡ [])
            (λ item. IsOnTop item self.now.escapes) }
        ensures nested { IsNested self.now.escapes }
    {
        self.items.as_slice().last().copied()
    }

    /// What stands below the top.
    #[inline(always)]
    pub(super) fn below(&self) -> Option<HeldEscape>
        ensures { MatchOption result (drop 1 self.now.escapes ≡ [])
            (λ item. IsOnTop item (drop 1 self.now.escapes)) }
    {
        let items = self.items.as_slice();
        if items.len() < 2 {
            return None;
        }
        Some(items[items.len() - 2])
    }

    /// Puts something on top, which may stand there.
    #[inline(always)]
    pub(super) fn push(&mut self, escape: HeldEscape)
        requires stands { IsNested (begun escape ∷ self.old.escapes) }
        requires begins { BeginsBehind (texts_held self.old.escapes) escape }
        ensures { self.new ≡ record self.old { escapes = begun escape ∷ self.old.escapes } }
    {
        self.items.push(escape);
    }

    /// Takes off what is on top, and its text.
    #[inline(always)]
    pub(super) fn pop(&mut self)
        ensures { self.new ≡ record self.old { escapes = drop 1 self.old.escapes } }
    {
        match self.items.pop() {
            Some(HeldEscape::Delimited(_, _, begin)) => self.texts.truncate(begin),
            Some(HeldEscape::Condition(_, begin)) => self.texts.truncate(begin),
            _ => {}
        }
    }

    /// Nothing is half read from now on.
    pub fn clear(&mut self)
        ensures { self.new ≡ record self.old { escapes = [] } }
    {
        self.items.clear();
        self.texts.clear();
    }

    /// How many bytes of texts are held.
    pub fn held(&self) -> usize
        ensures { result ≡ texts_held self.now.escapes }
    {
        self.texts.len()
    }

    /// The text on top, which begins there in the block.
    pub(super) fn text(&self, begin: usize) -> &[u8]
        requires { begin ≡ texts_held (drop 1 self.now.escapes) }
        ensures { result.now ≡ text_on_top self.now.escapes }
    {
        &self.texts[begin..]
    }

    /// Whether a name may stand in the place of the top: no more things are half read than names
    /// may be.
    #[inline(always)]
    pub(super) fn is_shallow(&self) -> bool
        ensures { result ≡ true → length self.now.escapes ≤ 8 }
    {
        self.items.len() <= MOST_NAMES
    }

    /// How many names are half read.
    pub(super) fn names(&self) -> usize
        ensures { result ≡ names_in self.now.escapes }
    {
        names_among(self.items.as_slice())
    }

    /// How many texts are being measured.
    pub(super) fn widths(&self) -> usize
        ensures { result ≡ widths_in self.now.escapes }
    {
        widths_among(self.items.as_slice())
    }
}

/// How many of these are names.
fn names_among(items: &[HeldEscape]) -> usize
    ensures { result ≡ names_among items.now }
{
    let mut count = 0;
    let mut rest = items;
    while let Some((item, others)) = rest.split_first() {
        if let HeldEscape::Name(..) = item {
            count += 1;
        }
        rest = others;
    }
    count
}

/// How many of these are texts that are measured.
fn widths_among(items: &[HeldEscape]) -> usize
    ensures { result ≡ widths_among items.now }
{
    let mut count = 0;
    let mut rest = items;
    while let Some((item, others)) = rest.split_first() {
        if let HeldEscape::Width(..) = item {
            count += 1;
        }
        rest = others;
    }
    count
}
