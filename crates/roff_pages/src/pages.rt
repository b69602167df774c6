//! Pages: how the lines on a page, its traps and the open diversions are kept.

ghost use Rattle.std.specs.Prelude.{◌≡◌, ◌-◌, [], IfOk, Some, None, not, min, ◌^◌, ◌*◌};
ghost use Rattle.page_model.specs.Layout.{Layout, first_layout, page_place};

mod diverted;
mod diverted_counts;
mod diverting;
mod placing;
mod queries;
mod setting;
mod spacing;
mod turning;

use crate::open_diversion::OpenDiversion;
use crate::stops::Stops;
use arrayvec::ArrayVec;
use page_bytes::Block;
use page_model::Trap;
use roff_num::{Limits, Num};
use std::alloc::{AllocError, Global};
use std::marker::Model;

/// The greatest count of lines and of columns that is kept.
pub(crate) const MOST_COUNTED: u64 = 1 << 33;

/// The greatest count of pages that is kept.
pub(crate) const MOST_BEGUN: u64 = 1 << 32;

/// Pages, and the diversions that are open.
///
/// All memory is reserved as they are made.
#[derive(Drop)]
pub struct Pages {
    /// The pages that are written; all if there is none.
    ranges: ArrayVec<(Num, Num), 32>,
    /// The number of the next page, if one was set.
    next: Option<Num>,
    /// How many pages were begun.
    begun: u64,
    number: Num,
    length: u32,
    offset: u32,
    previous_offset: u32,
    traps: Vec<Trap>,
    most_traps: u32,
    /// How many lines stand on the page.
    place: u64,
    /// The next trap beyond the place, or the page's end.
    stop: u64,
    /// What is known of it and of others.
    stops: Stops,
    /// How many lines may be placed before the stop, the limit on the output, whether the page is
    /// written, or no-space mode has to be looked at.
    free: u64,
    is_listed: bool,
    no_space: bool,
    /// The innermost open diversion.
    innermost: Option<OpenDiversion>,
    /// Those around it, the newest at the back.
    outer: Vec<OpenDiversion>,
    most_diversions: u32,
    /// The height of the diversion that ended last.
    height: u64,
    /// Its width.
    width: u64,
    is_closing: bool,
    is_over: bool,
    /// How many bytes were written.
    written: u64,
    /// How many may be.
    output: u32,
    block: Block,
}

impl Model for Pages {
    ghost use Rattle.roff_pages.specs.Pages.Kept.{IsSound, Kept, kept_by};

    ghost Value = { Kept };

    ghost view = { kept_by };

    ghost invariant = { IsSound };
}

impl Pages {
    ghost use Rattle.roff_pages.specs.Pages.Stands.{StandsAs};

    /// Pages before the first one begins, all of which are written.
    ///
    /// # Errors
    ///
    /// [`AllocError`] if memory for the traps and diversions that the limits let be can't be had.
    pub fn new(alloc: Global, limits: Limits) -> Result<Self, AllocError>
        ensures stands { IfOk result (λ p. StandsAs first_layout p) }
        ensures written { IfOk result (λ p. p.written ≡ 0) }
        ensures output { IfOk result (λ p. p.output ≡ limits.output) }
        ensures traps { IfOk result (λ p. p.most_traps ≡ limits.traps) }
        ensures diversions { IfOk result (λ p. p.most_diversions ≡ limits.diversions) }
    {
        Ok(Pages {
            ranges: ArrayVec::new(),
            next: None,
            begun: 0,
            number: Num(0),
            length: 66,
            offset: 0,
            previous_offset: 0,
            traps: Vec::with_capacity(alloc, limits.traps as usize)?,
            most_traps: limits.traps,
            place: 0,
            stop: 66,
            stops: Stops {
                trap: 0,
                beyond: Vec::with_capacity(alloc, limits.traps as usize)?,
                top: None,
            },
            free: 0,
            is_listed: false,
            no_space: false,
            innermost: None,
            outer: Vec::with_capacity(alloc, limits.diversions as usize)?,
            most_diversions: limits.diversions,
            height: 0,
            width: 0,
            is_closing: false,
            is_over: false,
            written: 0,
            output: limits.output,
            block: Block::new(alloc)?,
        })
    }
}
