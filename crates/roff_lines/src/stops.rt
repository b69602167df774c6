//! Tab stops (manual, section 9.1), in columns.

ghost use Rattle.std.specs.Prelude.{◌≡◌, None, IfOk, nat_lt, ◌==◌, ◌&&◌, ◌||◌};
ghost use Rattle.roff_lines.specs.Clauses.{TabStops, stops_with, way_beyond, way_to_next};
ghost use Rattle.roff_lines.specs.Clauses.{way_to_nearest, shorter_way};
ghost use Rattle.page_model.specs.TabStops.{with_stop_set};
ghost use Rattle.roff_lines.specs.StopTable.Ways.{way_of, way_told};

use page_model::{Param, StopKind, TabStop};
use std::alloc::{AllocError, Global};
use std::marker::Model;

/// The most stops that are kept.
const MOST_STOPS: usize = 32;

/// The columns between stops where none were set.
const COLUMNS_BETWEEN: u32 = 8;

/// A way to a tab stop.
#[derive(Clone, Copy)]
pub(crate) struct Way {
    /// Its columns.
    pub(crate) columns: u32,
    /// Where text stands at the stop.
    pub(crate) kind: StopKind,
}

/// The tab stops in force, in the order in which they were set.
#[derive(Drop)]
pub(crate) struct StopTable {
    /// Whether they were set. They stand every eight columns where they weren't.
    are_set: bool,
    stops: Vec<TabStop>,
}

impl Model for StopTable {
    ghost use Rattle.roff_lines.specs.StopTable.Kept.{stops_kept, IsRoomy};
    ghost use Rattle.page_model.specs.TabStops.{TabStops};

    ghost Value = { TabStops };

    ghost view = { stops_kept };

    ghost invariant = { IsRoomy };
}

impl StopTable {
    /// The stops at first.
    pub(crate) fn new(alloc: Global) -> Result<Self, AllocError>
        ensures { IfOk result (λ s. s ≡ None) }
    {
        Ok(StopTable {
            are_set: false,
            stops: Vec::with_capacity(alloc, MOST_STOPS)?,
        })
    }

    /// Changes them, if the change is one of stops.
    pub(crate) fn change(&mut self, param: Param)
        ensures { self.new ≡ stops_with param self.old }
    {
        match param {
            Param::NoStops => {
                self.are_set = true;
                self.stops.clear();
            }
            Param::Stop(column) => self.add(TabStop {
                column,
                kind: StopKind::Left,
            }),
            Param::RightStop(column) => self.add(TabStop {
                column,
                kind: StopKind::Right,
            }),
            Param::CentredStop(column) => self.add(TabStop {
                column,
                kind: StopKind::Centred,
            }),
            _ => {}
        }
    }

    /// Adds one, if there is room for it.
    fn add(&mut self, stop: TabStop)
        ensures { self.new ≡ with_stop_set stop self.old }
    {
        if !self.are_set {
            self.are_set = true;
            self.stops.clear();
        }
        if self.stops.len() < MOST_STOPS {
            self.stops.push(stop).unwrap();
        }
    }

    /// The way from a place to the next stop, if there is one.
    pub(crate) fn next_from(&self, place: u32) -> Option<Way>
        ensures { way_told result ≡ way_to_next self.now place }
    {
        if self.are_set {
            way_to_nearest_of(self.stops.as_slice(), place)
        } else {
            Some(Way {
                columns: COLUMNS_BETWEEN - place % COLUMNS_BETWEEN,
                kind: StopKind::Left,
            })
        }
    }
}

/// The way to the nearest of some stops beyond a place, if one is.
#[tactic(auto, using(crate::proofs::Ways::shorter_way_assoc, crate::proofs::Ways::shorter_way_none))]
fn way_to_nearest_of(stops: &[TabStop], place: u32) -> Option<Way>
    ensures { way_told result ≡ way_to_nearest stops.now place }
{
    let mut way = Way {
        columns: 0,
        kind: StopKind::Left,
    };
    let mut rest = stops;
    while let Some((stop, others)) = rest.split_first() {
        way = nearer(way, place, *stop);
        rest = others;
    }
    if way.columns == 0 { None } else { Some(way) }
}

/// The shorter of a way and that from a place to a stop, and of two that are as long the first. One
/// of no columns is no way.
#[inline(always)]
fn nearer(way: Way, place: u32, stop: TabStop) -> Way
    ensures { way_of result ≡ shorter_way (way_of way) (way_beyond place stop) }
{
    let columns = stop.column.saturating_sub(place);
    if is_shorter(columns, way.columns) {
        Way {
            columns,
            kind: stop.kind,
        }
    } else {
        way
    }
}

/// Whether there are columns, and fewer than others, where there are others.
#[inline(always)]
fn is_shorter(columns: u32, others: u32) -> bool
    ensures { result ≡ (nat_lt 0 columns && (others == 0 || nat_lt columns others)) }
{
    columns.wrapping_sub(1) < others.wrapping_sub(1)
}
