//! What a command line asks for.

use crate::pages::Pages;
use crate::registers::Registers;
use roff_num::{Limits, Num};
use tbl_core::TblLimits;

/// A command, with what its options ask for.
#[derive(Clone, Copy)]
pub enum Asked {
    /// To format text, within these limits.
    Nroff(Limits),
    /// To put pictures in the places of tables, within these limits and for this line length, in
    /// columns.
    Tbl(TblLimits, u32),
    /// Both, one behind the other.
    Both(Limits, TblLimits, u32),
}

/// What a command line asks for.
#[derive(Drop)]
pub struct Request<'a> {
    /// The command, with its options.
    pub asked: Asked,
    /// The files to be read, in their order. [`STANDARD_INPUT`](crate::STANDARD_INPUT) is among
    /// them where it is meant.
    pub files: Vec<&'a str>,
    /// The number of the first page, if one is asked for.
    pub first_page: Option<Num>,
    /// The pages that are to be written.
    pub pages: Pages<'a>,
    /// The number registers that are to be set before anything is read.
    pub registers: Registers<'a>,
}
