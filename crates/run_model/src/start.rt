//! What is given to a run besides its limits.

ghost use Rattle.std.specs.Prelude.{◌≡◌, ◌++◌, ◌∷◌, ◌<◌, [], ◌↔◌, IsOk, None, OnOk, OnErr};
ghost use Rattle.arrayvec.specs.ArrayVec.{array_vec_len};

use arrayvec::ArrayVec;
use roff_num::Num;

/// What is given to a run besides its limits.
///
/// ```text
/// let mut start = Start::new();
/// start.first_page = Some(Num(5));
/// start.add_pages(Num(6), Num(8))?; // pages 6 to 8 are written
/// start.add_register(b'a', Num(5))?; // as `.nr a 5` in front of the document
/// ```
#[derive(Drop)]
pub struct Start {
    /// The number of the first page, if it isn't to be 1.
    pub first_page: Option<Num>,
    /// The pages that are written: those of these numbers, each with the first and the last of a
    /// range. Without any range all are.
    pub pages: ArrayVec<(Num, Num), 32>,
    /// The number registers that are set before anything is read, one after another: each with its
    /// name, of one byte, and its value. One that the limit on names refuses ends the run, on line
    /// 1.
    pub registers: ArrayVec<(u8, Num), 64>,
}

/// As many ranges of pages are given to a run as can be: 32.
#[derive(Clone, Copy)]
pub struct TooManyRanges;

/// As many registers are given to a run as can be: 64.
#[derive(Clone, Copy)]
pub struct TooManyRegisters;

impl Default for Start {
    ghost is_default = { λ s.
        (s.first_page ≡ None) × (s.pages.items ≡ []) × (s.registers.items ≡ []) };

    fn default() -> Start {
        Start::new()
    }
}

impl Start {
    /// Nothing is given.
    pub fn new() -> Start
        ensures first_page { result.first_page ≡ None }
        ensures pages { result.pages.items ≡ [] }
        ensures registers { result.registers.items ≡ [] }
    {
        Start {
            first_page: None,
            pages: ArrayVec::new(),
            registers: ArrayVec::new(),
        }
    }

    /// The pages of these numbers are to be written, and those between them, besides those that are
    /// given.
    ///
    /// # Errors
    ///
    /// [`TooManyRanges`] if 32 are given; nothing changed then.
    pub fn add_pages(&mut self, first: Num, last: Num) -> Result<(), TooManyRanges>
        ensures variant { IsOk result ↔ (array_vec_len self.old.pages < 32) }
        ensures added { OnOk result (self.new.pages.items
            ≡ self.old.pages.items ++ (first, last) ∷ []) }
        ensures full { OnErr result (self.new ≡ self.old) }
    {
        match self.pages.try_push((first, last)) {
            Ok(()) => Ok(()),
            Err(_) => Err(TooManyRanges),
        }
    }

    /// One register more is to be set, behind those that are given.
    ///
    /// # Errors
    ///
    /// [`TooManyRegisters`] if 64 are given; nothing changed then.
    pub fn add_register(&mut self, name: u8, value: Num) -> Result<(), TooManyRegisters>
        ensures variant { IsOk result ↔ (array_vec_len self.old.registers < 64) }
        ensures added { OnOk result (self.new.registers.items
            ≡ self.old.registers.items ++ (name, value) ∷ []) }
        ensures full { OnErr result (self.new ≡ self.old) }
    {
        match self.registers.try_push((name, value)) {
            Ok(()) => Ok(()),
            Err(_) => Err(TooManyRegisters),
        }
    }
}
