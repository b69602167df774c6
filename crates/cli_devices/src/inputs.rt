//! The input: opened files and standard input, read one after another as one.

ghost use Rattle.std.specs.Prelude.{◌≡◌, ◌<◌, ⊤, ℕ, List, [], IfNone, IfSome, length};
ghost use Rattle.cli_devices.specs.declared.inputs.Part.{Part};
ghost use Rattle.cli_devices.specs.Inputs.Part.{part_gives, some_part};
ghost use Rattle.input_source.specs.BlockRead.{Reads};

use input_source::{BlockRead, Given, StdRead};
use std::collections::VecDeque;
use std::fs;
use std::marker::Model;
use std::rt::Files;

/// Where the input comes from: files by their names, and standard input.
pub trait Readers {
    /// A file that was opened.
    type File: BlockRead + Drop;

    /// Standard input.
    type Standard: BlockRead + Drop;

    /// What may be opened under a name.
    ghost opens: { Self → List ℕ → Self.File → Type 0 };

    /// Which names were refused.
    ghost refuses: { Self → List ℕ → Type 0 };

    /// What may be had as standard input.
    ghost stands: { Self → Self.Standard → Type 0 };

    /// The file of this name, if it can be opened.
    fn open(&self, name: &str) -> Option<Self::File>
        ensures opened { IfSome result (λ file. opens self.now name.now file) }
        ensures refused { IfNone result (refuses self.now name.now) };

    /// Standard input.
    fn standard(&self) -> Self::Standard
        ensures { stands self.now result };
}

// Of the system nothing is known: neither what a file of a name has, nor what is typed.
impl<R: Files + Input> Readers for R {
    type File = StdRead<R::File>;

    type Standard = StdRead<R::Reader>;

    ghost opens = { λ _ _ _. ⊤ };

    ghost refuses = { λ _ _. ⊤ };

    ghost stands = { λ _ _. ⊤ };

    fn open(&self, name: &str) -> Option<StdRead<R::File>> {
        match fs::open(self, name) {
            Ok(reader) => Some(StdRead { reader }),
            Err(_) => None,
        }
    }

    fn standard(&self) -> StdRead<R::Reader> {
        StdRead {
            reader: self.reader(),
        }
    }
}

/// One part of the input.
#[derive(Drop)]
pub enum Part<F, S> {
    /// A file that was opened.
    File(F),
    /// Standard input.
    Standard(S),
}

impl<F: BlockRead, S: BlockRead> BlockRead for Part<F, S> {
    ghost gives = { part_gives F.gives S.gives };

    fn read_block(&mut self, block: &mut [u8]) -> Given {
        match self {
            Part::File(file) => file.read_block(block),
            Part::Standard(standard) => standard.read_block(block),
        }
    }

    ghost some = { some_part F.gives S.gives F.some S.some };
}

/// The parts of the input that are left, as one reader: at the end of a part the next one goes on.
/// A file is closed where its end is met.
#[derive(Drop)]
pub struct Inputs<F, S> {
    parts: VecDeque<Part<F, S>>,
}

impl<F, S> Model for Inputs<F, S> {
    ghost Value = { List (Part F S) };

    ghost view = { λ s. s.parts.items };
}

impl<F, S> Inputs<F, S> {
    /// Reads `parts` in their order.
    pub fn new(parts: Vec<Part<F, S>>) -> Inputs<F, S>
        ensures { result ≡ parts.items }
    {
        Inputs {
            parts: VecDeque::from_vec(parts),
        }
    }
}

impl<F: BlockRead + Drop, S: BlockRead + Drop> BlockRead for Inputs<F, S> {
    ghost use Rattle.cli_devices.specs.Inputs.Giving.{inputs_give, some_input};

    ghost gives = { inputs_give F.gives S.gives };

    /// Reads the first part once, and the next ones only where it is at its end. An error is
    /// passed on.
    fn read_block(&mut self, block: &mut [u8]) -> Given {
        while let Some(part) = self.parts.front_mut() {
            match part.read_block(block) {
                Given::Bytes(count) => return Given::Bytes(count),
                Given::Error => return Given::Error,
                Given::Nothing => {
                    let _ended = self.parts.pop_front();
                }
            }
        }
        Given::Nothing
    }

    ghost some = { some_input F.gives S.gives F.some S.some };
}
