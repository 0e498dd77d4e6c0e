// Where a claims list is wrong, and what stops its reading.
ghost use Rattle.std.specs.Prelude.{◌≡◌, ◌++◌, codes, decimal, Some};
ghost use Rattle.notation.specs.Words.{words_of};
ghost use Rattle.listing.specs.declared.mistakes.Stop.TheVariants.{Memory};

use notation::Mistake;
use std::alloc::{AllocError, AllocFailed};
use std::fmt;

// Lines and columns count from 1, columns by characters.
#[derive(Clone, Copy, PartialEq, Eq, Debug)]
pub struct Misplaced {
    pub mistake: Mistake,
    pub line: usize,
    pub column: usize,
}

// Why a list was not read.
#[derive(Clone, Copy, PartialEq, Eq, Debug)]
pub enum ListError {
    Memory,
    Line(Misplaced),
}

// Why a line was not read; the place counts the line's characters from 0.
#[derive(Clone, Copy, PartialEq, Eq, Debug)]
pub enum Stop {
    Memory,
    At(Mistake, usize),
}

// By hand, both: nobody is told a `Stop`, so it has no message as thiserror's derive asks for, and what the derive writes has no contract.
impl From<AllocError> for Stop {
    ghost from_gives = { λ _ e. e ≡ Memory };

    fn from(_e: AllocError) -> Stop {
        Stop::Memory
    }
}

impl<T: Drop> From<AllocFailed<T>> for Stop {
    ghost from_gives = { λ _ e. e ≡ Memory };

    fn from(_e: AllocFailed<T>) -> Stop {
        Stop::Memory
    }
}

// As a compiler tells a place: line, column, and what is wrong there.
impl fmt::Display for Misplaced {
    ghost output = { λ m. Some (decimal m.line ++ (codes ":" ++ (decimal m.column ++ (codes ": " ++ words_of m.mistake)))) };

    fn fmt<W: fmt::Write>(&self, f: &mut fmt::Formatter<W>) -> fmt::Result {
        let line = self.line;
        let column = self.column;
        let mistake = self.mistake;
        write!(f, "{line}:{column}: {mistake}")
    }
}

impl Stop {
    // The error of a list whose line of a number from 0 was not read.
    pub fn on_line(self, line: usize) -> ListError {
        match self {
            Stop::Memory => ListError::Memory,
            Stop::At(mistake, at) => ListError::Line(Misplaced {
                mistake,
                line: line.saturating_add(1),
                column: at.saturating_add(1),
            }),
        }
    }
}
