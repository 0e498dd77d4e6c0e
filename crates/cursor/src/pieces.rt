// A word by places in its text, and why reading stops.
ghost use Rattle.std.specs.Prelude.{◌≡◌, ◌+◌, ◌-◌, ◌<◌};
ghost use Rattle.std.specs.List.{list_any};
ghost use Rattle.units.specs.Units.{units};
ghost use Rattle.words.specs.Terminals.{is, terminal};
ghost use Rattle.cursor.specs.Pieces.{word_of};
ghost use Rattle.cursor.specs.Reading.{beside};
ghost use Rattle.words.specs.declared.terminals.Terminal.TheVariants.{Identifier};

use units::run_of;
use words::Terminal;

// A word of the text: the place of its first unit, and where the units of a name or of what is quoted lie.
#[derive(Clone, Copy, PartialEq, Eq, Debug, Default)]
pub struct Piece {
    pub terminal: Terminal,
    pub at: u16,
    pub from: u16,
    pub len: u16,
}

impl Piece {
    // Its units in the text where it is read.
    pub fn text<'a>(&self, text: &'a [u8]) -> &'a [u8]
        ensures { units result.now ≡ (word_of (units text.now) self.now).text }
    {
        run_of(text, usize::from(self.from), self.len)
    }

    // Is it a word of one of these terminals?
    pub(crate) fn is_any(&self, kinds: &[Terminal]) -> bool
        ensures { result ≡ list_any (λ k. is k (terminal self.now.terminal)) kinds.now }
    {
        kinds.contains(&self.terminal)
    }

    // What stands in a table beside the word's terminal.
    pub(crate) fn beside<T: Copy>(&self, table: &[(Terminal, T)]) -> Option<T>
        ensures { result ≡ beside table.now (terminal self.now.terminal) }
    {
        table
            .iter()
            .find(|entry| entry.0 == self.terminal)
            .map(|entry| entry.1)
    }

    // A word that has no units of its own.
    pub(crate) fn plain(terminal: Terminal, at: u16) -> Piece
        ensures { result ≡ record { terminal = terminal; at = at; from = 0; len = 0 } }
    {
        Piece {
            terminal,
            at,
            from: 0,
            len: 0,
        }
    }

    // A name, all of whose units are its own.
    pub(crate) fn named(at: u16, end: u16) -> Piece
        ensures { result ≡ record { terminal = Identifier; at = at; from = at; len = end - at } }
    {
        Piece {
            terminal: Terminal::Identifier,
            at,
            from: at,
            len: end.saturating_sub(at),
        }
    }

    // What is quoted lies between the quotes.
    pub(crate) fn quoted(terminal: Terminal, at: u16, end: u16) -> Piece
        requires { at < end }
        ensures { result ≡ record { terminal = terminal; at = at; from = at + 1; len = end - at - 2 } }
    {
        Piece {
            terminal,
            at,
            from: at + 1,
            len: (end - at).saturating_sub(2),
        }
    }
}

// Why reading stopped: at a word without use, or at an item past its limit.
#[derive(Clone, Copy, PartialEq, Eq, Debug)]
pub enum Stop {
    Useless,
    Past,
}
