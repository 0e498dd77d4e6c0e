// The next word, and past it.
ghost use Rattle.std.specs.Prelude.{◌≡◌};
ghost use Rattle.units.specs.Units.{units};
ghost use Rattle.words.specs.Words.{words};
ghost use Rattle.grammar.specs.Parse as G;
ghost use Rattle.grammar.specs.Readers.{next, t};
ghost use Rattle.cursor.specs.Ahead.{short};
ghost use Rattle.cursor.specs.Reading.{Parses, rest, Reading, text_of, any_of, choice, Takes};
ghost use Rattle.cursor.specs.Pieces.{word_of};

use super::super::ahead::{Ahead, look_from};
use super::super::pieces::{Piece, Stop};
use super::Cursor;
use words::Terminal;

impl<'a> Cursor<'a> {
    #[tactic(auto, unfolding(crate::specs::Reading::rest, crate::specs::Reading::text_of))]
    pub fn new(text: &'a [u8]) -> Cursor<'a>
        ensures words { rest result ≡ words (text_of result) }
        ensures text { text_of result ≡ short (units text.now) }
    {
        Cursor {
            text,
            ahead: look_from(text, 0),
        }
    }

    // Is the next word one of these terminals?
    pub fn sees(&self, kinds: &[Terminal]) -> bool
        ensures { result ≡ next kinds.now (rest self.now) }
    {
        match self.ahead {
            Ahead::Word(piece, _) => piece.is_any(kinds),
            _ => false,
        }
    }

    // Past the next word, for what is chosen of it; or a stop before it.
    fn take<T, F: FnOnce(Piece) -> Option<T>>(&mut self, choose: F) -> Result<T, Stop>
        requires { F.IsAlwaysCallable choose }
        ensures { Takes (F.post choose) self.old result self.new }
    {
        let Ahead::Word(piece, end) = self.ahead else {
            return Err(Stop::Useless);
        };
        let chosen = choose(piece).ok_or(Stop::Useless)?;
        self.ahead = look_from(self.text, end);
        Ok(chosen)
    }

    // One word, which is one of these terminals.
    pub fn expect_any(&mut self, kinds: &[Terminal]) -> Result<Piece, Stop>
        ensures { Parses (any_of kinds.now) word_of self.old result self.new }
    {
        self.take(|piece| piece.is_any(kinds).then_some(piece))
    }

    // One word of a table's terminals, for what stands beside the terminal.
    pub fn expect_as<T: Copy>(&mut self, table: &[(Terminal, T)]) -> Result<T, Stop>
        ensures { Parses (choice table.now) (λ us x. x) self.old result self.new }
    {
        self.take(|piece| piece.beside(table))
    }

    // One word of this terminal.
    pub fn expect(&mut self, k: Terminal) -> Result<Piece, Stop>
        ensures { Parses (t k) word_of self.old result self.new }
    {
        self.expect_any(&[k])
    }

    // One of the four value types.
    pub fn value_type_literal(&mut self) -> Result<Piece, Stop>
        ensures { Parses G.ValueTypeLiteral word_of self.old result self.new }
    {
        self.expect_any(&[
            Terminal::Int64Type,
            Terminal::Uint64Type,
            Terminal::StringType,
            Terminal::BooleanType,
        ])
    }
}
