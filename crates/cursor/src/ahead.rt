// The next word of a text, by places.
ghost use Rattle.std.specs.Prelude.{◌≡◌, ℕ, ◌<◌, ◌≤◌, length};
ghost use Rattle.units.specs.Units.{units};
ghost use Rattle.words.specs.Places.{from};
ghost use Rattle.cursor.specs.Ahead.{short, ahead_words, ahead_of};

use super::pieces::Piece;
use units::run_of;
use words::{Slip, Terminal, Token, read};

// A word or what is no word, each with the place behind it; or the end of the text.
// The words go on behind a slip, so the place behind it stands here too: no code reads it, but what is ahead is said through it.
// Three named cases, where an Option of a Result would hold the place behind either in a pair about it.
#[derive(Clone, Copy)]
pub enum Ahead {
    Word(Piece, u16),
    Slip(Slip, u16, u16),
    End,
}

// The first 65535 units.
pub fn short_text(text: &[u8]) -> &[u8]
    ensures value { units result.now ≡ short (units text.now) }
    ensures bound { length (units result.now) ≤ 65535 }
{
    run_of(text, 0, u16::MAX)
}

fn of_token(token: Token, at: u16, end: u16) -> Ahead
    requires { at < end }
    ensures { result ≡ ahead_of token.entry at end }
{
    let piece = match token {
        Token::Symbol(terminal) | Token::Keyword(terminal) => Piece::plain(terminal, at),
        Token::Ident(_) => Piece::named(at, end),
        Token::Str(_) => Piece::quoted(Terminal::Literal, at, end),
        Token::TypeName(terminal, _) => Piece::quoted(terminal, at, end),
        Token::Slip(slip) => return Ahead::Slip(slip, at, end),
    };
    Ahead::Word(piece, end)
}

// The first word from a place on.
pub fn look_from(text: &[u8], start: u16) -> Ahead
    ensures { ahead_words (short (units text.now)) result ≡ from (short (units text.now)) start }
{
    let text = short_text(text);
    match read(text, usize::from(start)) {
        Some(l) => of_token(l.token, l.at as u16, l.end as u16),
        None => Ahead::End,
    }
}
