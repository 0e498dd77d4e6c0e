// The terminals that are told by their characters.
ghost use Rattle.std.specs.Prelude.{◌≡◌};
ghost use Rattle.words.specs.Signs.{sign_of};

use super::terminals::Terminal;
use super::units_of::as_char;

// A terminal, and how many units it takes.
#[derive(Clone, Copy)]
pub struct Sign {
    pub terminal: Terminal,
    pub long: usize,
}

// The longest terminal that begins with the unit, given the unit after it.
pub fn sign_of(u: u16, after: u16) -> Option<Sign>
    ensures { result ≡ sign_of u after }
{
    let (terminal, long) = match (as_char(u), as_char(after)) {
        ('=', '>') => (Terminal::Imply, 2),
        ('=', '=') => (Terminal::Equal, 2),
        ('=', '~') => (Terminal::Matches, 2),
        ('=', _) => (Terminal::Assign, 1),
        ('!', '=') => (Terminal::NotEqual, 2),
        ('!', '~') => (Terminal::NotMatches, 2),
        ('&', '&') => (Terminal::And, 2),
        (';', _) => (Terminal::Semicolon, 1),
        (':', _) => (Terminal::Colon, 1),
        (',', _) => (Terminal::Comma, 1),
        ('.', _) => (Terminal::Dot, 1),
        ('[', _) => (Terminal::OpenSquare, 1),
        (']', _) => (Terminal::CloseSquare, 1),
        ('(', _) => (Terminal::OpenRound, 1),
        (')', _) => (Terminal::CloseRound, 1),
        _ => return None,
    };
    Some(Sign { terminal, long })
}
