// A word as it is read: its terminal, and the units of a name or of what is quoted.
// Units that are no word are a token too, and no error beside it, since they are the text's last word.
use super::terminals::{Slip, Terminal};

#[derive(Clone, Copy)]
pub enum Token<'a> {
    Symbol(Terminal),
    Keyword(Terminal),
    Ident(&'a [u8]),
    Str(&'a [u8]),
    TypeName(Terminal, &'a [u8]),
    Slip(Slip),
}

// A token with the place of its first unit and the place behind it.
#[derive(Clone, Copy)]
pub struct Lexeme<'a> {
    pub token: Token<'a>,
    pub at: usize,
    pub end: usize,
}
