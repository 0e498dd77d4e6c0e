// The word at a place of a text.
ghost use Rattle.std.specs.Prelude.{◌≡◌, ℕ, ◌+◌, ◌<◌, ◌≤◌, Bool, true, false, length, drop, ◌≢◌, slice_index};
ghost use Rattle.std.specs.List.{prefix_len};
ghost use Rattle.units.specs.Units.{units};
ghost use Rattle.words.specs.Tokens.{WordAt};
ghost use Rattle.words.specs.Words.{letter};

use super::signs::sign_of;
use super::tables::{keyword, value_type};
use super::terminals::Slip;
use super::tokens::{Lexeme, Token};
use super::units_of::{is_in_name, is_in_string, is_letter};
use units::{Units, count, unit, unit_or_zero};

const MAX_NAME: usize = 31;

const MAX_STRING: usize = 255;

const QUOTE: u16 = 0x22;

// The place behind the longest run of units that belong, from a place on.
#[tactic(auto, using(crate::proofs::Runs::twice_units))]
pub fn past<F: Fn(u16) -> bool>(text: &[u8], from: usize, belongs: F) -> usize
    requires callable { F.IsAlwaysCallable belongs }
    requires within { from ≤ length (units text.now) }
    ensures value { (p : ℕ → Bool) → ((u : ℕ) (b : Bool) → F.post belongs u b → b ≡ p u) → result ≡ from + prefix_len p (drop from (units text.now)) }
    ensures on { from ≤ result }
    ensures bound { result ≤ length (units text.now) }
{
    let run = Units::of(&text[2 * from..]).take_while(|u| belongs(*u));
    from + run.count()
}

// A place at which a unit stands.
#[derive(Clone, Copy)]
pub struct Place<'a> {
    pub text: &'a [u8],
    pub at: usize,
    ghost inside: { at < length (units text.now) },
}

impl<'a> Place<'a> {
    fn lexeme(self, token: Token<'a>, end: usize) -> Lexeme<'a>
        ensures token { result.token ≡ token.entry }
        ensures at { result.at ≡ self.entry.at }
        ensures end { result.end ≡ end }
    {
        Lexeme {
            token,
            at: self.at,
            end,
        }
    }

    // Units that are no word take the rest of the text.
    fn slip(self, why: Slip) -> Lexeme<'a>
        ensures token { result.token ≡ Token.Slip why }
        ensures at { result.at ≡ self.entry.at }
        ensures end { result.end ≡ length (units self.entry.text.now) }
    {
        self.lexeme(Token::Slip(why), count(self.text))
    }

    #[tactic(auto, using(crate::proofs::Runs::twice_units))]
    fn name(self) -> Lexeme<'a>
        requires { letter (slice_index (units self.text.now) self.at) ≡ true }
        ensures { WordAt (units self.entry.text.now) self.entry.at result }
    {
        let Place { text, at } = self;
        let end = past(text, at, is_in_name);
        if end - at > MAX_NAME {
            return self.slip(Slip::TooLong);
        }
        let run = &text[2 * at..2 * end];
        let token = match keyword(run) {
            Some(terminal) => Token::Keyword(terminal),
            None => Token::Ident(run),
        };
        self.lexeme(token, end)
    }

    #[tactic(auto, using(crate::proofs::Runs::twice_units))]
    fn string(self) -> Lexeme<'a>
        requires { slice_index (units self.text.now) self.at ≡ 34 }
        ensures { WordAt (units self.entry.text.now) self.entry.at result }
    {
        let text = self.text;
        let from = self.at + 1;
        let to = past(text, from, is_in_string);
        if unit_or_zero(text, to) != QUOTE {
            return self.slip(Slip::NotClosed);
        }
        if to - from > MAX_STRING {
            return self.slip(Slip::TooLong);
        }
        let run = &text[2 * from..2 * to];
        let token = match value_type(run) {
            Some(terminal) => Token::TypeName(terminal, run),
            None => Token::Str(run),
        };
        self.lexeme(token, to + 1)
    }

    #[tactic(auto, using(crate::proofs::Runs::twice_units))]
    fn symbol(self) -> Lexeme<'a>
        requires no_letter { letter (slice_index (units self.text.now) self.at) ≡ false }
        requires no_quote { slice_index (units self.text.now) self.at ≢ 34 }
        ensures { WordAt (units self.entry.text.now) self.entry.at result }
    {
        let u = unit(self.text, self.at);
        match sign_of(u, unit_or_zero(self.text, self.at + 1)) {
            Some(sign) => self.lexeme(Token::Symbol(sign.terminal), self.at + sign.long),
            None => self.slip(Slip::BeginsNone),
        }
    }

    pub fn word(self) -> Lexeme<'a>
        ensures { WordAt (units self.entry.text.now) self.entry.at result }
    {
        let u = unit(self.text, self.at);
        if is_letter(u) {
            self.name()
        } else if u == QUOTE {
            self.string()
        } else {
            self.symbol()
        }
    }
}
