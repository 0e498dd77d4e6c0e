// What can be wrong with a line of a claims list, in words.
ghost use Rattle.std.specs.Prelude.{◌≡◌, Some};
ghost use Rattle.notation.specs.Words.{words_of};

use std::fmt;

#[derive(Clone, Copy, PartialEq, Eq, Debug)]
pub enum Mistake {
    NotUtf8,
    MissingValueType,
    MissingValue,
    UnknownValueType,
    NotANumber,
    NumberOutOfRange,
    NotABoolean,
    TextNotClosed,
    BadEscape,
    TextTooLong,
    IllFormedText,
    NoBlankAfterField,
    MoreAfterValue,
    TooManyClaims,
    TextsTooLarge,
}

// The words stand here, and `Display` pads them: the clauses of both name the text, and a derived `Display` has no clause.
impl Mistake {
    pub fn words(self) -> &'static str
        ensures { result.now ≡ words_of self }
    {
        match self {
            Mistake::NotUtf8 => "not UTF-8 text",
            Mistake::MissingValueType => "a value type and a value are missing",
            Mistake::MissingValue => "a value is missing",
            Mistake::UnknownValueType =>
                "the value type is none of uint64, int64, string and boolean",
            Mistake::NotANumber => "not a decimal number",
            Mistake::NumberOutOfRange => "the number is out of range",
            Mistake::NotABoolean => "a boolean is true, false, 1 or 0",
            Mistake::TextNotClosed => "the quoted text is not closed",
            Mistake::BadEscape => "the escape is none of \\\", \\\\, \\t, \\n and \\uXXXX",
            Mistake::TextTooLong => "the text is longer than 255 units",
            Mistake::IllFormedText => "the text has a unit 0000 or half of a surrogate pair",
            Mistake::NoBlankAfterField => "a blank is missing after the field",
            Mistake::MoreAfterValue => "something stands after the value",
            Mistake::TooManyClaims => "more than 256 claims",
            Mistake::TextsTooLarge => "the texts are more than a packet carries",
        }
    }
}

impl fmt::Display for Mistake {
    ghost output = { λ m. Some (words_of m) };

    fn fmt<W: fmt::Write>(&self, f: &mut fmt::Formatter<W>) -> fmt::Result {
        f.pad(self.words())
    }
}
