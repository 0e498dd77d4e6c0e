// The terminals of the rule language, and why units are no word.
ghost use Rattle.std.specs.Prelude.{◌≡◌};
ghost use Rattle.words.specs.Terminals.{mark};

#[derive(Clone, Copy, PartialEq, Eq, Debug, Default)]
pub enum Terminal {
    Imply,
    Semicolon,
    Colon,
    Comma,
    Dot,
    OpenSquare,
    CloseSquare,
    OpenRound,
    CloseRound,
    Equal,
    NotEqual,
    Matches,
    NotMatches,
    Assign,
    And,
    KeyIssue,
    KeyType,
    KeyValue,
    KeyValueType,
    KeyClaim,
    #[default]
    Identifier,
    Literal,
    Uint64Type,
    Int64Type,
    StringType,
    BooleanType,
}

// No terminal begins so, a string is not closed, a word is over its limit.
#[derive(Clone, Copy, PartialEq, Eq, Debug)]
pub enum Slip {
    BeginsNone,
    NotClosed,
    TooLong,
}

// The terminal's number in the order of their list.
impl From<Terminal> for u8 {
    ghost from_gives = { λ t n. n ≡ mark t };

    fn from(terminal: Terminal) -> u8 {
        terminal as u8
    }
}
