// What a refusal says: its cause, the place, and in a step the rule and the tuple.
// A cause has a number, and the number's tens digit is the layer that refused.
// Every refusal of the product is one of these values, and rises unchanged.
#![tactic(auto)]

ghost use Rattle.std.specs.Prelude.{◌/◌, ◌≡◌, Some};
ghost use Rattle.faults.specs.Numbers.{number_of, layer_of, digit_of};
ghost use Rattle.faults.specs.At.{fault_at};
ghost use Rattle.faults.specs.Words.{words_of, told};

use std::fmt;

#[derive(Clone, Copy, PartialEq, Eq, Debug)]
pub enum Cause {
    TextTooLong = 11,
    OddByteCount = 12,
    IllFormedRuleText = 13,
    UnknownCharacter = 21,
    StringNotClosed = 22,
    WordTooLong = 23,
    UnexpectedWord = 31,
    OverLimit = 41,
    RepeatedIdentifier = 42,
    UnknownIdentifier = 43,
    MalformedPattern = 44,
    PatternOverLimit = 45,
    PartsTooShort = 46,
    NotAPacket = 51,
    LengthMismatch = 52,
    TooManyClaims = 53,
    ClaimPastEnd = 54,
    UnknownValueType = 55,
    BooleanOverOne = 56,
    IllFormedText = 57,
    UncarriableClaim = 64,
    LiteralDoesNotConvert = 71,
    TypeMismatch = 72,
    BufferTooShort = 81,
    PacketTooLarge = 82,
    StoreFull = 91,
    CutOutside = 92,
}

#[derive(Clone, Copy, PartialEq, Eq, Debug)]
pub enum Layer {
    Text = 1,
    Words = 2,
    Grammar = 3,
    Checks = 4,
    Packet = 5,
    Session = 6,
    Forming = 7,
    Output = 8,
    Store = 9,
}

// Rules, and the matching tuples of a rule, count from 1; both are 0 outside a step.
#[derive(Clone, Copy, PartialEq, Eq, Debug)]
pub struct Fault {
    pub cause: Cause,
    pub place: u16,
    pub rule: u16,
    pub tuple: u64,
}

impl Cause {
    pub fn number(self) -> u8
        ensures { result ≡ number_of self }
    {
        self as u8
    }

    pub fn layer(self) -> Layer
        ensures value { result ≡ layer_of self }
        ensures tens { digit_of result ≡ number_of self / 10 }
    {
        match self {
            Cause::TextTooLong | Cause::OddByteCount | Cause::IllFormedRuleText => Layer::Text,
            Cause::UnknownCharacter | Cause::StringNotClosed | Cause::WordTooLong => Layer::Words,
            Cause::UnexpectedWord => Layer::Grammar,
            Cause::OverLimit
            | Cause::RepeatedIdentifier
            | Cause::UnknownIdentifier
            | Cause::MalformedPattern
            | Cause::PatternOverLimit
            | Cause::PartsTooShort => Layer::Checks,
            Cause::NotAPacket
            | Cause::LengthMismatch
            | Cause::TooManyClaims
            | Cause::ClaimPastEnd
            | Cause::UnknownValueType
            | Cause::BooleanOverOne
            | Cause::IllFormedText => Layer::Packet,
            Cause::UncarriableClaim => Layer::Session,
            Cause::LiteralDoesNotConvert | Cause::TypeMismatch => Layer::Forming,
            Cause::BufferTooShort | Cause::PacketTooLarge => Layer::Output,
            Cause::StoreFull | Cause::CutOutside => Layer::Store,
        }
    }

    pub fn words(self) -> &'static str
        ensures { result.now ≡ words_of self }
    {
        match self {
            Cause::TextTooLong => "the rule text has over 32768 bytes",
            Cause::OddByteCount => "the rule text has an odd number of bytes",
            Cause::IllFormedRuleText => "a unit 0000 or half of a surrogate pair in the rule text",
            Cause::UnknownCharacter => "no word begins with this character",
            Cause::StringNotClosed => "the string is not closed on its line",
            Cause::WordTooLong => "an identifier over 31 units or a string over 255",
            Cause::UnexpectedWord => "the grammar has no use for this word",
            Cause::OverLimit => "a rule, selection or condition past its limit",
            Cause::RepeatedIdentifier => "an earlier selection of the rule has this identifier",
            Cause::UnknownIdentifier => "no selection of the rule has this identifier",
            Cause::MalformedPattern => "the pattern is malformed",
            Cause::PatternOverLimit => "the pattern nests over 8 deep or has over 60 atoms",
            Cause::PartsTooShort => "the buffer for the parts is too short",
            Cause::NotAPacket => "not a packet of version 1",
            Cause::LengthMismatch => "the length is not that of the bytes present",
            Cause::TooManyClaims => "more than 256 claims",
            Cause::ClaimPastEnd => "a claim runs past the end",
            Cause::UnknownValueType => "an unknown value type",
            Cause::BooleanOverOne => "a boolean that is neither 0 nor 1",
            Cause::IllFormedText => "a text with a unit 0000 or half of a surrogate pair",
            Cause::UncarriableClaim => "a claim that a packet cannot carry",
            Cause::LiteralDoesNotConvert => "the literal does not convert to the value type",
            Cause::TypeMismatch => "a value of another kind than the new claim asks for",
            Cause::BufferTooShort => "the buffer is too short",
            Cause::PacketTooLarge => "more than a packet carries",
            Cause::StoreFull => "the store is full",
            Cause::CutOutside => "a cut outside floor and length",
        }
    }
}

impl fmt::Display for Cause {
    ghost output = { λ c. Some (words_of c) };

    fn fmt<W: fmt::Write>(&self, f: &mut fmt::Formatter<W>) -> fmt::Result {
        f.pad(self.words())
    }
}

impl Layer {
    pub fn digit(self) -> u8
        ensures { result ≡ digit_of self }
    {
        self as u8
    }
}

impl Fault {
    // A fault outside a step.
    pub fn at(cause: Cause, place: u16) -> Fault
        ensures { result ≡ fault_at cause place }
    {
        Fault {
            cause,
            place,
            rule: 0,
            tuple: 0,
        }
    }
}

// The number, the place and the cause in words.
impl fmt::Display for Fault {
    ghost output = { λ f. Some (told f) };

    fn fmt<W: fmt::Write>(&self, f: &mut fmt::Formatter<W>) -> fmt::Result {
        write!(
            f,
            "{} at {}: {}",
            self.cause.number(),
            self.place,
            self.cause
        )
    }
}
