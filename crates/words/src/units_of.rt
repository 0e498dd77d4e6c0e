// The units that words are made of, told by their characters.
ghost use Rattle.std.specs.Prelude.{◌≡◌, ◌<◌, ◌≤◌};
ghost use Rattle.words.specs.Words.{blank, letter, in_name, in_string};

// The unit as a character; a half of a surrogate pair is the replacement character.
pub fn as_char(u: u16) -> char
    ensures low { u < 55296 → result ≡ u }
    ensures high { 55296 ≤ u → 55296 ≤ result }
{
    char::from_u32(u32::from(u)).unwrap_or(char::REPLACEMENT_CHARACTER)
}

pub fn is_blank(u: u16) -> bool
    ensures { result ≡ blank u }
{
    matches!(as_char(u), ' ' | '\t' | '\n' | '\r')
}

pub fn is_letter(u: u16) -> bool
    ensures { result ≡ letter u }
{
    matches!(as_char(u), '_' | 'A'..='Z' | 'a'..='z')
}

pub fn is_in_name(u: u16) -> bool
    ensures { result ≡ in_name u }
{
    is_letter(u) || as_char(u).is_ascii_digit()
}

pub fn is_in_string(u: u16) -> bool
    ensures { result ≡ in_string u }
{
    !matches!(as_char(u), '"' | '\n')
}
