// Characters, one by one: blanks, escapes and hex digits.
ghost use Rattle.std.specs.Prelude.{◌≡◌, ◌<◌, IfSome};
ghost use Rattle.notation.specs.Letters.{blank, escape_of, hex_of, unit_of_hex};

// A space or a tab.
pub fn is_blank(c: char) -> bool
    ensures { result ≡ blank c }
{
    c == ' ' || c == '\t'
}

// The unit that a letter after a backslash stands for.
pub fn escape_unit(c: char) -> Option<u16>
    ensures { result ≡ escape_of c }
{
    match c {
        '"' => Some(0x22),
        '\\' => Some(0x5C),
        't' => Some(0x09),
        'n' => Some(0x0A),
        _ => None,
    }
}

// The value of a hex digit.
fn hex_digit(c: char) -> Option<u16>
    ensures value { result ≡ hex_of c }
    ensures small { IfSome result (λ v. v < 16) }
{
    let value = c.to_digit(16)?;
    Some(value as u16)
}

// The unit that four hex digits spell.
pub fn hex_unit(a: char, b: char, c: char, d: char) -> Option<u16>
    ensures { result ≡ unit_of_hex a b c d }
{
    let w = hex_digit(a)?;
    let x = hex_digit(b)?;
    let y = hex_digit(c)?;
    let z = hex_digit(d)?;
    Some(w * 4096 + x * 256 + y * 16 + z)
}
