// Rules that were checked: only loading makes them.
ghost use Rattle.std.specs.Prelude.{◌≡◌, true, length};
ghost use Rattle.parts.specs.Laid.{lay_rules};
ghost use Rattle.rules.specs.Buffer.{padded, tree_of};
ghost use Rattle.rules.specs.Judged.{is_accepted, judged};

use parts::Part;

pub mod load;

// The text, its parts with blanks behind them, and the number of its rules.
#[derive(Clone, Copy, PartialEq, Eq, Debug)]
pub struct Rules<'a> {
    text: &'a [u8],
    parts: &'a [Part],
    count: u16,
    ghost accepted: { is_accepted (judged text.now (length parts.now)) ≡ true },
    ghost laid: { parts.now ≡ padded (length parts.now) (lay_rules (tree_of text.now)) },
    ghost counted: { count ≡ length (tree_of text.now) },
}
