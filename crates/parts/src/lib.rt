// The parts that a rule text is laid out in: one for each rule, selection and condition, in the order of the text.
// A part is a plain value of places in the text; what it says is read through the text's units.
// An identifier of an action is held as the number of its selection.
#![tactic(auto)]

ghost use Rattle.std.specs.Prelude.{◌≡◌};
ghost use Rattle.units.specs.Units.{units};
ghost use Rattle.parts.specs.Says.{quoted_units};

use actions::Action;
use conditions::Cond;
use units::run_of;

// A quoted word: the place of its opening quote, and how many units stand between the quotes.
#[derive(Clone, Copy, PartialEq, Eq, Debug, Default)]
pub struct Quoted {
    pub at: u16,
    pub len: u16,
}

// An identifier: its place, and the number of the selection that has it.
#[derive(Clone, Copy, PartialEq, Eq, Debug, Default)]
pub struct Reference {
    pub at: u16,
    pub selection: u16,
}

// A rule has its first place, and is followed by its selections; a selection is followed by its conditions.
#[derive(Clone, Copy, PartialEq, Eq, Debug, Default)]
pub enum Part {
    #[default]
    Blank,
    Rule(u16, Action<Quoted, Reference>),
    Selection,
    Condition(Cond<Quoted>),
}

// The units of a quoted word.
pub fn quoted_text(text: &[u8], quoted: Quoted) -> &[u8]
    ensures { units result.now ≡ quoted_units (units text.now) quoted }
{
    run_of(text, usize::from(quoted.at) + 1, quoted.len)
}
