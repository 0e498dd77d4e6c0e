// Rules as they are read, by places in the rule text.
use actions::ActionRead;
use conditions::Selections;
use list::Few;

#[derive(Clone, Copy, Default)]
pub struct Rule {
    pub at: u16,
    pub selections: Selections,
    pub action: ActionRead,
}

// As many rules as a text may have.
pub const MAX_RULES: usize = 32;

pub type Rules = Few<Rule, MAX_RULES>;
