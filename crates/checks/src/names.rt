// Identifiers, and the selections that have them.
ghost use Rattle.std.specs.Prelude.{◌≡◌, ◌<◌, take, position, IfSome};
ghost use Rattle.std.specs.Option.{option_map};
ghost use Rattle.units.specs.Units.{units};
ghost use Rattle.cursor.specs.Pieces.{word_of};
ghost use Rattle.parts.specs.Resolved.{is_named, numbered};
ghost use Rattle.checks.specs.Names.{shown};

use conditions::Selections;
use cursor::Piece;
use units::same;

fn has_name(text: &[u8], own: Option<Piece>, name: Piece) -> bool
    ensures { result ≡ is_named (word_of (units text.now) name).text (option_map (word_of (units text.now)) own) }
{
    own.is_some_and(|own| same(own.text(text), name.text(text)))
}

// The selections of a rule, and the text that their places speak of.
#[derive(Clone, Copy)]
pub struct Names<'a> {
    pub text: &'a [u8],
    pub selections: &'a Selections,
}

impl Names<'_> {
    // The number from 0 of the first selection that has the identifier.
    pub fn number_of(&self, name: Piece) -> Option<u16>
        ensures { result ≡ numbered (shown self.now) (word_of (units self.now.text.now) name).text }
    {
        self.number_among(self.selections.len(), name)
    }

    // The same among the first selections only, of this number.
    pub(crate) fn number_among(&self, many: usize, name: Piece) -> Option<u16>
        ensures { result ≡ numbered (take many (shown self.now)) (word_of (units self.now.text.now) name).text }
    {
        let place = self.place_among(many, name)?;
        Some(place as u16)
    }

    fn place_among(&self, many: usize, name: Piece) -> Option<usize>
        ensures value { result ≡ position (λ s. is_named (word_of (units self.now.text.now) name).text (option_map (word_of (units self.now.text.now)) s.name)) (take many self.now.selections.now.items) }
        ensures bound { IfSome result (λ i. i < 4) }
    {
        self.selections
            .iter()
            .take(many)
            .position(|selection| has_name(self.text, selection.name, name))
    }
}
