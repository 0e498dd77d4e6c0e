// The four value types, and a value of one of them.
ghost use Rattle.std.specs.Prelude.{◌≡◌, false};
ghost use Rattle.std.specs.List.{find};
ghost use Rattle.units.specs.Fold.{same_units};
ghost use Rattle.units.specs.Units.{units};
ghost use Rattle.claims.specs.Meaning.{name_of, named};
ghost use Rattle.claims.specs.Kinds.{kind_of};
ghost use Rattle.claims.specs.declared.values.Value.TheVariants.{Boolean};

use super::texts::Text;
use units::spells;

#[derive(Clone, Copy, PartialEq, Eq, Debug)]
pub enum ValueType {
    Uint64,
    Int64,
    String,
    Boolean,
}

#[derive(Clone, Copy, PartialEq, Eq, Debug)]
pub enum Value {
    Uint64(u64),
    Int64(i64),
    String(Text),
    Boolean(bool),
}

impl ValueType {
    const ALL: [ValueType; 4] = [
        ValueType::Uint64,
        ValueType::Int64,
        ValueType::String,
        ValueType::Boolean,
    ];

    // Its word, in lower case.
    pub fn name(self) -> &'static [u8]
        ensures { result.now ≡ name_of self }
    {
        match self {
            ValueType::Uint64 => b"uint64",
            ValueType::Int64 => b"int64",
            ValueType::String => b"string",
            ValueType::Boolean => b"boolean",
        }
    }

    fn is_spelt(self, word: &[u8]) -> bool
        ensures { result ≡ same_units (units word.now) (name_of self) }
    {
        spells(word, self.name())
    }
}

// By hand: `#[default]` stands only at a variant without a field, and a value has none.
impl Default for Value {
    fn default() -> Value
        ensures { result ≡ Boolean false }
    {
        Value::Boolean(false)
    }
}

impl Value {
    // The type that the value is of, whatever its text may be.
    pub fn kind(self) -> ValueType
        ensures { result ≡ kind_of self }
    {
        match self {
            Value::Uint64(_) => ValueType::Uint64,
            Value::Int64(_) => ValueType::Int64,
            Value::String(_) => ValueType::String,
            Value::Boolean(_) => ValueType::Boolean,
        }
    }
}

// The first of the kinds that the word spells.
fn first_spelt(word: &[u8], kinds: &[ValueType]) -> Option<ValueType>
    ensures { result ≡ find (λ k. same_units (units word.now) (name_of k)) kinds.now }
{
    kinds.iter().copied().find(|kind| kind.is_spelt(word))
}

// The value type that a word spells, in any case.
pub fn value_type(word: &[u8]) -> Option<ValueType>
    ensures { result ≡ named (units word.now) }
{
    first_spelt(word, &ValueType::ALL)
}
