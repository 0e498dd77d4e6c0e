// A claim: the text of its type, its value-type word as it was written, and its value.
// A record holds its texts by origin, place and length; the rule text and the packet give them back.
// A source means a list of records, at most 512, whatever it is made of.
#![tactic(auto)]

mod records;
mod sources;
mod texts;
mod values;

pub use records::Claim;
pub use sources::{Claims, Listed, One, Source};
pub use texts::{Origin, Part, Text, Texts};
pub use values::{Value, ValueType, value_type};
