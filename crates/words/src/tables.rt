// The words that are told by their names.
ghost use Rattle.std.specs.Prelude.{◌≡◌};
ghost use Rattle.units.specs.Units.{units};
ghost use Rattle.words.specs.Tables.{entries};
ghost use Rattle.words.specs.Terminals.{keywords, value_types};
ghost use Rattle.words.specs.Words.{spelled_by};

use super::terminals::Terminal;
use units::spells;

const KEYWORDS: [(&[u8], Terminal); 5] = [
    (b"issue", Terminal::KeyIssue),
    (b"type", Terminal::KeyType),
    (b"value", Terminal::KeyValue),
    (b"valuetype", Terminal::KeyValueType),
    (b"claim", Terminal::KeyClaim),
];

// This crate stands below that of claims, so it names value types by terminals.
const VALUE_TYPES: [(&[u8], Terminal); 4] = [
    (b"uint64", Terminal::Uint64Type),
    (b"int64", Terminal::Int64Type),
    (b"string", Terminal::StringType),
    (b"boolean", Terminal::BooleanType),
];

// The terminal of a table that the units spell, in any case.
fn lookup(table: &[(&[u8], Terminal)], run: &[u8]) -> Option<Terminal>
    ensures { result ≡ spelled_by (entries table.now) (units run.now) }
{
    table
        .iter()
        .find(|entry| spells(run, entry.0))
        .map(|entry| entry.1)
}

pub fn keyword(run: &[u8]) -> Option<Terminal>
    ensures { result ≡ spelled_by keywords (units run.now) }
{
    lookup(&KEYWORDS, run)
}

pub fn value_type(run: &[u8]) -> Option<Terminal>
    ensures { result ≡ spelled_by value_types (units run.now) }
{
    lookup(&VALUE_TYPES, run)
}
