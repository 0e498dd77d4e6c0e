// A rule and the rules of a text, one function for each production.
ghost use Rattle.std.specs.Prelude.{◌≡◌};
ghost use Rattle.grammar.specs.Parse as G;
ghost use Rattle.grammar.specs.Readers.{next};
ghost use Rattle.cursor.specs.Reading.{Parses, rest};
ghost use Rattle.parser.specs.Shown.{body_of, rule_of, rules_of};

use super::tree::{MAX_RULES, Rule, Rules};
use actions::{ActionRead, rule_action};
use conditions::{Selections, conditions};
use cursor::{Cursor, Stop};
use words::Terminal;

fn rule_body(cursor: &mut Cursor<'_>) -> Result<(Selections, ActionRead), Stop>
    ensures { Parses G.RuleBody body_of cursor.old result cursor.new }
{
    let selections = conditions(cursor)?;
    cursor.expect(Terminal::Imply)?;
    let action = rule_action(cursor)?;
    cursor.expect(Terminal::Semicolon)?;
    Ok((selections, action))
}

pub fn rule(cursor: &mut Cursor<'_>) -> Result<Rule, Stop>
    ensures { Parses G.ARule rule_of cursor.old result cursor.new }
{
    let at = cursor.place();
    let (selections, action) = rule_body(cursor)?;
    Ok(Rule {
        at,
        selections,
        action,
    })
}

pub fn begins_rule(cursor: &Cursor<'_>) -> bool
    ensures { result ≡ next G.rules_begin (rest cursor.now) }
{
    cursor.sees(&[Terminal::OpenSquare, Terminal::Identifier, Terminal::Imply])
}

// The rules up to the first word that begins none.
pub fn rules(cursor: &mut Cursor<'_>) -> Result<Rules, Stop>
    ensures { Parses G.RuleSet rules_of cursor.old result cursor.new }
{
    let mut all = Rules::new();
    for _ in 0..MAX_RULES {
        if !begins_rule(cursor) {
            return Ok(all);
        }
        all.push(rule(cursor)?);
    }
    if begins_rule(cursor) {
        Err(Stop::Past)
    } else {
        Ok(all)
    }
}
