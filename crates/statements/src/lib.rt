// The code of statements as a list of instructions: the scheme's list of an accepted table (document 01, "Workspace and code").
#![tactic(auto)]

ghost use Rattle.statements.specs.Tables.{Generates};

mod alt;
mod stmt;

use assembler::Entry;
use numbers::kinds::Declared;

// The list of an accepted table. The answer is its length; entries past the list's end are left out.
pub fn generate(table: &[u8], plan: &plan::Plan, facts: model::Facts, list: &mut [Entry]) -> u32
    ensures { Generates table.now plan.now facts list.old list.new result }
{
    let mut words: expressions::Words = [0; 2112];
    let outer = expressions::Scope {
        depth: model::limits::DEPTH,
        w: facts.words,
        variables: 0,
        channels: 0,
    };
    let outside = word::plus(facts.inputs, facts.outputs);
    let scope = expressions::enter(&mut words, Declared::Channels, outside, outer);
    let start = expressions::Cursor {
        at: numbers::skip(table, numbers::skip(table, 0)),
        here: 0,
    };
    let end = crate::stmt::statement(table, plan, start, scope, &mut words, list);
    end.here
}
