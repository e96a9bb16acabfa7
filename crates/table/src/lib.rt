// Reading a program table (document 01, "The program table", "When a call is turned down").
#![tactic(auto)]

ghost use Rattle.std.specs.Prelude.{◌≡◌};
ghost use Rattle.model.specs.Accept.{accept, answer_of};
ghost use Rattle.model.specs.Answers.{refused_reading};
ghost use Rattle.model.specs.Refusals.{read_refusal};

mod expr;
mod stmt;
mod table;
mod usage;

// Reads a table and answers its facts, or why it is refused, and at which place.
pub fn read(table: &[u8]) -> Result<model::Facts, model::Refusal>
    ensures answer { result ≡ answer_of (accept table.now) }
    ensures refusal { refused_reading result ≡ read_refusal (accept table.now) }
{
    crate::table::read_table(table)
}
