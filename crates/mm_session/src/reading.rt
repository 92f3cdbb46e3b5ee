//! Reading a statement's line and filling its holes with values.
ghost use Rattle.std.specs.Prelude.{◌≡◌, ◌≢◌, IfOk, IsSome, Ok, length};
ghost use Rattle.mm_lang.specs.Templates.{holes_of, template_of};
ghost use Rattle.mm_query.specs.declared.command.Command.{Command as AnyCommand};
ghost use Rattle.mm_statement.specs.Holes.{hole_count};
ghost use Rattle.mm_session.specs.Kinds.{query_of};
ghost use Rattle.mm_session.specs.steps.Readings.{FillsExplain, FillsLine, explained};

use mm_lang::{Command, Template, parse, prepare, templates_read_as_lines};
use mm_statement::fill;
use mm_value::{Refusal, Value};
use std::alloc::{AllocError, Global};

/// Reads a line with this many holes, and returns its command with the holes filled. Fails with `Syntax` and `NumberOutOfRange` as
/// [`fill`] does. May fail with `Memory` if the command allocates.
pub(crate) fn read_filled<'l>(
    alloc: Global,
    line: &'l [u8],
    holes: usize,
    values: &[Value],
) -> Result<Command<'l>, Refusal>
    requires reads { (command : AnyCommand) × (template_of line.now ≡ Ok command) }
    requires holes { holes ≡ hole_count (holes_of line.now) }
    requires values { length values.now ≡ hole_count (holes_of line.now) }
    ensures { FillsLine line.now values.now result }
{
    templates_read_as_lines();
    if holes == 0 {
        parse(alloc, line)
    } else {
        fill_line(alloc, line, values)
    }
}

/// Reads a line with holes, and returns its command with the holes filled.
fn fill_line<'l>(alloc: Global, line: &'l [u8], values: &[Value]) -> Result<Command<'l>, Refusal>
    requires reads { (command : AnyCommand) × (template_of line.now ≡ Ok command) }
    requires holes { hole_count (holes_of line.now) ≢ 0 }
    requires values { length values.now ≡ hole_count (holes_of line.now) }
    ensures { FillsLine line.now values.now result }
{
    templates_read_as_lines();
    let values = copies(alloc, values)?;
    let Template { command, holes } = prepare(alloc, line)?;
    fill(alloc, command, holes.as_slice(), values)
}

/// Reads the line of a SELECT or an EXPLAIN, and returns the EXPLAIN of its query with the holes filled. Fails with `Syntax` and
/// `NumberOutOfRange` as [`fill`] does, and with `Memory` if an allocation fails.
pub(crate) fn read_explain<'l>(
    alloc: Global,
    line: &'l [u8],
    values: &[Value],
) -> Result<Command<'l>, Refusal>
    requires reads { (command : AnyCommand) × (template_of line.now ≡ Ok command) × IsSome (query_of command) }
    requires values { length values.now ≡ hole_count (holes_of line.now) }
    ensures { FillsExplain line.now values.now result }
{
    templates_read_as_lines();
    let values = copies(alloc, values)?;
    let Template { command, holes } = prepare(alloc, line)?;
    fill(alloc, explained(command), holes.as_slice(), values)
}

/// Returns the EXPLAIN of a SELECT's query. Returns any other command unchanged.
fn explained(command: Command<'_>) -> Command<'_>
    ensures { result ≡ explained command.entry }
{
    match command {
        Command::Select(query) => Command::Explain(query),
        other => other,
    }
}

/// Returns copies of values.
fn copies(alloc: Global, values: &[Value]) -> Result<Vec<Value>, AllocError>
    ensures { IfOk result (λ copies. copies.items ≡ values.now) }
{
    let mut copies = Vec::with_capacity(alloc, values.len())?;
    for value in values {
        copies.push(value.copy(alloc)?)?;
    }
    Ok(copies)
}
