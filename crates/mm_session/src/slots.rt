//! Prepared statements by number.
ghost use Rattle.std.specs.List.{All, position};
ghost use Rattle.std.specs.Option.{IfNone};
ghost use Rattle.std.specs.Prelude.{◌≡◌, IfErr, IfOk, IfSome, List, None, OnErr, OnOk, Some, false, is_none, length, map, slice_set, ℕ};
ghost use Rattle.mm_reply.specs.Sinks.{Delivers};
ghost use Rattle.mm_schema.specs.Schema.{Schema};
ghost use Rattle.mm_session.specs.Session.{AreTaken};
ghost use Rattle.mm_session.specs.Statements.{AreColumnsFound, ExplainsFound, IsKindOf, IsMisused, IsUnexplained, LacksColumns, RunsFound};
ghost use Rattle.mm_session.specs.Statements.{line_at, parameters_at};
ghost use Rattle.mm_session.specs.declared.misuse.Misuse.TheVariants.{NoSuchStatement};
ghost use Rattle.mm_session.specs.steps.Forms.{IsReady, IsReadyStatement};
ghost use Rattle.mm_session.specs.steps.Places.{PutsStatement, forgotten, line_in};
ghost use Rattle.mm_session.specs.steps.Templates.{AreReady};

use crate::columns::columns_of_line;
use crate::misuse::{ColumnsError, Misuse};
use crate::statement::Statement;
use crate::statement_kind::StatementKind;
use crate::templates::Templates;
use mm_reply::ReplySink;
use mm_schema::Column;
use mm_txn::Db;
use mm_value::Value;
use std::alloc::{AllocError, Global};

/// Stores a statement at the least free number, and returns the number. Fails with `AllocError` if an allocation fails; nothing changes
/// then.
pub(crate) fn add(
    statements: &mut Vec<Option<Statement>>,
    statement: Statement,
) -> Result<usize, AllocError>
    ensures ok { IfOk result (λ number. PutsStatement statement number statements.old.items statements.new.items) }
    ensures least { IfOk result (λ number. AreTaken number (map line_in statements.old.items)) }
    ensures err { OnErr result (statements.new.items ≡ statements.old.items) }
{
    match first_free(statements) {
        Some(number) => {
            statements[number] = Some(statement);
            Ok(number)
        }
        None => {
            let number = statements.len();
            statements.push(Some(statement))?;
            Ok(number)
        }
    }
}

/// Returns the least number whose statement was deleted.
fn first_free(statements: &[Option<Statement>]) -> Option<usize>
    ensures { result ≡ position is_none statements.now }
{
    statements.iter().position(|slot| slot.is_none())
}

/// Runs the statement with a number, and passes the reply to a sink. Drops all bound forms if the catalog may have changed.
pub(crate) fn run_at<S: ReplySink>(
    alloc: Global,
    database: &mut Db,
    statements: &mut Vec<Option<Statement>>,
    templates: &mut Templates,
    number: usize,
    values: &[Value],
    sink: &mut S,
) -> Result<S::Taken, Misuse>
    requires can { S.can_take sink.old }
    requires statements { All (IsReady database.old.schema) statements.old.items }
    requires templates { AreReady database.old.schema templates.old }
    ensures ready { All (IsReady database.new.schema) statements.new.items }
    ensures templates { AreReady database.new.schema templates.new }
    ensures lines { map line_in statements.new.items ≡ map line_in statements.old.items }
    ensures ok { IfOk result (λ taken. Delivers S.takes sink.old sink.new taken database.new
        (RunsFound (line_at number (map line_in statements.old.items)) values.now database.old)) }
    ensures err { IfErr result (IsMisused (line_at number (map line_in statements.old.items)) (length values.now)) }
    ensures kept { OnErr result ((database.new ≡ database.old) × (sink.new ≡ sink.old)) }
{
    if number >= statements.len() {
        return Err(Misuse::NoSuchStatement);
    }
    let slot = &mut statements[number];
    let Ran {
        taken,
        is_definition,
    } = run_slot(alloc, database, slot, values, sink)?;
    if is_definition {
        forget_bound_forms(statements);
        templates.forget();
    }
    Ok(taken)
}

/// The result of running a statement.
struct Ran<T> {
    /// The sink's result for the reply.
    taken: T,
    /// Whether the command was a definition, which changes the catalog.
    is_definition: bool,
}

/// Runs the statement of a slot with values. Fails if the slot is empty or the number of values is wrong.
fn run_slot<S: ReplySink>(
    alloc: Global,
    database: &mut Db,
    slot: &mut Option<Statement>,
    values: &[Value],
    sink: &mut S,
) -> Result<Ran<S::Taken>, Misuse>
    requires can { S.can_take sink.old }
    requires ready { IsReady database.old.schema slot.old }
    ensures ready { IsReady database.new.schema slot.new }
    ensures line { line_in slot.new ≡ line_in slot.old }
    ensures ok { IfOk result (λ ran. Delivers S.takes sink.old sink.new ran.taken database.new
        (RunsFound (line_in slot.old) values.now database.old)) }
    ensures schema { IfOk result (λ ran. ran.is_definition ≡ false → database.new.schema ≡ database.old.schema) }
    ensures err { IfErr result (IsMisused (line_in slot.old) (length values.now)) }
    ensures kept { OnErr result ((database.new ≡ database.old) × (sink.new ≡ sink.old)) }
    ensures unchanged { OnErr result (slot.new ≡ slot.old) }
{
    let Some(statement) = slot else {
        return Err(Misuse::NoSuchStatement);
    };
    if statement.holes.count() != values.len() {
        return Err(Misuse::WrongNumberOfValues);
    }
    let is_definition = statement.kind.is_of_catalog();
    let taken = statement.run(alloc, database, values, sink);
    Ok(Ran {
        taken,
        is_definition,
    })
}

/// Returns the statement with a number, if there is one.
pub(crate) fn statement_at(statements: &[Option<Statement>], number: usize) -> Option<&Statement>
    ensures line { IfSome result (λ found. line_at number (map line_in statements.now) ≡ Some found.now.line.items) }
    ensures ready { IfSome result (λ found. (schema : Schema) → All (IsReady schema) statements.now → IsReadyStatement schema found.now) }
    ensures none { IfNone result (line_at number (map line_in statements.now) ≡ None) }
{
    match statements.get(number)? {
        Some(statement) => Some(statement),
        None => None,
    }
}

/// Returns the number of holes of the statement with a number, if there is one.
pub(crate) fn parameters(statements: &[Option<Statement>], number: usize) -> Option<usize>
    requires { (schema : Schema) × All (IsReady schema) statements.now }
    ensures { result ≡ parameters_at number (map line_in statements.now) }
{
    match statements.get(number)? {
        Some(statement) => Some(statement.holes.count()),
        None => None,
    }
}

/// Returns the kind of the statement with a number, if there is one.
pub(crate) fn kind(statements: &[Option<Statement>], number: usize) -> Option<StatementKind>
    requires { (schema : Schema) × All (IsReady schema) statements.now }
    ensures { IsKindOf (line_at number (map line_in statements.now)) result }
{
    match statement_at(statements, number) {
        Some(statement) => Some(statement.kind),
        None => None,
    }
}

/// Returns the columns of the rows that the statement with a number returns in the current catalog. Reads the line again.
pub(crate) fn columns_at<'c>(
    alloc: Global,
    database: &'c Db,
    statements: &[Option<Statement>],
    number: usize,
) -> Result<Vec<&'c Column>, ColumnsError>
    requires { (schema : Schema) × All (IsReady schema) statements.now }
    ensures ok { IfOk result (λ found. AreColumnsFound (line_at number (map line_in statements.now)) database.now
        (map (λ column. column.now) found.items)) }
    ensures err { IfErr result (LacksColumns (line_at number (map line_in statements.now))) }
{
    let Some(statement) = statement_at(statements, number) else {
        return Err(ColumnsError::NoSuchStatement);
    };
    match columns_of_line(alloc, database, statement.line.as_slice()) {
        Ok(columns) => Ok(columns),
        Err(_) => Err(ColumnsError::Memory),
    }
}

/// Runs EXPLAIN with the query of the statement with a number and the holes filled, and passes the reply to a sink. Fails with
/// `NoSuchStatement`, `NoPlan` or `WrongNumberOfValues`.
pub(crate) fn explain_at<S: ReplySink>(
    alloc: Global,
    database: &mut Db,
    statements: &[Option<Statement>],
    number: usize,
    values: &[Value],
    sink: &mut S,
) -> Result<S::Taken, Misuse>
    requires can { S.can_take sink.old }
    requires ready { All (IsReady database.old.schema) statements.now }
    ensures ok { IfOk result (λ taken. Delivers S.takes sink.old sink.new taken database.new
        (ExplainsFound (line_at number (map line_in statements.now)) values.now database.old)) }
    ensures schema { database.new.schema ≡ database.old.schema }
    ensures err { IfErr result (IsUnexplained (line_at number (map line_in statements.now)) (length values.now)) }
    ensures kept { OnErr result ((database.new ≡ database.old) × (sink.new ≡ sink.old)) }
{
    let Some(found) = statement_at(statements, number) else {
        return Err(Misuse::NoSuchStatement);
    };
    if !found.kind.has_plan() {
        return Err(Misuse::NoPlan);
    }
    if found.holes.count() != values.len() {
        return Err(Misuse::WrongNumberOfValues);
    }
    Ok(found.explain(alloc, database, values, sink))
}

/// Deletes the statement with a number. Fails with `NoSuchStatement` if there is none.
pub(crate) fn remove(statements: &mut Vec<Option<Statement>>, number: usize) -> Result<(), Misuse>
    ensures ok { OnOk result (statements.new.items ≡ slice_set statements.old.items number None) }
    ensures stands { OnOk result ((line : List ℕ) × (line_at number (map line_in statements.old.items) ≡ Some line)) }
    ensures err { IfErr result (λ misuse. (misuse ≡ NoSuchStatement) × (line_at number (map line_in statements.old.items) ≡ None)) }
    ensures kept { OnErr result (statements.new.items ≡ statements.old.items) }
{
    if number >= statements.len() {
        return Err(Misuse::NoSuchStatement);
    }
    if statements[number].is_none() {
        return Err(Misuse::NoSuchStatement);
    }
    statements[number] = None;
    Ok(())
}

/// Drops the bound forms of all statements.
pub(crate) fn forget_bound_forms(statements: &mut Vec<Option<Statement>>)
    ensures { statements.new.items ≡ map forgotten statements.old.items }
{
    for slot in statements.iter_mut() {
        forget_bound_form(slot);
    }
}

/// Drops the bound form of a statement, if there is one.
fn forget_bound_form(slot: &mut Option<Statement>)
    ensures { slot.new ≡ forgotten slot.old }
{
    if let Some(statement) = slot {
        statement.bound = None;
    }
}
