//! The holes of a command.
ghost use Rattle.std.specs.Prelude.{◌≡◌, ◌↔◌, ◌++◌, IfOk, IsTrue, OnOk, map, negsuc};
ghost use Rattle.std.specs.List.{flat_map};
ghost use Rattle.mm_lang.specs.Reading.{assignment_literals, literals_of, operand_literals, position_literals, query_literals, test_literals};
ghost use Rattle.mm_statement.specs.Alike.{change_literals};
ghost use Rattle.mm_statement.specs.Holes.{hole_count, hole_places, is_minus_one};
ghost use Rattle.mm_value.specs.declared.values.Value.TheVariants.{Int};

use mm_query::{Assignment, Atom, Command, Definition, Mutation, Operand, Query, RowList};
use mm_schema::NameRef;
use mm_value::Value;
use std::alloc::{AllocError, Global};
use std::marker::Model;

/// For each literal of a command, whether it is a hole, and whether it reads as -1, as a hole after a minus does. The bound form of the
/// command no longer shows this once it contains values.
#[derive(Debug, Drop)]
pub struct Holes {
    are_holes: Vec<bool>,
    are_minus_one: Vec<bool>,
    count: usize,
}

impl Model for Holes {
    ghost use Rattle.std.specs.Prelude.{◌≡◌};
    ghost use Rattle.mm_statement.specs.Holes.{HolePlaces, hole_count};

    ghost Value = { HolePlaces };

    ghost view = { λ h. record { are_holes = h.are_holes.items; are_minus_one = h.are_minus_one.items } };

    ghost invariant = { λ h. h.count ≡ hole_count h.are_holes.items };
}

impl Holes {
    /// Returns the holes of a parsed command, given for each of its literals whether it is one. Fails with `AllocError` if an allocation
    /// fails.
    pub fn of(
        alloc: Global,
        command: &Command<'_>,
        are_holes: Vec<bool>,
    ) -> Result<Holes, AllocError>
        ensures { IfOk result (λ holes. holes ≡ hole_places are_holes.items command.now) }
    {
        let mut are_minus_one = Vec::with_capacity(alloc, are_holes.len())?;
        flag_command(&mut are_minus_one, command)?;
        let count = are_holes.iter().filter(|is_hole| **is_hole).count();
        Ok(Holes {
            are_holes,
            are_minus_one,
            count,
        })
    }

    /// Returns the number of holes.
    pub fn count(&self) -> usize
        ensures { result ≡ hole_count self.now.are_holes }
    {
        self.count
    }

    /// Returns for each literal whether it is a hole, in written order.
    pub fn as_slice(&self) -> &[bool]
        ensures { result.now ≡ self.now.are_holes }
    {
        &self.are_holes
    }

    /// Returns for each literal whether it reads as -1, in written order.
    pub(crate) fn minus_ones(&self) -> &[bool]
        ensures { result.now ≡ self.now.are_minus_one }
    {
        &self.are_minus_one
    }
}

/// Appends for each literal of a command whether it reads as -1. Fails with `AllocError` if an allocation fails.
fn flag_command(flags: &mut Vec<bool>, command: &Command<'_>) -> Result<(), AllocError>
    ensures { OnOk result (flags.new.items ≡ flags.old.items ++ map is_minus_one (literals_of command.now)) }
{
    match command {
        Command::Define(Definition::Watch(watched)) => flag_query(flags, &watched.query),
        Command::Change(mutation) => flag_mutation(flags, mutation),
        Command::Select(query) => flag_query(flags, query),
        Command::Explain(query) => flag_query(flags, query),
        _ => Ok(()),
    }
}

/// Appends for each literal of a change of rows whether it reads as -1. Fails with `AllocError` if an allocation fails.
fn flag_mutation(flags: &mut Vec<bool>, mutation: &Mutation<'_>) -> Result<(), AllocError>
    ensures { OnOk result (flags.new.items ≡ flags.old.items ++ map is_minus_one (change_literals mutation.now)) }
{
    match mutation {
        Mutation::Insert { tuples, .. } => flag_tuples(flags, tuples),
        Mutation::Update {
            assignments,
            tests,
            ..
        } => {
            flag_assignments(flags, assignments.as_slice())?;
            flag_atoms(flags, tests.as_slice())
        }
        Mutation::Delete { tests, .. } => flag_atoms(flags, tests.as_slice()),
    }
}

/// Appends for each literal of a query whether it reads as -1; no position of ORDER does. Fails with `AllocError` if an allocation fails.
fn flag_query(flags: &mut Vec<bool>, query: &Query<'_>) -> Result<(), AllocError>
    ensures { OnOk result (flags.new.items ≡ flags.old.items ++ map is_minus_one (query_literals query.now)) }
{
    flag_atoms(flags, query.atoms.as_slice())?;
    flag_positions(flags, query.order.as_slice())
}

/// Appends `false` for each position of ORDER. Fails with `AllocError` if an allocation fails.
fn flag_positions(flags: &mut Vec<bool>, positions: &[usize]) -> Result<(), AllocError>
    ensures { OnOk result (flags.new.items ≡ flags.old.items ++ map is_minus_one (flat_map position_literals positions.now)) }
{
    for _ in positions {
        flags.push(false)?;
    }
    Ok(())
}

/// Appends for each literal of atoms whether it reads as -1. Fails with `AllocError` if an allocation fails.
fn flag_atoms<C>(flags: &mut Vec<bool>, atoms: &[Atom<C>]) -> Result<(), AllocError>
    ensures { OnOk result (flags.new.items ≡ flags.old.items ++ map is_minus_one (flat_map test_literals atoms.now)) }
{
    for atom in atoms {
        flag_operand(flags, &atom.right)?;
    }
    Ok(())
}

/// Appends for each literal of assignments whether it reads as -1. Fails with `AllocError` if an allocation fails.
fn flag_assignments(
    flags: &mut Vec<bool>,
    assignments: &[Assignment<NameRef<'_>>],
) -> Result<(), AllocError>
    ensures { OnOk result (flags.new.items ≡ flags.old.items ++ map is_minus_one (flat_map assignment_literals assignments.now)) }
{
    for assignment in assignments {
        flag_operand(flags, &assignment.source)?;
    }
    Ok(())
}

/// Appends whether the literal of an operand, if it has one, reads as -1. Fails with `AllocError` if an allocation fails.
fn flag_operand<C>(flags: &mut Vec<bool>, operand: &Operand<C>) -> Result<(), AllocError>
    ensures { OnOk result (flags.new.items ≡ flags.old.items ++ map is_minus_one (operand_literals operand.now)) }
{
    let is_minus_one = match operand {
        Operand::Literal(literal) => is_minus_one(literal),
        Operand::Column(_) => return Ok(()),
        Operand::Shifted(_, by) => *by == -1,
    };
    flags.push(is_minus_one)?;
    Ok(())
}

/// Appends for each value of tuples whether it reads as -1. Fails with `AllocError` if an allocation fails.
fn flag_tuples(flags: &mut Vec<bool>, tuples: &RowList) -> Result<(), AllocError>
    ensures { OnOk result (flags.new.items ≡ flags.old.items ++ map is_minus_one (flat_map (λ tuple. tuple) tuples.now)) }
{
    for tuple in tuples.as_slice() {
        flag_values(flags, tuple.values())?;
    }
    Ok(())
}

/// Appends for each value whether it reads as -1. Fails with `AllocError` if an allocation fails.
fn flag_values(flags: &mut Vec<bool>, values: &[Value]) -> Result<(), AllocError>
    ensures { OnOk result (flags.new.items ≡ flags.old.items ++ map is_minus_one values.now) }
{
    for value in values {
        flags.push(is_minus_one(value))?;
    }
    Ok(())
}

/// Returns whether a literal reads as -1, as a hole after a minus does.
pub(crate) fn is_minus_one(literal: &Value) -> bool
    ensures value { result ≡ is_minus_one literal.now }
    ensures exact { IsTrue result ↔ (literal.now ≡ Int (negsuc 0)) }
{
    matches!(literal, Value::Int(-1))
}
