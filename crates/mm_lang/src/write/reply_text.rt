//! The text of replies.
ghost use Rattle.std.specs.Prelude.{◌≡◌, ◌⊎◌, ℕ, false, List, IsTrue, [], ◌∷◌, ◌++◌, Some, codes, decimal};
ghost use Rattle.std.specs.Char.{is_ascii_digit};
ghost use Rattle.mm_value.specs.Device.{Writes};
ghost use Rattle.mm_value.specs.Watched.{has_failed};
ghost use Rattle.mm_value.specs.declared.refusal.Refusal.{Refusal};
ghost use Rattle.mm_query.specs.declared.reply.Reply.{Reply};
ghost use Rattle.mm_query.specs.declared.plan_line.PlanLine.{PlanLine as AnyLine};
ghost use Rattle.mm_query.specs.declared.reply.Reply.TheVariants.{Refused, Steps};
ghost use Rattle.mm_query.specs.declared.command.Command.TheVariants.{Define};
ghost use Rattle.mm_query.specs.declared.command.Definition.TheVariants.{Table as MakeTable, Index as MakeIndex};
ghost use Rattle.mm_schema.specs.Columns.{key_count};
ghost use Rattle.mm_schema.specs.declared.index.IndexDef.{IndexDef};
ghost use Rattle.mm_schema.specs.declared.table.TableDef.{TableDef};
ghost use Rattle.mm_lang.specs.Grammar.{command_of};
ghost use Rattle.mm_lang.specs.ReplyText.{HasIndexNames, HasNames, HasTableNames, access_method_text, index_listed, index_text, line_text, reply_text, rows_text, steps_text, table_listed};
ghost use Rattle.mm_lang.specs.Tokens.{tokens};

use crate::write::listing_text::write_listing;
use crate::write::row_line::RowLines;
use itoa::Buffer;
use mm_query::{PlanLine, Reply};
use mm_schema::IndexId;
use mm_value::{Refusal, Tuple, Watched, WriteError, put_all};
use std::io::Write;

/// Writes a reply, with a line feed after each line. The lines are:
///
/// - `ok`, or `ok` and a count.
/// - A line for each row, and then their number.
/// - A line for each table of a plan, and then their number.
/// - A line for each table, each of its indexes and each standing query, and then the number of tables.
/// - `error` with the number and the text of a refusal.
///
/// Allocates nothing. After `WriteError` the writer has failed, and a prefix of the reply's text was written.
pub fn write_reply<W: Write>(reply: &Reply, writer: &mut Watched<W>) -> Result<(), WriteError>
    requires { has_failed writer.old ≡ false }
    ensures { Writes W.contents writer.old writer.new result (reply_text reply.now) }
{
    match reply {
        Reply::Done => put_all(writer, b"ok\n"),
        Reply::Count(count) => write_count(b"ok ", *count, writer),
        Reply::Rows(rows) => write_rows(rows.as_slice(), writer),
        Reply::Steps(steps) => write_steps(steps.as_slice(), writer),
        Reply::Listing(listing) => write_listing(listing, writer),
        Reply::Refused(refusal) => write_refusal(*refusal, writer),
    }
}

/// Writes the reply with rows: a line for each, and then their number. Allocates nothing. After `WriteError` the writer has failed, and a
/// prefix of the reply's text was written.
fn write_rows<W: Write>(rows: &[Tuple], writer: &mut Watched<W>) -> Result<(), WriteError>
    requires { has_failed writer.old ≡ false }
    ensures { Writes W.contents writer.old writer.new result (rows_text rows.now) }
{
    let mut lines = RowLines::new();
    for row in rows {
        lines.add_values(row.values(), writer)?;
    }
    lines.finish(rows.len(), writer)
}

/// Lines and refusals can be recognized. Each reply ends with a line feed, and each refusal begins with `error ` and a digit. No other
/// reply does, if the aliases in a plan are names. Of the other replies only a plan can begin with `error `.
pub fn refusals_are_recognized()
    ensures line_feed { (reply : Reply) → (front : List ℕ) × (reply_text reply ≡ front ++ 10 ∷ []) }
    ensures refusals { (refusal : Refusal) → (digit : ℕ) × (rest : List ℕ) × IsTrue (is_ascii_digit digit)
        × (reply_text (Refused refusal) ≡ codes "error " ++ digit ∷ rest) }
    ensures only_refusals { (reply : Reply) (digit : ℕ) (rest : List ℕ) → HasNames reply → IsTrue (is_ascii_digit digit)
        → reply_text reply ≡ codes "error " ++ digit ∷ rest → (refusal : Refusal) × (reply ≡ Refused refusal) }
    ensures or_plans { (reply : Reply) (rest : List ℕ) → reply_text reply ≡ codes "error " ++ rest
        → ((refusal : Refusal) × (reply ≡ Refused refusal)) ⊎ ((steps : List AnyLine) × (reply ≡ Steps steps)) }
{}

/// The text listed for a table, up to its number of rows, reads as the TABLE that creates it, if its names are names and exactly one column
/// is the key. The text listed for an index reads as the INDEX that creates it, if its names are names.
pub fn definitions_are_listed_as_written()
    ensures table { (definition : TableDef) → HasTableNames definition → key_count definition.columns ≡ 1
        → command_of (tokens (table_listed definition)) ≡ Some (Define (MakeTable definition)) }
    ensures index { (index : IndexDef) → HasIndexNames index → command_of (tokens (index_listed index)) ≡ Some (Define (MakeIndex index)) }
{}

/// Writes the line after the rows of a reply, which has their number. Allocates nothing. After `WriteError` the writer has failed, and a
/// prefix of the line was written.
pub(crate) fn write_row_count<W: Write>(
    count: usize,
    writer: &mut Watched<W>,
) -> Result<(), WriteError>
    requires { has_failed writer.old ≡ false }
    ensures { Writes W.contents writer.old writer.new result (codes "rows " ++ decimal count ++ 10 ∷ []) }
{
    write_count(b"rows ", count, writer)
}

/// Writes the reply with a plan: a line for each table, and then their number. Allocates nothing. After `WriteError` the writer has failed,
/// and a prefix of the reply's text was written.
fn write_steps<W: Write>(steps: &[PlanLine], writer: &mut Watched<W>) -> Result<(), WriteError>
    requires { has_failed writer.old ≡ false }
    ensures { Writes W.contents writer.old writer.new result (steps_text steps.now) }
{
    for step in steps {
        write_step(step, writer)?;
    }
    write_count(b"steps ", steps.len(), writer)
}

/// Writes a line of a plan.
fn write_step<W: Write>(step: &PlanLine, writer: &mut Watched<W>) -> Result<(), WriteError>
    requires { has_failed writer.old ≡ false }
    ensures { Writes W.contents writer.old writer.new result (line_text step.now ++ 10 ∷ []) }
{
    put_all(writer, step.alias().bytes())?;
    write_access_method(step, writer)?;
    put_all(writer, b"\n")
}

/// Writes how the rows of a table are found.
fn write_access_method<W: Write>(step: &PlanLine, writer: &mut Watched<W>) -> Result<(), WriteError>
    requires { has_failed writer.old ≡ false }
    ensures { Writes W.contents writer.old writer.new result (access_method_text step.now) }
{
    match step {
        PlanLine::Scan { .. } => put_all(writer, b" scan"),
        PlanLine::Hash { index, .. } => write_two(b" hash ", index.bytes(), writer),
        PlanLine::TreeEqual { index, .. } => write_tree(index, b"=", writer),
        PlanLine::TreeRange { index, .. } => write_tree(index, b"range", writer),
        PlanLine::Precomputed { field, .. } => {
            write_four(
                b" precomputed ",
                field.alias.bytes(),
                b".",
                field.column.bytes(),
                writer,
            )
        }
        PlanLine::TreeMerge { outer, inner, .. } => {
            write_four(
                b" tree merge ",
                index_bytes(outer),
                b" ",
                index_bytes(inner),
                writer,
            )
        }
        PlanLine::TreeJoin { index, .. } => write_two(b" tree join ", index_bytes(index), writer),
        PlanLine::HashJoin { index, .. } => write_two(b" hash join ", index.bytes(), writer),
        PlanLine::BuiltHash { column, .. } => write_two(b" built hash ", column.bytes(), writer),
        PlanLine::NestedLoops { .. } => put_all(writer, b" nested loops"),
    }
}

/// Writes that rows are found by a tree, and how the tree is used.
fn write_tree<W: Write>(
    index: &IndexId,
    what: &[u8],
    writer: &mut Watched<W>,
) -> Result<(), WriteError>
    requires { has_failed writer.old ≡ false }
    ensures { Writes W.contents writer.old writer.new result ((codes " tree " ++ index_text index.now) ++ 32 ∷ what.now) }
{
    write_four(b" tree ", index_bytes(index), b" ", what, writer)
}

/// Returns the text of an index: `#key`, or its name.
fn index_bytes(index: &IndexId) -> &[u8]
    ensures { result.now ≡ index_text index.now }
{
    match index {
        IndexId::Key => b"#key",
        IndexId::Named(name) => name.bytes(),
    }
}

/// Writes two texts, one after the other.
pub(crate) fn write_two<W: Write>(
    first: &[u8],
    second: &[u8],
    writer: &mut Watched<W>,
) -> Result<(), WriteError>
    requires { has_failed writer.old ≡ false }
    ensures { Writes W.contents writer.old writer.new result (first.now ++ second.now) }
{
    put_all(writer, first)?;
    put_all(writer, second)
}

/// Writes four texts, one after the other.
pub(crate) fn write_four<W: Write>(
    first: &[u8],
    second: &[u8],
    third: &[u8],
    fourth: &[u8],
    writer: &mut Watched<W>,
) -> Result<(), WriteError>
    requires { has_failed writer.old ≡ false }
    ensures { Writes W.contents writer.old writer.new result ((first.now ++ second.now) ++ (third.now ++ fourth.now)) }
{
    write_two(first, second, writer)?;
    write_two(third, fourth, writer)
}

/// Writes the end of a line: a label, a count and the line feed.
pub(crate) fn write_count<W: Write>(
    label: &[u8],
    count: usize,
    writer: &mut Watched<W>,
) -> Result<(), WriteError>
    requires { has_failed writer.old ≡ false }
    ensures { Writes W.contents writer.old writer.new result (label.now ++ decimal count ++ 10 ∷ []) }
{
    write_labelled(label, count, writer)?;
    put_all(writer, b"\n")
}

fn write_labelled<W: Write>(
    label: &[u8],
    number: usize,
    writer: &mut Watched<W>,
) -> Result<(), WriteError>
    requires { has_failed writer.old ≡ false }
    ensures { Writes W.contents writer.old writer.new result (label.now ++ decimal number) }
{
    put_all(writer, label)?;
    let mut buffer = Buffer::new();
    put_all(writer, buffer.format(number).as_bytes())
}

fn write_refusal<W: Write>(refusal: Refusal, writer: &mut Watched<W>) -> Result<(), WriteError>
    requires { has_failed writer.old ≡ false }
    ensures { Writes W.contents writer.old writer.new result (reply_text (Refused refusal)) }
{
    write_labelled(b"error ", usize::from(refusal.number()), writer)?;
    write_after_space(refusal.text().as_bytes(), writer)?;
    put_all(writer, b"\n")
}

/// Writes a space and a text.
pub(crate) fn write_after_space<W: Write>(
    text: &[u8],
    writer: &mut Watched<W>,
) -> Result<(), WriteError>
    requires { has_failed writer.old ≡ false }
    ensures { Writes W.contents writer.old writer.new result (32 ∷ text.now) }
{
    put_all(writer, b" ")?;
    put_all(writer, text)
}
