//! The columns of TABLE.
ghost use Rattle.std.specs.Prelude.{◌≡◌, true};
ghost use Rattle.mm_lang.specs.Grammar.{on_delete_of, reference, role};
ghost use Rattle.mm_lang.specs.steps.Parsing.{ReadsPhrase, no_literals};

use crate::read::keyword::Keyword;
use crate::read::phrase::Phrase;
use crate::read::reader::Reader;
use mm_schema::{Column, OnDelete, Role};
use mm_value::Refusal;

/// The phrase of a column: its name, its type, and its role. The role is `KEY` for the key, `REF` and the name of the referenced table, or
/// nothing. `CASCADE` after that name deletes the rows of the column with the rows that they refer to. The item is the column.
#[derive(Drop)]
pub(crate) struct ColumnPhrase;

impl<'l> Phrase<'l> for ColumnPhrase {
    ghost use Rattle.mm_lang.specs.Grammar.{column};
    ghost use Rattle.mm_lang.specs.steps.Parsing.{no_literals};
    ghost use Rattle.mm_lang.specs.steps.Shrinking.{column_never_longer};

    type Item = Column;

    ghost reading = { column };

    ghost literals = { no_literals };

    ghost never_longer = { column_never_longer };

    /// Reads a column. Fails with `Syntax` if the rest does not begin with a name and a type, or if `REF` is not followed by a name.
    fn read(&mut self, reader: &mut Reader<'l>) -> Result<Column, Refusal> {
        let name = reader.name()?;
        let col_type = reader.col_type()?;
        let role = read_role(reader)?;
        Ok(Column {
            name,
            col_type,
            role,
        })
    }
}

// Reads `KEY` or `REF` with its table. A column with neither is plain. Fails with `Syntax` if `REF` is not followed by a name.
fn read_role(reader: &mut Reader<'_>) -> Result<Role, Refusal>
    ensures { ReadsPhrase role no_literals reader.old reader.new result }
{
    if reader.skip_keyword(Keyword::Key) {
        return Ok(Role::Key);
    }
    if reader.skip_keyword(Keyword::Ref) {
        return read_reference(reader);
    }
    Ok(Role::Plain)
}

// Reads the name after `REF`, and `CASCADE` if it follows. Fails with `Syntax` if there is no name.
fn read_reference(reader: &mut Reader<'_>) -> Result<Role, Refusal>
    ensures { ReadsPhrase (reference true) no_literals reader.old reader.new result }
{
    let table = reader.name()?;
    let cascades = reader.skip_keyword(Keyword::Cascade);
    let on_delete = on_delete_of(cascades);
    Ok(Role::Reference { table, on_delete })
}

// Returns the rule for deleting referenced rows, by whether `CASCADE` follows the table's name.
fn on_delete_of(cascades: bool) -> OnDelete
    ensures { result ≡ on_delete_of cascades }
{
    if cascades {
        OnDelete::Cascade
    } else {
        OnDelete::Restrict
    }
}
