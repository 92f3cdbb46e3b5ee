//! The state of each set of slots of the table of templates.
ghost use Rattle.std.specs.Prelude.{◌≡◌, ◌<◌, IfOk, IfSome, length};
ghost use Rattle.mm_lang.specs.Templates.{holes_of};
ghost use Rattle.mm_session.specs.steps.Forms.{IsReadyStatement};
ghost use Rattle.mm_statement.specs.Holes.{hole_count};

use crate::statement::Statement;
use mm_txn::Db;
use mm_value::{Refusal, Value};
use std::alloc::Global;

/// The number of sets. A template's hash determines its set.
pub(crate) const SETS: usize = 32;

/// A set of two slots of the table of templates.
#[derive(Clone, Copy)]
pub(crate) struct TemplateSet {
    /// The hash of the last template that was looked up and not found. The template is kept if it occurs again.
    seen: u64,
    /// The hash of the last template whose names the catalog refused. It is not kept until the catalog changes.
    refused: u64,
    /// Whether the second slot was used last.
    is_second_last: bool,
}

impl TemplateSet {
    /// Returns the state of a set that was not used yet.
    pub(crate) fn new() -> TemplateSet {
        TemplateSet {
            seen: 0,
            refused: 0,
            is_second_last: false,
        }
    }

    /// Returns whether to keep a template that was not found: it was the last one looked up, and the catalog did not refuse it.
    pub(crate) fn expects(&mut self, hash: u64) -> bool {
        let is_expected = self.seen == hash && self.refused != hash;
        self.seen = hash;
        is_expected
    }

    /// Records that a slot was used. The second slot of a set has an odd number.
    pub(crate) fn note_use(&mut self, number: usize) {
        self.is_second_last = number % 2 == 1;
    }

    /// Returns the number of the slot that was not used last, for the set at a place, and records its use.
    pub(crate) fn next_number(&mut self, place: usize) -> usize
        requires { place < 32 }
    {
        let number = if self.is_second_last {
            2 * place
        } else {
            2 * place + 1
        };
        self.note_use(number);
        number
    }

    /// Forgets which template the catalog refused.
    pub(crate) fn forget_refusal(&mut self) {
        self.refused = 0;
    }

    /// Reads a template, and returns its statement. Returns `None` if the template has no reading, if it cannot be bound with the values,
    /// and if an allocation fails.
    pub(crate) fn read(
        &mut self,
        alloc: Global,
        database: &Db,
        hash: u64,
        template: &[u8],
        values: &[Value],
    ) -> Option<Statement>
        requires { length values.now ≡ hole_count (holes_of template.now) }
        ensures ready { IfSome result (IsReadyStatement database.now.schema) }
        ensures line { IfSome result (λ statement. statement.line.items ≡ template.now) }
    {
        match bound_statement(alloc, database, template, values) {
            Ok(statement) => statement,
            Err(refusal) => {
                if is_of_names(refusal) {
                    self.refused = hash;
                }
                None
            }
        }
    }
}

/// Reads a template, and returns its statement, or `None` if no bound form takes the values. Fails as [`Statement::read`] and
/// [`Statement::fill`] do.
fn bound_statement(
    alloc: Global,
    database: &Db,
    template: &[u8],
    values: &[Value],
) -> Result<Option<Statement>, Refusal>
    requires { length values.now ≡ hole_count (holes_of template.now) }
    ensures ready { IfOk result (λ found. IfSome found (IsReadyStatement database.now.schema)) }
    ensures line { IfOk result (λ found. IfSome found (λ statement. statement.line.items ≡ template.now)) }
{
    let mut statement = Statement::read(alloc, database, template)?;
    if statement.fill(alloc, database, values)? {
        Ok(Some(statement))
    } else {
        Ok(None)
    }
}

/// Returns whether a refusal depends only on the names of a line, and not on its values.
fn is_of_names(refusal: Refusal) -> bool {
    matches!(
        refusal,
        Refusal::NoSuchTable
            | Refusal::NoSuchColumn
            | Refusal::NoSuchAlias
            | Refusal::NameTaken
            | Refusal::AliasTaken
            | Refusal::TooMany
    )
}
