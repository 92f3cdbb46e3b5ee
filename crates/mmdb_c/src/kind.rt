//! The kinds of statements as numbers of the header.
ghost use Rattle.std.specs.Prelude.{◌≡◌, IfNone, IfSome};
ghost use Rattle.mmdb_c.specs.Definitions.{DefinesNothing, definition_number};
ghost use Rattle.mmdb_c.specs.Kinds.{kind_number};

use mm_session::{DefinitionKind, StatementKind};

/// Returns the header's number of a kind.
pub(crate) fn kind_number(kind: StatementKind) -> u8
    ensures { result ≡ kind_number kind }
{
    match kind {
        StatementKind::Nothing => 0,
        StatementKind::Table => 10,
        StatementKind::DropTable => 11,
        StatementKind::Index => 12,
        StatementKind::DropIndex => 13,
        StatementKind::Watch => 14,
        StatementKind::Unwatch => 15,
        StatementKind::Insert => 20,
        StatementKind::Update => 21,
        StatementKind::Delete => 22,
        StatementKind::Scan => 30,
        StatementKind::ScanIndex => 31,
        StatementKind::Select => 32,
        StatementKind::Show => 33,
        StatementKind::Explain => 40,
        StatementKind::Tables => 41,
        StatementKind::Begin => 50,
        StatementKind::Commit => 51,
        StatementKind::Rollback => 52,
        StatementKind::Savepoint => 53,
        StatementKind::RollbackTo => 54,
    }
}

/// Returns the kind of object that a definition creates by the header's number of its command, or `None` if the number is that of no
/// definition.
pub(crate) fn definition_kind(number: u8) -> Option<DefinitionKind>
    ensures some { IfSome result (λ kind. definition_number kind ≡ number) }
    ensures none { IfNone result (DefinesNothing number) }
{
    match number {
        10 => Some(DefinitionKind::Table),
        12 => Some(DefinitionKind::Index),
        14 => Some(DefinitionKind::StandingQuery),
        _ => None,
    }
}
