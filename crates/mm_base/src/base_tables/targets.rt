//! Rows that keep their targets.
ghost use Rattle.std.specs.Prelude.{◌≡◌, ◌<◌, All, List, None, false, length};
ghost use Rattle.mm_base.specs.Bases.{references_of, rows_made};
ghost use Rattle.mm_base.specs.Orphans.{has_orphans};
ghost use Rattle.mm_tables.specs.Commands.{IsCommand};
ghost use Rattle.mm_tables.specs.Edits.{came_by};
ghost use Rattle.mm_tables.specs.Tables.{key_in, slots_in};
ghost use Rattle.mm_tables.specs.declared.edit.Edit.{Edit as EditOf};

use super::BaseTables;

impl BaseTables {
    /// Lemma: edits that only delete rows leave no row of the table without its target. The call does nothing.
    pub fn targets_stay(&self, table: usize)
        requires { table < length self.now.stored.tables }
        ensures { (edits : List EditOf)
            → IsCommand (key_in self.now.stored.tables table) edits (slots_in self.now.stored.tables table)
            → All (λ e. came_by e ≡ None) edits
            → has_orphans self.now.stored.tables (references_of self.now.links) table (rows_made self.now.stored table edits) ≡ false }
    {
        let _tables = &self.tables;
    }
}
