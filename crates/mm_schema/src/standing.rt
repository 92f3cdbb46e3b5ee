//! Standing queries in the catalog.
ghost use Rattle.std.specs.Prelude.{◌≡◌, ◌++◌, [], ◌∷◌, None, not, filter, find, map, IfErr, OnOk, OnErr};
ghost use Rattle.std.specs.List.{IsDistinct, list_any};
ghost use Rattle.mm_schema.specs.Name.{same_name};
ghost use Rattle.mm_schema.specs.Schema.{reads_table};
ghost use Rattle.mm_value.specs.declared.refusal.Refusal.TheVariants.{Memory};

use crate::name::Name;
use mm_value::Refusal;
use std::alloc::Global;
use std::marker::Model;

/// A list of names of tables.
#[derive(Debug, Drop)]
pub struct TableNames {
    items: Vec<Name>,
}

impl Model for TableNames {
    ghost use Rattle.std.specs.Prelude.{List, ℕ};

    ghost Value = { List (List ℕ) };

    ghost view = { λ t. t.items.items };
}

impl TableNames {
    /// Returns the list of these names in their order. Allocates nothing.
    pub fn new(items: Vec<Name>) -> TableNames
        ensures { result ≡ items.items }
    {
        TableNames { items }
    }

    /// Returns the names in order.
    pub fn as_slice(&self) -> &[Name]
        ensures { result.now ≡ self.now }
    {
        self.items.as_slice()
    }
}

/// A standing query in the catalog: its name, and the tables that it reads.
#[derive(Debug, Drop)]
pub struct StandingDef {
    /// The name, which no other standing query has.
    pub name: Name,
    /// The tables whose rows it combines, in the order of its FROM, with repetitions.
    pub tables: TableNames,
}

impl StandingDef {
    /// Returns whether it reads the table with a name.
    pub fn reads(&self, table: &Name) -> bool
        ensures { result ≡ reads_table table.now self.now }
    {
        self.tables.as_slice().iter().any(|name| *table == *name)
    }
}

/// All standing queries, in order of creation. No two have the same name.
#[derive(Debug, Drop)]
pub(crate) struct StandingQueries {
    items: Vec<StandingDef>,
}

impl Model for StandingQueries {
    ghost use Rattle.std.specs.Prelude.{List, map};
    ghost use Rattle.std.specs.List.{IsDistinct};
    ghost use Rattle.mm_schema.specs.Name.{same_name};
    ghost use Rattle.mm_schema.specs.declared.standing.StandingDef.{StandingDef as Query};

    ghost Value = { List Query };

    ghost view = { λ s. s.items.items };

    ghost invariant = { λ s. IsDistinct same_name (map (λ q. q.name) s.items.items) };
}

impl StandingQueries {
    /// Returns an empty list. Allocates nothing.
    pub(crate) fn new(alloc: Global) -> StandingQueries
        ensures { result ≡ [] }
    {
        StandingQueries {
            items: Vec::new(alloc),
        }
    }

    /// Returns the standing queries in order of creation.
    pub(crate) fn as_slice(&self) -> &[StandingDef]
        ensures value { result.now ≡ self.now }
        ensures distinct { IsDistinct same_name (map (λ q. q.name) self.now) }
    {
        &self.items
    }

    /// Returns whether any of them reads the table with a name.
    pub(crate) fn read(&self, table: &Name) -> bool
        ensures { result ≡ list_any (reads_table table.now) self.now }
    {
        self.items.iter().any(|query| query.reads(table))
    }

    /// Appends a standing query. Requires a new name. Fails only with `Memory`, if an allocation fails; nothing changes then.
    pub(crate) fn push(&mut self, query: StandingDef) -> Result<(), Refusal>
        requires { find (λ other. same_name query.name other.name) self.old ≡ None }
        ensures ok { OnOk result (self.new ≡ self.old ++ query ∷ []) }
        ensures err { OnErr result (self.new ≡ self.old) }
        ensures memory { IfErr result (λ refusal. refusal ≡ Memory) }
    {
        self.items.push(query)?;
        Ok(())
    }

    /// Removes the standing query with the name. Allocates nothing.
    pub(crate) fn remove(&mut self, name: &Name)
        ensures { self.new ≡ filter (λ query. not (same_name name.now query.name)) self.old }
    {
        self.items.retain(|query| *name != query.name);
    }
}
