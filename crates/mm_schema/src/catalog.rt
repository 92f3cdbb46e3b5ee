//! The catalog.
ghost use Rattle.std.specs.Prelude.{◌≡◌, ◌<◌, ◌||◌, false, is_some, [], Some, None, length, map, position, slice_get, IfOk, MatchResult, OnOk, OnErr};
ghost use Rattle.std.specs.List.{list_any};
ghost use Rattle.std.specs.Option.{option_copied};
ghost use Rattle.mm_schema.specs.Columns.{has_duplicate_names};
ghost use Rattle.mm_schema.specs.Indexes.{HasDistinctIndexes, HasIndexesInPlace, drop_index_conditions, index_conditions, index_named, with_index, without_index};
ghost use Rattle.mm_schema.specs.Name.{same_name};
ghost use Rattle.mm_schema.specs.References.{reference_at, references_of};
ghost use Rattle.mm_schema.specs.Refused.{AnswersDue, first_refusal};
ghost use Rattle.mm_schema.specs.Schema.{HasDistinctNames, drop_table_conditions, is_in_use, is_other_referring_to, lacks_target, mismatches_target, exceeds_table_limits, table_conditions, table_named, table_place, with_table, without_table};
ghost use Rattle.mm_schema.specs.Standing.{HasDistinctStanding, drop_standing_conditions, lacks_some_table, standing_conditions, standing_named, standing_place, with_standing, without_standing};

use crate::column::{Column, Columns};
use crate::index::{IndexDef, Indexes};
use crate::name::Name;
use crate::reference::Reference;
use crate::standing::{StandingDef, StandingQueries, TableNames};
use crate::table::{Table, TableDef};
use indexmap::IndexMap;
use mm_value::Refusal;
use std::alloc::{AllocError, Global};
use std::marker::Model;

/// The maximum number of tables in a catalog.
pub const MAX_TABLES: usize = 64;
/// The maximum number of columns in a table.
pub const MAX_COLUMNS: usize = 16;
/// The maximum number of rows in a table.
pub const MAX_ROWS: usize = 1_048_576;
/// The maximum number of indexes on a table, not counting the one on its key.
pub const MAX_INDEXES: usize = 16;
/// The maximum number of standing queries in a catalog.
pub const MAX_STANDING: usize = 32;

/// All tables and all standing queries, each in order of creation. No two tables and no two standing queries have the same name, but a
/// table and a standing query may.
#[derive(Drop)]
pub struct Catalog {
    tables: IndexMap<Name, Table>,
    standing: StandingQueries,
}

impl Model for Catalog {
    ghost use Rattle.mm_schema.specs.Schema.{Schema};
    ghost use Rattle.mm_schema.specs.Catalog.{tables_of, IsSound};

    ghost Value = { Schema };

    ghost view = { λ c. record { tables = tables_of c.tables; standing = c.standing } };

    ghost invariant = { λ c. IsSound c.tables };
}

impl Catalog {
    /// Returns a catalog with no tables and no standing queries. Allocates nothing.
    pub fn new(alloc: Global) -> Catalog
        ensures tables { result.tables ≡ [] }
        ensures standing { result.standing ≡ [] }
    {
        Catalog {
            tables: IndexMap::new(alloc),
            standing: StandingQueries::new(alloc),
        }
    }

    /// Appends a table without indexes. Fails with the first of these refusals that applies:
    ///
    /// - `NoSuchTable`: a column refers to a table that does not exist.
    /// - `NameTaken`: a table has the name, or a column occurs twice.
    /// - `TypeMismatch`: a column and the key of the table that it refers to differ in type.
    /// - `TooMany`: there are 64 tables already, or the new one has more than 16 columns.
    ///
    /// May instead fail with `Memory`. A failed call changes nothing.
    pub fn add_table(&mut self, definition: TableDef) -> Result<(), Refusal>
        ensures due { AnswersDue (first_refusal (table_conditions definition self.old)) result }
        ensures ok { OnOk result (self.new ≡ with_table definition self.old) }
        ensures err { OnErr result (self.new ≡ self.old) }
    {
        if let Some(refusal) = self.table_refusal(&definition) {
            return Err(refusal);
        }
        let name = definition.name.copy();
        let indexes = Indexes::new(*self.tables.allocator());
        let table = Table {
            definition,
            indexes,
        };
        self.tables.insert(name, table)?;
        Ok(())
    }

    /// Returns the refusal of a new table, or `None` if nothing but a failed allocation would refuse it. Allocates nothing.
    pub fn table_refusal(&self, definition: &TableDef) -> Option<Refusal>
        ensures { result ≡ first_refusal (table_conditions definition.now self.now) }
    {
        if self.lacks_some_target(definition) {
            Some(Refusal::NoSuchTable)
        } else if self.has_taken_name(definition) {
            Some(Refusal::NameTaken)
        } else if self.mismatches_some_target(definition) {
            Some(Refusal::TypeMismatch)
        } else if self.exceeds_limits(definition) {
            Some(Refusal::TooMany)
        } else {
            None
        }
    }

    /// Returns whether any column refers to a table that does not exist.
    fn lacks_some_target(&self, definition: &TableDef) -> bool
        ensures { result ≡ list_any (lacks_target self.now) definition.now.columns }
    {
        let columns = definition.columns.as_slice();
        columns.iter().any(|column| self.lacks_target(column))
    }

    /// Returns whether a column refers to a table that does not exist.
    fn lacks_target(&self, column: &Column) -> bool
        ensures { result ≡ lacks_target self.now column.now }
    {
        match column.target() {
            Some(table) => self.find_table(table).is_none(),
            None => false,
        }
    }

    /// Returns whether a table has the name of the new one, or a column occurs twice.
    fn has_taken_name(&self, definition: &TableDef) -> bool
        ensures { result ≡ (is_some (table_named definition.now.name self.now) || has_duplicate_names definition.now.columns) }
    {
        self.find_table(&definition.name).is_some() || definition.columns.has_duplicate_names()
    }

    /// Returns whether any column refers to an existing table and differs in type from its key.
    fn mismatches_some_target(&self, definition: &TableDef) -> bool
        ensures { result ≡ list_any (mismatches_target self.now) definition.now.columns }
    {
        let columns = definition.columns.as_slice();
        columns.iter().any(|column| self.mismatches_target(column))
    }

    /// Returns whether a column refers to an existing table and differs in type from its key.
    fn mismatches_target(&self, column: &Column) -> bool
        ensures { result ≡ mismatches_target self.now column.now }
    {
        let target = column.target().and_then(|table| self.find_table(table));
        match target {
            Some(table) => table.definition.columns.key_differs_from(column.col_type),
            None => false,
        }
    }

    /// Returns whether there are 64 tables already, or the new one has more than 16 columns.
    fn exceeds_limits(&self, definition: &TableDef) -> bool
        ensures { result ≡ exceeds_table_limits definition.now self.now }
    {
        self.tables.len() >= MAX_TABLES || definition.columns.as_slice().len() > MAX_COLUMNS
    }

    /// Drops a table and its indexes. The others keep their order. Allocates nothing. Fails with `NoSuchTable` if no table has the name,
    /// and otherwise with `InUse` if a column of another table refers to it or a standing query reads it. A failed call changes nothing.
    pub fn drop_table(&mut self, name: &Name) -> Result<(), Refusal>
        ensures due { MatchResult result (λ _. first_refusal (drop_table_conditions name.now self.old) ≡ None)
            (λ refusal. first_refusal (drop_table_conditions name.now self.old) ≡ Some refusal) }
        ensures ok { OnOk result (self.new ≡ without_table name.now self.old) }
        ensures err { OnErr result (self.new ≡ self.old) }
    {
        if self.find_table(name).is_none() {
            return Err(Refusal::NoSuchTable);
        }
        if self.is_in_use(name) {
            return Err(Refusal::InUse);
        }
        self.tables.shift_remove(name);
        Ok(())
    }

    /// Returns whether a column of another table refers to the table with a name, or a standing query reads it.
    fn is_in_use(&self, name: &Name) -> bool
        ensures { result ≡ is_in_use name.now self.now }
    {
        self.is_referred_to(name) || self.standing.read(name)
    }

    /// Returns whether a column of another table refers to the table with a name.
    fn is_referred_to(&self, name: &Name) -> bool
        ensures { result ≡ list_any (is_other_referring_to name.now) self.now.tables }
    {
        self.tables().iter().any(|table| *name != table.definition.name
            && table.definition.columns.refer_to(name))
    }

    /// Appends an index to its table. Fails with the first of these refusals that applies:
    ///
    /// - `NoSuchTable`: the table does not exist.
    /// - `NoSuchColumn`: the table has no such column.
    /// - `NameTaken`: an index of any table has the name.
    /// - `TooMany`: the table has 16 indexes already.
    ///
    /// May instead fail with `Memory`. A failed call changes nothing.
    pub fn add_index(&mut self, index: IndexDef) -> Result<(), Refusal>
        ensures due { AnswersDue (first_refusal (index_conditions index self.old)) result }
        ensures ok { OnOk result (self.new ≡ with_index index self.old) }
        ensures err { OnErr result (self.new ≡ self.old) }
    {
        let Some(place) = self.place_of(&index.table) else {
            return Err(Refusal::NoSuchTable);
        };
        if let Some(refusal) = self.index_refusal(self.table_at(place), &index) {
            return Err(refusal);
        }
        self.tables[place].indexes.push(index)
    }

    /// Returns the refusal of a new index of a table, or `None` if nothing refuses it.
    fn index_refusal(&self, table: &Table, index: &IndexDef) -> Option<Refusal>
        requires { table_named index.now.table self.now ≡ Some table.now }
        ensures { result ≡ first_refusal (index_conditions index.now self.now) }
    {
        let column = index.column.as_ref();
        if table.definition.columns.place_of(&column).is_none() {
            return Some(Refusal::NoSuchColumn);
        }
        if self.find_index(&index.name).is_some() {
            return Some(Refusal::NameTaken);
        }
        if table.indexes.as_slice().len() >= MAX_INDEXES {
            return Some(Refusal::TooMany);
        }
        None
    }

    /// Drops an index. Allocates nothing. Fails with `NoSuchIndex` if no index has the name. A failed call changes nothing.
    pub fn drop_index(&mut self, name: &Name) -> Result<(), Refusal>
        ensures due { MatchResult result (λ _. first_refusal (drop_index_conditions name.now self.old) ≡ None)
            (λ refusal. first_refusal (drop_index_conditions name.now self.old) ≡ Some refusal) }
        ensures ok { OnOk result (self.new ≡ without_index name.now self.old) }
        ensures err { OnErr result (self.new ≡ self.old) }
    {
        let Some(place) = self.place_with_index(name) else {
            return Err(Refusal::NoSuchIndex);
        };
        self.tables[place].indexes.remove(name);
        Ok(())
    }

    /// Appends a standing query: its name and the tables that it reads. Requires that these tables exist. Fails with `NameTaken` if a
    /// standing query has the name, and otherwise with `TooMany` if there are 32 already. May instead fail with `Memory`. A failed call
    /// changes nothing.
    pub fn add_standing(&mut self, name: Name, tables: TableNames) -> Result<(), Refusal>
        requires { lacks_some_table tables self.old ≡ false }
        ensures due { AnswersDue (first_refusal (standing_conditions name self.old)) result }
        ensures ok { OnOk result (self.new ≡ with_standing (record { name = name; tables = tables }) self.old) }
        ensures err { OnErr result (self.new ≡ self.old) }
    {
        if let Some(refusal) = self.standing_refusal(&name) {
            return Err(refusal);
        }
        self.standing.push(StandingDef { name, tables })
    }

    /// Returns the refusal of a new standing query with a name, or `None` if nothing but a failed allocation would refuse it. Allocates
    /// nothing.
    pub fn standing_refusal(&self, name: &Name) -> Option<Refusal>
        ensures { result ≡ first_refusal (standing_conditions name.now self.now) }
    {
        if self.find_standing(name).is_some() {
            Some(Refusal::NameTaken)
        } else if self.standing().len() >= MAX_STANDING {
            Some(Refusal::TooMany)
        } else {
            None
        }
    }

    /// Drops a standing query. The others keep their order. Allocates nothing. Fails with `NoSuchStandingQuery` if none has the name. A
    /// failed call changes nothing.
    pub fn drop_standing(&mut self, name: &Name) -> Result<(), Refusal>
        ensures due { MatchResult result (λ _. first_refusal (drop_standing_conditions name.now self.old) ≡ None)
            (λ refusal. first_refusal (drop_standing_conditions name.now self.old) ≡ Some refusal) }
        ensures ok { OnOk result (self.new ≡ without_standing name.now self.old) }
        ensures err { OnErr result (self.new ≡ self.old) }
    {
        if self.find_standing(name).is_none() {
            return Err(Refusal::NoSuchStandingQuery);
        }
        self.standing.remove(name);
        Ok(())
    }

    /// Returns the standing queries in order of creation. No two have the same name.
    pub fn standing(&self) -> &[StandingDef]
        ensures value { result.now ≡ self.now.standing }
        ensures distinct { HasDistinctStanding self.now }
    {
        self.standing.as_slice()
    }

    /// Returns the standing query with a name, or `None` if there is none. Searches all, at most 32.
    pub fn find_standing(&self, name: &Name) -> Option<&StandingDef>
        ensures { option_copied result ≡ standing_named name.now self.now }
    {
        self.standing().iter().find(|query| *name == query.name)
    }

    /// Returns the position of the standing query with a name in the order of creation, counted from 0, or `None` if there is none.
    /// Searches all, at most 32.
    pub fn standing_place_of(&self, name: &Name) -> Option<usize>
        ensures place { result ≡ standing_place name.now self.now }
        ensures distinct { HasDistinctStanding self.now }
    {
        self.standing().iter().position(|query| *name == query.name)
    }

    /// Returns the index with a name, or `None` if there is none. Searches the indexes of all tables, at most 1,024; only commands that
    /// name an index need this.
    pub fn find_index(&self, name: &Name) -> Option<&IndexDef>
        ensures found { option_copied result ≡ index_named name.now self.now }
        ensures distinct { HasDistinctIndexes self.now }
        ensures in_place { HasIndexesInPlace self.now }
    {
        self.tables()
            .iter()
            .flat_map(|table| table.indexes.as_slice())
            .find(|index| *name == index.name)
    }

    /// Returns the position of the table that has the index with a name, in the order of creation, counted from 0, or `None` if no index
    /// has the name. Searches the indexes of all tables, at most 1,024.
    pub fn place_with_index(&self, name: &Name) -> Option<usize>
        ensures place { result ≡ position (λ t. list_any (λ i. same_name name.now i.name) t.indexes) self.now.tables }
        ensures distinct { HasDistinctIndexes self.now }
    {
        self.tables()
            .iter()
            .position(|table| table.indexes.has(name))
    }

    /// Returns the tables in order of creation.
    pub fn tables(&self) -> &[Table]
        ensures value { result.now ≡ self.now.tables }
        ensures distinct { HasDistinctIndexes self.now }
        ensures in_place { HasIndexesInPlace self.now }
    {
        self.tables.values().as_slice()
    }

    /// Returns the table with a name, or `None` if there is none. No two tables have the same name.
    #[tactic(auto, using(crate::proofs::Places::table_at_place, crate::proofs::Places::no_table))]
    pub fn find_table(&self, name: &Name) -> Option<&Table>
        ensures found { option_copied result ≡ table_named name.now self.now }
        ensures distinct { HasDistinctNames self.now }
    {
        let place = self.place_of(name)?;
        Some(self.table_at(place))
    }

    /// Returns the table at a position in the order of creation, counted from 0.
    pub fn table_at(&self, place: usize) -> &Table
        requires { place < length self.now.tables }
        ensures { slice_get self.now.tables place ≡ Some result.now }
    {
        self.tables.get_index(place).unwrap().1
    }

    /// Returns the position of the table with a name in the order of creation, counted from 0, or `None` if there is none.
    pub fn place_of(&self, name: &Name) -> Option<usize>
        ensures place { result ≡ table_place name.now self.now }
        ensures distinct { HasDistinctNames self.now }
    {
        self.tables.get_index_of(name)
    }

    /// Returns the foreign keys of a table that is to be appended, one for each of its columns that refers to a table, in the order of the
    /// columns. The position of a target that does not exist is 0. Fails with `AllocError` if an allocation fails.
    pub fn references(&self, alloc: Global, columns: &Columns) -> Result<Vec<Reference>, AllocError>
        ensures { IfOk result (λ found. found.items ≡ map (reference_at self.now (length self.now.tables)) (references_of columns.now)) }
    {
        let from = self.tables().len();
        let mut found = Vec::new(alloc);
        for (column, item) in columns.as_slice().iter().enumerate() {
            if let Some(target) = item.target() {
                let to = self.place_of(target).unwrap_or(0);
                found.push(Reference { from, column, to })?;
            }
        }
        Ok(found)
    }
}
