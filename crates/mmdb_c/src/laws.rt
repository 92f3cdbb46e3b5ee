//! Laws that tie the definitions to the numbers and layouts of the header.
ghost use Rattle.std.specs.Prelude.{◌≡◌, ◌++◌, ℕ, ℤ, List, codes, length, replicate};
ghost use Rattle.mm_value.specs.Storable.{IsStorable};
ghost use Rattle.mm_value.specs.declared.col_type.ColType.TheVariants as col_type;
ghost use Rattle.mm_value.specs.declared.values.Value.{Value};
ghost use Rattle.mm_value.specs.declared.values.Value.TheVariants.{Int, Text};
ghost use Rattle.mm_schema.specs.declared.column.Role.{Role};
ghost use Rattle.mmdb_c.specs.Cells.{StandsFor};
ghost use Rattle.mmdb_c.specs.Columns.{column_cell};
ghost use Rattle.mmdb_c.specs.HeaderNumbers.{HasKindNumbers, HasRefusalNumbers, HasReplyNumbers};
ghost use Rattle.mmdb_c.specs.declared.cell.Cell.{Cell};

/// The statuses of replies have the numbers of the header.
pub fn statuses_are_those_of_the_header()
    ensures replies { HasReplyNumbers }
    ensures refusals { HasRefusalNumbers }
{}

/// The kinds of statements have the numbers of the header.
pub fn kinds_are_those_of_the_header()
    ensures { HasKindNumbers }
{}

/// A cell of a number has kind 0, and a cell of a text has kind 1 and the text's length.
pub fn cells_are_those_of_the_header()
    ensures numbers { (cell : Cell) (number : ℤ) → StandsFor cell (Int number) → (cell.kind ≡ 0) × (cell.number ≡ number) }
    ensures texts { (cell : Cell) (text : List ℕ) → StandsFor cell (Text text) → (cell.kind ≡ 1) × (cell.len ≡ length text) }
{}

/// Each value that a table can store has a cell, and no cell has two values.
pub fn values_have_cells()
    ensures each { (stored : Value) → IsStorable stored → (cell : Cell) × (length cell.text ≡ 64) × StandsFor cell stored }
    ensures one { (cell : Cell) (value other : Value) → StandsFor cell value → StandsFor cell other → value ≡ other }
{}

/// The columns `id INT` and `title TEXT`, as worked examples.
pub fn columns_are_those_of_the_header()
    ensures number { (role : Role) → column_cell (record { name = codes "id"; col_type = col_type.Int; role = role })
        ≡ record { kind = 0; len = 2; name = codes "id" ++ replicate 30 0 } }
    ensures text { (role : Role) → column_cell (record { name = codes "title"; col_type = col_type.Text; role = role })
        ≡ record { kind = 1; len = 5; name = codes "title" ++ replicate 27 0 } }
{}
