//! Tables and queries for tests.
use crate::assertions::assert_same;
use crate::put_again::put_again;
use mm_query::{Atom, Comparison, FieldName, FromItem, Operand, Query};
use mm_schema::{Catalog, Column, Columns, Name, NameRef, Role, TableDef};
use mm_value::{ColType, Few, Refusal, Text, Value};
use std::process::Abort;

pub fn name(rt: &impl Abort, bytes: &[u8]) -> Name {
    Name::new(bytes).expect(rt, "a name")
}

/// Appends an item, and tries once more if an allocation fails.
pub fn put<T: Drop>(rt: &impl Abort, items: &mut Vec<T>, item: T) {
    let _ = put_again(items, item).ok().expect(rt, "memory");
}

/// Returns a table of these columns, the first of which is the key.
fn table(rt: &(impl Abort + AllocGlobal), bytes: &[u8], columns: &[(&[u8], ColType)]) -> TableDef {
    let mut items = Vec::new(rt.alloc());
    for (i, (bytes, col_type)) in columns.iter().enumerate() {
        let column = Column {
            name: name(rt, bytes),
            col_type: *col_type,
            role: if i == 0 { Role::Key } else { Role::Plain },
        };
        put(rt, &mut items, column);
    }
    TableDef {
        name: name(rt, bytes),
        columns: Columns::new(items).expect(rt, "a key"),
    }
}

/// Adds a table, and tries once more if an allocation fails.
fn add(
    rt: &(impl Abort + AllocGlobal),
    catalog: &mut Catalog,
    bytes: &[u8],
    columns: &[(&[u8], ColType)],
) {
    if let Err(refusal) = catalog.add_table(table(rt, bytes, columns)) {
        assert_same(rt, refusal, Refusal::Memory);
        let _ = catalog
            .add_table(table(rt, bytes, columns))
            .ok()
            .expect(rt, "memory");
    }
}

/// Returns a catalog of the tables t (id, k), u (id, v) and s (id, k, s). All columns are whole numbers, except the text s.s.
pub fn catalog(rt: &(impl Abort + AllocGlobal)) -> Catalog {
    let mut catalog = Catalog::new(rt.alloc());
    let int = ColType::Int;
    add(rt, &mut catalog, b"t", &[(b"id", int), (b"k", int)]);
    add(rt, &mut catalog, b"u", &[(b"id", int), (b"v", int)]);
    let text = ColType::Text;
    add(
        rt,
        &mut catalog,
        b"s",
        &[(b"id", int), (b"k", int), (b"s", text)],
    );
    catalog
}

fn name_ref<'l>(rt: &impl Abort, bytes: &'l [u8]) -> NameRef<'l> {
    NameRef::new(bytes).expect(rt, "a name")
}

pub fn field<'l>(rt: &impl Abort, alias: &'l [u8], column: &'l [u8]) -> FieldName<NameRef<'l>> {
    FieldName {
        alias: name_ref(rt, alias),
        column: name_ref(rt, column),
    }
}

pub fn number<'l>(number: i64) -> Operand<FieldName<NameRef<'l>>> {
    Operand::Literal(Value::Int(number))
}

pub fn text(rt: &(impl Abort + AllocGlobal), bytes: &[u8]) -> Value {
    Value::Text(Text::new(rt.alloc(), bytes).expect(rt, "a text"))
}

/// Returns a query of these tables and fields, without atoms and ORDER.
pub fn query<'l>(
    rt: &(impl Abort + AllocGlobal),
    from: &[(&[u8], &[u8])],
    fields: &[(&'l [u8], &'l [u8])],
) -> Query<'l> {
    let mut items = Vec::new(rt.alloc());
    for (table, alias) in from {
        let item = FromItem {
            table: name(rt, table),
            alias: name(rt, alias),
        };
        put(rt, &mut items, item);
    }
    let mut shown = Vec::new(rt.alloc());
    for (alias, column) in fields {
        put(rt, &mut shown, field(rt, alias, column));
    }
    Query {
        distinct: false,
        fields: Few::from_vec(shown),
        from: Few::from_vec(items),
        atoms: Few::from_vec(Vec::new(rt.alloc())),
        order: Few::from_vec(Vec::new(rt.alloc())),
    }
}

/// Returns the query with one more atom.
pub fn with_atom<'l>(
    rt: &(impl Abort + AllocGlobal),
    query: Query<'l>,
    left: FieldName<NameRef<'l>>,
    comparison: Comparison,
    right: Operand<FieldName<NameRef<'l>>>,
) -> Query<'l> {
    let Query {
        distinct,
        fields,
        from,
        atoms,
        order,
    } = query;
    let mut longer = Vec::new(rt.alloc());
    for own in atoms {
        put(rt, &mut longer, own);
    }
    let atom = Atom {
        left,
        comparison,
        right,
    };
    put(rt, &mut longer, atom);
    Query {
        distinct,
        fields,
        from,
        atoms: Few::from_vec(longer),
        order,
    }
}
