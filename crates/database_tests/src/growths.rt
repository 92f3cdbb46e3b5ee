//! Calls whose allocations fail, as `tests/refused_growths.py` lets them: in each run of a test one allocation, or all from one to the line
//! that reports a failed call. Then the call has changed nothing, and is repeated.
//!
//! Any other allocation that fails before that line ends the test, as passed. `SCAN`, `DROP` and `UNWATCH` allocate nothing, nor do
//! `BEGIN`, `COMMIT`, `ROLLBACK` and `ROLLBACK TO`. Tests of savepoints are in `savepoints.rt`.
use crate::assertions::{assert_same, assert_that};
use crate::samples::{
    bound_query, catalog, change, command, index, inserted, reading, selected, sizes_of_bound,
    table, text_of_rows,
};
use crate::steps::{
    ask_each, end_refused, give_each, not_so_far, read_each, roll_back, tell_refused,
};
use mm_query::{
    BoundQuery, Command, FieldPlace, PlainRows, RowList, bind_change, bind_query, plain_eval,
};
use mm_schema::{Catalog, Name};
use mm_value::{Refusal, Row};
use std::alloc::{AllocError, Global};
use std::process::Abort;
use std::test::Fail;

/// Tables, the first of which is referred to.
const TABLES: [&str; 5] = [
    "TABLE a (id INT KEY)",
    "TABLE b (id INT KEY, r INT REF a, s TEXT)",
    "TABLE c (id INT KEY)",
    "TABLE d (id INT KEY)",
    "TABLE e (id INT KEY)",
];

/// Names of indexes, of standing queries and of savepoints.
pub const NAMES: [&[u8]; 5] = [b"a", b"b", b"c", b"d", b"e"];

pub const NO_NAME: &str = "no name";

/// Departments with employees, and a log of these, which is empty.
pub const FILLED: [&str; 9] = [
    "TABLE dept (id INT KEY, name TEXT)",
    "TABLE emp (id INT KEY, name TEXT, d INT REF dept)",
    "TABLE log (at INT KEY, e INT REF emp)",
    "INDEX by_d ON emp (d) TREE",
    "INDEX by_e ON log (e) HASH",
    "INSERT dept (1, 'sales'), (2, 'stock')",
    "INSERT emp (10, 'ann', 1), (11, 'bob', 2)",
    "WATCH names SELECT d.name, e.name FROM emp e, dept d WHERE e.d = d.id",
    "WATCH seen SELECT DISTINCT e.d FROM log l, emp e WHERE l.e = e.id",
];

/// Questions that show the log, what an index finds there, and a standing query over it.
const OF_LOG: [&str; 3] = [
    "SELECT l.at, l.e FROM log l",
    "SELECT l.at FROM log l WHERE l.e = 10",
    "SHOW seen",
];

/// Questions that show what an index finds among the employees, and a standing query over them.
pub const OF_EMP: [&str; 2] = ["SELECT e.id, e.name FROM emp e WHERE e.d = 2", "SHOW names"];

const EMPTY_LOG: &str = "rows 0\nrows 0\nrows 0\n";

const THREE_LOGGED: &str =
    "(1, 10)\n(2, 11)\n(3, 10)\nrows 3\n(1)\n(3)\nrows 2\n(1)\n(2)\nrows 2\n";

pub const FIRST_EMP: &str = "(11, 'bob')\nrows 1\n('sales', 'ann')\n('stock', 'bob')\nrows 2\n";

pub const MOVED_EMP: &str =
    "(10, 'ann of the second floor')\n(11, 'bob')\nrows 2\n('stock', 'ann of the second floor')\n('stock', 'bob')\nrows 2\n";

/// Adds a table, again if an allocation fails, and checks its place. Returns whether the call was reached: false if an earlier allocation
/// failed.
fn add_table_again(
    rt: &(impl Abort + AllocGlobal + Print),
    catalog: &mut Catalog,
    line: &str,
    place: usize,
) -> Result<bool, Fail> {
    match table(rt.alloc(), line) {
        Ok(added) => {
            let name = added.name.copy();
            let outcome = catalog.add_table(added);
            expect_table(rt, catalog, line, &name, place, outcome)
        }
        Err(refusal) => not_so_far(rt, refusal),
    }
}

/// Adds the table of a line again if an allocation failed, and checks its place.
fn expect_table(
    rt: &(impl Abort + AllocGlobal + Print),
    catalog: &mut Catalog,
    line: &str,
    name: &Name,
    place: usize,
    outcome: Result<(), Refusal>,
) -> Result<bool, Fail> {
    if let Err(refusal) = outcome {
        tell_refused(rt, refusal)?;
        assert_same(rt, catalog.tables().len(), place);
        assert_that(rt, catalog.find_table(name).is_none());
        catalog.add_table(table(rt.alloc(), line)?)?;
    }
    assert_same(rt, catalog.place_of(name), Some(place));
    Ok(true)
}

/// Adds the tables, each again if an allocation fails.
fn add_tables_again(
    rt: &(impl Abort + AllocGlobal + Print),
    catalog: &mut Catalog,
) -> Result<(), Fail> {
    for (place, line) in TABLES.iter().enumerate() {
        if !add_table_again(rt, catalog, line, place)? {
            return Ok(());
        }
    }
    Ok(())
}

#[test]
fn catalog_table_growths(rt: HostRuntime) -> Result<(), Fail> {
    let mut catalog = Catalog::new(rt.alloc());
    add_tables_again(&rt, &mut catalog)
}

/// Adds an index with a name on the keys of the table a.
fn add_index(catalog: &mut Catalog, name: &Name) -> Result<(), Refusal> {
    match index(name) {
        Some(index) => catalog.add_index(index),
        None => Err(Refusal::Syntax),
    }
}

/// Adds an index, again if an allocation fails, and checks the table that has it.
fn add_index_again(
    rt: &(impl Abort + Print),
    catalog: &mut Catalog,
    name: &Name,
) -> Result<(), Fail> {
    if let Err(refusal) = add_index(catalog, name) {
        tell_refused(rt, refusal)?;
        assert_that(rt, catalog.find_index(name).is_none());
        add_index(catalog, name)?;
    }
    assert_same(rt, catalog.place_with_index(name), Some(0));
    Ok(())
}

/// Adds an index with each name, again if an allocation fails.
fn add_indexes_again(rt: &(impl Abort + Print), catalog: &mut Catalog) -> Result<(), Fail> {
    for bytes in NAMES {
        let name = Name::new(bytes).ok_or(NO_NAME)?;
        add_index_again(rt, catalog, &name)?;
    }
    Ok(())
}

#[test]
fn catalog_index_growths(rt: HostRuntime) -> Result<(), Fail> {
    match catalog(rt.alloc(), &TABLES) {
        Ok(mut catalog) => add_indexes_again(&rt, &mut catalog),
        Err(refusal) => end_refused(&rt, refusal),
    }
}

/// Adds a standing query over a table.
fn add_standing(alloc: Global, catalog: &mut Catalog, name: &Name) -> Result<(), Refusal> {
    let tables = reading(alloc, catalog, name)?;
    catalog.add_standing(name.copy(), tables)
}

/// Adds a standing query over a table, again if an allocation fails, and checks its place. Returns whether the call was reached: false if
/// an earlier allocation failed.
fn add_standing_again(
    rt: &(impl Abort + AllocGlobal + Print),
    catalog: &mut Catalog,
    name: &Name,
    place: usize,
) -> Result<bool, Fail> {
    let outcome = match reading(rt.alloc(), catalog, name) {
        Ok(tables) => catalog.add_standing(name.copy(), tables),
        Err(_) => return Ok(false),
    };
    if let Err(refusal) = outcome {
        tell_refused(rt, refusal)?;
        assert_same(rt, catalog.standing().len(), place);
        add_standing(rt.alloc(), catalog, name)?;
    }
    assert_same(rt, catalog.standing_place_of(name), Some(place));
    Ok(true)
}

/// Adds a standing query with each name, again if an allocation fails.
fn add_each_standing_again(
    rt: &(impl Abort + AllocGlobal + Print),
    catalog: &mut Catalog,
) -> Result<(), Fail> {
    for (place, bytes) in NAMES.iter().enumerate() {
        let name = Name::new(bytes).ok_or(NO_NAME)?;
        if !add_standing_again(rt, catalog, &name, place)? {
            return Ok(());
        }
    }
    Ok(())
}

#[test]
fn catalog_standing_growths(rt: HostRuntime) -> Result<(), Fail> {
    match catalog(rt.alloc(), &TABLES) {
        Ok(mut catalog) => add_each_standing_again(&rt, &mut catalog),
        Err(refusal) => end_refused(&rt, refusal),
    }
}

/// A query with all clauses except DISTINCT, with more fields, tests and positions than a bound query stores inline.
const QUERY: &str =
    "SELECT b.s, a.id, b.id, b.r, a.id FROM a a, b b WHERE a.id = b.r AND b.s = 'of eighteen bytes.' AND b.id > 0 ORDER 2, 1, 3, 4, 5";

/// The fields of that query.
const FIELDS: [FieldPlace; 5] = [
    FieldPlace {
        place: 1,
        column: 2,
    },
    FieldPlace {
        place: 0,
        column: 0,
    },
    FieldPlace {
        place: 1,
        column: 0,
    },
    FieldPlace {
        place: 1,
        column: 1,
    },
    FieldPlace {
        place: 0,
        column: 0,
    },
];

/// Asserts that the query is bound to the tables.
fn assert_bound(rt: &impl Abort, bound: &BoundQuery) {
    assert_same(rt, bound.fields.as_slice(), FIELDS.as_slice());
    assert_same(rt, bound.order.as_slice(), [1, 0, 2, 3, 4].as_slice());
    let sizes = [bound.from.as_slice().len(), bound.atoms.as_slice().len()];
    assert_same(rt, sizes, [2, 3]);
}

/// Binds the query with all clauses except DISTINCT, again if an allocation fails, and checks it.
fn bind_the_query_again(
    rt: &(impl Abort + AllocGlobal + Print),
    catalog: &Catalog,
) -> Result<(), Fail> {
    let alloc = rt.alloc();
    let outcome = match selected(alloc, QUERY) {
        Ok(query) => bind_query(alloc, catalog, query),
        Err(refusal) => return end_refused(rt, refusal),
    };
    let bound = match outcome {
        Ok(bound) => bound,
        Err(refusal) => {
            tell_refused(rt, refusal)?;
            bind_query(alloc, catalog, selected(alloc, QUERY)?)?
        }
    };
    assert_bound(rt, &bound.query);
    assert_same(rt, bound.tables.as_slice(), [0, 1].as_slice());
    Ok(())
}

#[test]
fn bind_query_growths(rt: HostRuntime) -> Result<(), Fail> {
    match catalog(rt.alloc(), &TABLES) {
        Ok(catalog) => bind_the_query_again(&rt, &catalog),
        Err(refusal) => end_refused(&rt, refusal),
    }
}

/// Binds a change, again if an allocation fails, and checks the lengths of its lists. Returns whether the call was reached: false if an
/// earlier allocation failed.
fn bind_again(
    rt: &(impl Abort + AllocGlobal + Print),
    catalog: &Catalog,
    line: &str,
    expected: [usize; 3],
) -> Result<bool, Fail> {
    let alloc = rt.alloc();
    let outcome = match change(alloc, line) {
        Ok(mutation) => bind_change(alloc, catalog, mutation),
        Err(refusal) => return not_so_far(rt, refusal),
    };
    let bound = match outcome {
        Ok(bound) => bound,
        Err(refusal) => {
            tell_refused(rt, refusal)?;
            bind_change(alloc, catalog, change(alloc, line)?)?
        }
    };
    assert_same(rt, sizes_of_bound(&bound), expected);
    Ok(true)
}

/// Changes, with the place of the table that each is bound to, and the lengths of its lists: more assignments and tests than a bound change
/// stores inline.
const CHANGES: [(&str, [usize; 3]); 3] = [
    (
        "UPDATE b SET s = 'of eighteen bytes.', r = r + 1, id = id + 1 WHERE id > 5 AND id < 9 AND r > 0",
        [1, 3, 3],
    ),
    (
        "DELETE b WHERE s = 'of eighteen bytes.' AND r = id AND id > 5",
        [1, 0, 3],
    ),
    ("INSERT a (7)", [0, 1, 0]),
];

/// Binds the changes, each again if an allocation fails.
fn bind_changes_again(
    rt: &(impl Abort + AllocGlobal + Print),
    catalog: &Catalog,
) -> Result<(), Fail> {
    for (line, expected) in CHANGES {
        if !bind_again(rt, catalog, line, expected)? {
            return Ok(());
        }
    }
    Ok(())
}

#[test]
fn bind_change_growths(rt: HostRuntime) -> Result<(), Fail> {
    match catalog(rt.alloc(), &TABLES) {
        Ok(catalog) => bind_changes_again(&rt, &catalog),
        Err(refusal) => end_refused(&rt, refusal),
    }
}

/// Adds the same rows twice, again if an allocation fails.
fn add_twice<'a>(
    rt: &(impl Abort + Print),
    lists: &mut PlainRows<'a>,
    rows: &'a [Row],
) -> Result<(), Fail> {
    for _ in 0..2 {
        if let Err(AllocError) = lists.add(rows) {
            println!(rt; "refused")?;
            lists.add(rows)?;
        }
    }
    Ok(())
}

/// Evaluates a query, again if an allocation fails, and checks its rows.
fn eval_again(
    rt: &(impl Abort + AllocGlobal + Print),
    bound: &BoundQuery,
    lists: &PlainRows,
) -> Result<(), Fail> {
    match plain_eval(rt.alloc(), bound, lists) {
        Ok(found) => expect_found(rt, &found),
        Err(refusal) => {
            tell_refused(rt, refusal)?;
            expect_found(rt, &plain_eval(rt.alloc(), bound, lists)?);
        }
    }
    Ok(())
}

/// Checks the rows of the query, unless an allocation for their text fails.
fn expect_found(rt: &(impl Abort + AllocGlobal), found: &[Row]) {
    match text_of_rows(rt.alloc(), found) {
        Ok(told) => {
            let expected = b"(1, 3)\n(2, 4)\n(3, 5)\nrows 3\n";
            assert_same(rt, told.as_slice(), expected.as_slice());
        }
        Err(AllocError) => {}
    }
}

/// Adds rows twice and evaluates a query over them.
fn eval_over(
    rt: &(impl Abort + AllocGlobal + Print),
    bound: &BoundQuery,
    rows: &[Row],
) -> Result<(), Fail> {
    let mut lists = PlainRows::new(rt.alloc());
    add_twice(rt, &mut lists, rows)?;
    eval_again(rt, bound, &lists)
}

/// Returns rows with the values of tuples. Fails with `AllocError` if an allocation fails.
fn rows_of(alloc: Global, tuples: &RowList) -> Result<Vec<Row>, AllocError> {
    let mut rows = Vec::new(alloc);
    for tuple in tuples.as_slice() {
        rows.push(Row::copy_of(alloc, tuple.values())?)?;
    }
    Ok(rows)
}

/// Adds the rows of an `INSERT` twice and evaluates a query over them.
fn eval_over_tuples(
    rt: &(impl Abort + AllocGlobal + Print),
    bound: &BoundQuery,
    insert: &Command<'_>,
) -> Result<(), Fail> {
    match rows_of(rt.alloc(), inserted(insert)?) {
        Ok(rows) => eval_over(rt, bound, rows.as_slice()),
        Err(AllocError) => Ok(()),
    }
}

/// Adds the rows of a line twice and evaluates a query over them.
fn eval_over_inserted(
    rt: &(impl Abort + AllocGlobal + Print),
    bound: &BoundQuery,
) -> Result<(), Fail> {
    match command(rt.alloc(), "INSERT a (1), (2), (3), (4), (5)") {
        Ok(insert) => {
            let outcome = eval_over_tuples(rt, bound, &insert);
            drop(insert);
            outcome
        }
        Err(refusal) => end_refused(rt, refusal),
    }
}

#[test]
fn plain_eval_growths(rt: HostRuntime) -> Result<(), Fail> {
    match bound_query(rt.alloc()) {
        Ok(bound) => eval_over_inserted(&rt, &bound),
        Err(refusal) => end_refused(&rt, refusal),
    }
}

#[test]
fn parse_definition_growths(rt: HostRuntime) -> Result<(), Fail> {
    read_each(
        &rt,
        &[
            (
                "TABLE emp (id INT KEY, name TEXT, d INT REF dept)",
                [3, 0, 0, 0],
            ),
            ("DROP TABLE emp", [0; 4]),
            ("INDEX by_d ON emp (d) TREE", [0; 4]),
            ("DROP INDEX by_d", [0; 4]),
            (
                "WATCH w SELECT DISTINCT a.k FROM t a WHERE a.k > 5 ORDER 1",
                [1, 1, 1, 1],
            ),
            ("UNWATCH w", [0; 4]),
        ],
    )
}

#[test]
fn parse_change_growths(rt: HostRuntime) -> Result<(), Fail> {
    read_each(
        &rt,
        &[
            (
                "INSERT dept (1, 'sales and services'), (2, '')",
                [2, 2, 0, 0],
            ),
            (
                "UPDATE t SET k = k + 1, s = 'of eighteen bytes.' WHERE k < 5",
                [2, 1, 0, 0],
            ),
            (
                "DELETE t WHERE s = 'of eighteen bytes.' AND k = j",
                [2, 0, 0, 0],
            ),
            ("BEGIN", [0; 4]),
            ("COMMIT", [0; 4]),
            ("ROLLBACK", [0; 4]),
            ("SAVEPOINT s", [0; 4]),
            ("ROLLBACK TO s", [0; 4]),
        ],
    )
}

#[test]
fn parse_question_growths(rt: HostRuntime) -> Result<(), Fail> {
    read_each(
        &rt,
        &[
            ("SCAN t", [0; 4]),
            ("SCAN INDEX i", [0; 4]),
            (
                "SELECT a.k, b.s FROM t a, u b WHERE a.r = b.id ORDER 2, 1",
                [2, 2, 1, 2],
            ),
            (
                "EXPLAIN SELECT a.k FROM t a, t b, t c WHERE a.s = 'of eighteen bytes.'",
                [1, 3, 1, 0],
            ),
            ("SHOW w", [0; 4]),
            ("TABLES", [0; 4]),
        ],
    )
}

#[test]
fn define_table_growths(rt: HostRuntime) -> Result<(), Fail> {
    give_each(
        &rt,
        &[],
        &["TABLES"],
        &[
            (
                "TABLE a (id INT KEY)",
                "TABLE a (id INT KEY) rows 0\ntables 1\n",
            ),
            (
                "TABLE b (id INT KEY, r INT REF a)",
                "TABLE a (id INT KEY) rows 0\nTABLE b (id INT KEY, r INT REF a) rows 0\ntables 2\n",
            ),
            ("DROP TABLE b", "TABLE a (id INT KEY) rows 0\ntables 1\n"),
        ],
    )
}

#[test]
fn define_index_growths(rt: HostRuntime) -> Result<(), Fail> {
    let plan = "EXPLAIN SELECT e.id FROM emp e WHERE e.name = 'bob'";
    let found = "SELECT e.id FROM emp e WHERE e.name = 'bob'";
    give_each(
        &rt,
        &FILLED,
        &[plan, found],
        &[
            (
                "INDEX i ON emp (name) HASH",
                "e hash i\nsteps 1\n(11)\nrows 1\n",
            ),
            ("DROP INDEX i", "e scan\nsteps 1\n(11)\nrows 1\n"),
            (
                "INDEX j ON emp (name) TREE",
                "e tree j =\nsteps 1\n(11)\nrows 1\n",
            ),
        ],
    )
}

#[test]
fn define_standing_growths(rt: HostRuntime) -> Result<(), Fail> {
    give_each(
        &rt,
        &[
            "TABLE t (id INT KEY, k INT)",
            "INSERT t (1, 5), (2, 5), (3, 6)",
        ],
        &["TABLES"],
        &[
            (
                "WATCH w SELECT DISTINCT a.k FROM t a, t b WHERE a.k = b.k",
                "TABLE t (id INT KEY, k INT) rows 3\nWATCH w rows 2\ntables 1\n",
            ),
            (
                "UNWATCH w",
                "TABLE t (id INT KEY, k INT) rows 3\ntables 1\n",
            ),
        ],
    )
}

#[test]
fn insert_growths(rt: HostRuntime) -> Result<(), Fail> {
    let insert = "INSERT log (1, 10), (2, 11), (3, 10)";
    give_each(
        &rt,
        &FILLED,
        &OF_LOG,
        &[
            (insert, THREE_LOGGED),
            ("DELETE log WHERE at > 0", EMPTY_LOG),
        ],
    )
}

#[test]
fn update_growths(rt: HostRuntime) -> Result<(), Fail> {
    give_each(
        &rt,
        &FILLED,
        &OF_EMP,
        &[
            (
                "UPDATE emp SET name = 'ann of the second floor', d = 2 WHERE id = 10",
                MOVED_EMP,
            ),
            (
                "UPDATE emp SET name = 'ann', d = 1 WHERE id = 10",
                FIRST_EMP,
            ),
        ],
    )
}

#[test]
fn delete_growths(rt: HostRuntime) -> Result<(), Fail> {
    give_each(
        &rt,
        &FILLED,
        &OF_EMP,
        &[
            (
                "DELETE emp WHERE d = 2",
                "rows 0\n('sales', 'ann')\nrows 1\n",
            ),
            ("INSERT emp (11, 'bob', 2)", FIRST_EMP),
        ],
    )
}

#[test]
fn rolled_back_insert_growths(rt: HostRuntime) -> Result<(), Fail> {
    let insert = "INSERT log (1, 10), (2, 11), (3, 10)";
    give_each(
        &rt,
        &FILLED,
        &OF_LOG,
        &[
            ("BEGIN", EMPTY_LOG),
            (insert, THREE_LOGGED),
            ("ROLLBACK", EMPTY_LOG),
        ],
    )
}

#[test]
fn rolled_back_change_growths(rt: HostRuntime) -> Result<(), Fail> {
    give_each(
        &rt,
        &FILLED,
        &OF_EMP,
        &[
            ("BEGIN", FIRST_EMP),
            (
                "UPDATE emp SET name = 'ann of the second floor', d = 2 WHERE id = 10",
                MOVED_EMP,
            ),
            ("DELETE emp", "rows 0\nrows 0\n"),
            ("ROLLBACK", FIRST_EMP),
        ],
    )
}

#[test]
fn rollback_growths(rt: HostRuntime) -> Result<(), Fail> {
    roll_back(
        &rt,
        &FILLED,
        &["BEGIN", "UPDATE emp SET name = 'cat'"],
        "UPDATE emp SET name = 'ann of the second floor', d = 2 WHERE id = 10",
        "ROLLBACK",
        &OF_EMP,
        FIRST_EMP,
    )
}

#[test]
fn select_growths(rt: HostRuntime) -> Result<(), Fail> {
    ask_each(
        &rt,
        &FILLED,
        &[
            (
                "SELECT DISTINCT d.name, e.name FROM emp e, dept d WHERE e.d = d.id ORDER 2, 1",
                "('sales', 'ann')\n('stock', 'bob')\nrows 2\n",
            ),
            (
                "SELECT a.id, b.id FROM emp a, emp b WHERE a.name = b.name",
                "(10, 10)\n(11, 11)\nrows 2\n",
            ),
            (
                "SELECT a.id, b.id FROM emp a, dept b WHERE a.d < b.id",
                "(10, 2)\nrows 1\n",
            ),
        ],
    )
}

#[test]
fn explain_growths(rt: HostRuntime) -> Result<(), Fail> {
    ask_each(
        &rt,
        &FILLED,
        &[(
            "EXPLAIN SELECT e.id FROM emp e, dept d WHERE e.d = 1 AND e.d = d.id",
            "e tree by_d =\nd precomputed e.d\nsteps 2\n",
        )],
    )
}

#[test]
fn show_growths(rt: HostRuntime) -> Result<(), Fail> {
    ask_each(
        &rt,
        &FILLED,
        &[
            ("SHOW names", "('sales', 'ann')\n('stock', 'bob')\nrows 2\n"),
            ("SHOW seen", "rows 0\n"),
        ],
    )
}

#[test]
fn tables_growths(rt: HostRuntime) -> Result<(), Fail> {
    ask_each(
        &rt,
        &FILLED[..4],
        &[(
            "TABLES",
            "TABLE dept (id INT KEY, name TEXT) rows 0\nTABLE emp (id INT KEY, name TEXT, d INT REF dept) rows 0\nINDEX by_d ON emp (d) TREE\nTABLE log (at INT KEY, e INT REF emp) rows 0\ntables 3\n",
        )],
    )
}
