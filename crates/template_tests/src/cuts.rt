//! Which lines are cut, and into what.
use mm_template::Cutter;
use mm_value::Value;
use std::process::Abort;
use std::test::Fail;

/// Tests that a line is cut into this template and these values, written one after the other with a bar after each.
fn expect_cut(rt: &(impl Abort + AllocGlobal), line: &[u8], template: &[u8], values: &[u8]) {
    let mut cutter = Cutter::new(rt.alloc());
    let is_cut = cutter.cut(rt.alloc(), line);
    assert!(rt; is_cut, "not cut: {line:?}");
    let is_template = cutter.template() == template;
    assert!(rt; is_template, "another template: {line:?}");
    let are_values = are_written_so(cutter.values(), values);
    drop(cutter);
    assert!(rt; are_values, "other values: {line:?}");
}

/// Whether values are written so: digits or the bytes of a text, and a bar after each.
fn are_written_so(values: &[Value], written: &[u8]) -> bool {
    let mut rest = written;
    for value in values {
        let Some(end) = rest.iter().position(|byte| *byte == b'|') else {
            return false;
        };
        if !is_written_so(value, &rest[..end]) {
            return false;
        }
        rest = &rest[end + 1..];
    }
    rest.is_empty()
}

/// Whether a value is written so. A number has a `#` before its digits.
fn is_written_so(value: &Value, written: &[u8]) -> bool {
    match value {
        Value::Int(number) => {
            let Some((first, digits)) = written.split_first() else {
                return false;
            };
            if *first == b'-' {
                mm_value::read_int(true, digits) == Ok(*number)
            } else {
                *first == b'#' && mm_value::read_int(false, digits) == Ok(*number)
            }
        }
        Value::Text(text) => text.bytes() == written,
    }
}

/// Tests that a line is not cut.
fn expect_whole(rt: &(impl Abort + AllocGlobal), line: &[u8]) {
    let mut cutter = Cutter::new(rt.alloc());
    let is_cut = cutter.cut(rt.alloc(), line);
    drop(cutter);
    assert!(rt; !is_cut, "cut: {line:?}");
}

#[test]
fn numbers_are_cut(rt: HostRuntime) -> Result<(), Fail> {
    expect_cut(
        &rt,
        b"SELECT a.k FROM t a WHERE a.id = 17",
        b"SELECT a.k FROM t a WHERE a.id = ?",
        b"#17|",
    );
    expect_cut(
        &rt,
        b"DELETE t WHERE a<5 AND b>=007 AND c > 9223372036854775807",
        b"DELETE t WHERE a<? AND b>=? AND c > ?",
        b"#5|#7|#9223372036854775807|",
    );
    expect_cut(&rt, b"UPDATE t SET v1=1", b"UPDATE t SET v1=?", b"#1|");
    expect_cut(
        &rt,
        b"DELETE\tt WHERE\tk =\t0\t",
        b"DELETE\tt WHERE\tk =\t?\t",
        b"#0|",
    );
    Ok(())
}

#[test]
fn numbers_with_a_minus_are_cut_with_it(rt: HostRuntime) -> Result<(), Fail> {
    expect_cut(&rt, b"DELETE t WHERE a<=-5", b"DELETE t WHERE a<=?", b"-5|");
    expect_cut(
        &rt,
        b"DELETE t WHERE a = -9223372036854775808",
        b"DELETE t WHERE a = ?",
        b"-9223372036854775808|",
    );
    expect_cut(
        &rt,
        b"DELETE t WHERE a = -0",
        b"DELETE t WHERE a = ?",
        b"#0|",
    );
    Ok(())
}

#[test]
fn rows_are_cut(rt: HostRuntime) -> Result<(), Fail> {
    expect_cut(
        &rt,
        b"INSERT t (1, -2, 'it''s')",
        b"INSERT t (?, ?, ?)",
        b"#1|-2|it's|",
    );
    expect_cut(
        &rt,
        b"INSERT t (1,'a'),(2,''), ( 3 , '?' )",
        b"INSERT t (?,?),(?,?), ( ? , ? )",
        b"#1|a|#2||#3|?|",
    );
    expect_cut(&rt, b"INSERT t5 (-0)", b"INSERT t5 (?)", b"#0|");
    Ok(())
}

#[test]
fn texts_are_cut(rt: HostRuntime) -> Result<(), Fail> {
    expect_cut(
        &rt,
        b"DELETE t WHERE s = 'abc' AND k = 1",
        b"DELETE t WHERE s = ? AND k = ?",
        b"abc|#1|",
    );
    expect_cut(&rt, b"DELETE t WHERE s = ''", b"DELETE t WHERE s = ?", b"|");
    expect_cut(
        &rt,
        b"DELETE t WHERE s = '''' AND r='it''s' AND q = ''''''",
        b"DELETE t WHERE s = ? AND r=? AND q = ?",
        b"'|it's|''|",
    );
    expect_cut(
        &rt,
        b"DELETE t WHERE s = 'a?b -- 5 ORDER'",
        b"DELETE t WHERE s = ?",
        b"a?b -- 5 ORDER|",
    );
    expect_cut(
        &rt,
        b"UPDATE t SET s = '0123456789012345678901234567890123456789012345678901234567890123', k = 5",
        b"UPDATE t SET s = ?, k = ?",
        b"0123456789012345678901234567890123456789012345678901234567890123|#5|",
    );
    Ok(())
}

#[test]
fn shifts_keep_a_minus_of_their_number(rt: HostRuntime) -> Result<(), Fail> {
    expect_cut(
        &rt,
        b"UPDATE t SET n = n + 17",
        b"UPDATE t SET n = n + ?",
        b"#17|",
    );
    expect_cut(
        &rt,
        b"UPDATE t SET n = k - 5",
        b"UPDATE t SET n = k - ?",
        b"#5|",
    );
    expect_cut(
        &rt,
        b"UPDATE t SET n = k-5 WHERE id = 3",
        b"UPDATE t SET n = k-5 WHERE id = ?",
        b"#3|",
    );
    expect_cut(
        &rt,
        b"UPDATE t SET n = k -5 WHERE id = 3",
        b"UPDATE t SET n = k -5 WHERE id = ?",
        b"#3|",
    );
    expect_cut(
        &rt,
        b"UPDATE t SET n = k + -5, m=2",
        b"UPDATE t SET n = k + -5, m=?",
        b"#2|",
    );
    expect_cut(
        &rt,
        b"UPDATE t SET n = k --5, m=-2",
        b"UPDATE t SET n = k --5, m=?",
        b"-2|",
    );
    Ok(())
}

#[test]
fn positions_of_order_are_not_cut(rt: HostRuntime) -> Result<(), Fail> {
    expect_cut(
        &rt,
        b"SELECT a.k, a.n FROM t a WHERE a.id = 5 ORDER 1, 2",
        b"SELECT a.k, a.n FROM t a WHERE a.id = ? ORDER 1, 2",
        b"#5|",
    );
    expect_cut(
        &rt,
        b"SELECT a.ORDERS FROM t a WHERE a.ORDERx = 5",
        b"SELECT a.ORDERS FROM t a WHERE a.ORDERx = ?",
        b"#5|",
    );
    expect_whole(&rt, b"SELECT a.k FROM t a ORDER 1");
    expect_whole(&rt, b"SELECT a.k FROM t a WHERE a.k = 1 ORDER 'a'");
    Ok(())
}

#[test]
fn literals_elsewhere_are_not_cut(rt: HostRuntime) -> Result<(), Fail> {
    expect_cut(
        &rt,
        b"SELECT 7, a.k FROM t5 a WHERE a.k3 = 1",
        b"SELECT 7, a.k FROM t5 a WHERE a.k3 = ?",
        b"#1|",
    );
    expect_whole(&rt, b"SELECT 7 FROM t a");
    expect_whole(&rt, b"DELETE t WHERE 'a' = s AND k = 1");
    expect_whole(&rt, b"UPDATE t SET n = k + 'a', m = 1");
    Ok(())
}

#[test]
fn other_lines_are_not_cut(rt: HostRuntime) -> Result<(), Fail> {
    expect_whole(&rt, b"");
    expect_whole(&rt, b"--SELECT 5");
    expect_whole(&rt, b" SELECT a.k FROM t a WHERE a.k = 1");
    expect_whole(&rt, b"SELECT a.k FROM t a");
    expect_whole(&rt, b"SELECT");
    expect_whole(&rt, b"INSERT t");
    expect_whole(&rt, b"INSERT_ t (1)");
    expect_whole(&rt, b"SCAN t");
    expect_whole(&rt, b"EXPLAIN SELECT a.k FROM t a WHERE a.k = 1");
    expect_whole(&rt, b"WATCH w SELECT a.k FROM t a WHERE a.k = 1");
    expect_whole(&rt, b"select a.k FROM t a WHERE a.k = 1");
    expect_whole(&rt, b"SELECTx a.k FROM t a WHERE a.k = 1");
    expect_whole(&rt, b"DELETE_ t WHERE k = 1");
    Ok(())
}

#[test]
fn lines_with_other_bytes_are_not_cut(rt: HostRuntime) -> Result<(), Fail> {
    expect_whole(&rt, b"DELETE t WHERE k = ?");
    expect_whole(&rt, b"DELETE t WHERE k = 1 AND j = ?");
    expect_whole(&rt, b"SELECT a.k FROM t a WHERE a.k = 1 ORDER ?");
    expect_whole(&rt, b"DELETE t WHERE k = 1;");
    expect_whole(&rt, b"DELETE t WHERE k = 1\r");
    expect_whole(&rt, b"DELETE t WHERE k = 1 AND s = \xC3\xA4");
    expect_whole(&rt, b"DELETE t WHERE s = 'abc");
    expect_whole(&rt, b"DELETE t WHERE s = 'abc''");
    expect_whole(&rt, b"DELETE t WHERE s = '");
    expect_whole(&rt, b"DELETE t WHERE s = 'a\nb'");
    Ok(())
}

#[test]
fn lines_with_other_literals_are_not_cut(rt: HostRuntime) -> Result<(), Fail> {
    expect_whole(&rt, b"DELETE t WHERE k = 9223372036854775808");
    expect_whole(&rt, b"DELETE t WHERE k = -9223372036854775809");
    expect_whole(&rt, b"DELETE t WHERE k = 5x");
    expect_whole(&rt, b"DELETE t WHERE k = -x");
    expect_whole(&rt, b"DELETE t WHERE k = 5'a'");
    expect_whole(
        &rt,
        b"DELETE t WHERE s = '01234567890123456789012345678901234567890123456789012345678901234'",
    );
    Ok(())
}

/// Ends bytes with this number of comparisons.
fn put_comparisons(line: &mut Vec<u8>, count: usize) -> Result<(), Fail> {
    for place in 0..count {
        line.extend_from_slice(if place == 0 { b" k = 5" } else { b" AND k = 5" })?;
    }
    Ok(())
}

/// Tests whether a line with this number of literals is cut.
fn expect_literals(
    rt: &(impl Abort + AllocGlobal),
    count: usize,
    is_wanted: bool,
) -> Result<(), Fail> {
    let mut line = Vec::from_slice(rt.alloc(), b"DELETE t WHERE")?;
    put_comparisons(&mut line, count)?;
    let mut cutter = Cutter::new(rt.alloc());
    let is_cut = cutter.cut(rt.alloc(), &line);
    let is_counted = cutter.values().len() == count;
    drop(cutter);
    drop(line);
    assert!(rt; is_cut == is_wanted);
    assert!(rt; !is_wanted || is_counted);
    Ok(())
}

#[test]
fn sixteen_literals_are_cut(rt: HostRuntime) -> Result<(), Fail> {
    expect_literals(&rt, 1, true)?;
    expect_literals(&rt, 16, true)?;
    expect_literals(&rt, 17, false)
}

/// Tests whether a line of this length is cut.
fn expect_length(
    rt: &(impl Abort + AllocGlobal),
    length: usize,
    is_wanted: bool,
) -> Result<(), Fail> {
    let mut line = Vec::from_slice(rt.alloc(), b"DELETE t WHERE k = 5")?;
    for _ in line.len()..length {
        line.extend_from_slice(b" ")?;
    }
    let mut cutter = Cutter::new(rt.alloc());
    let is_cut = cutter.cut(rt.alloc(), &line);
    drop(cutter);
    drop(line);
    assert!(rt; is_cut == is_wanted);
    Ok(())
}

#[test]
fn lines_of_512_bytes_are_cut(rt: HostRuntime) -> Result<(), Fail> {
    expect_length(&rt, 512, true)?;
    expect_length(&rt, 513, false)
}

#[test]
fn a_cutter_is_used_again(rt: HostRuntime) -> Result<(), Fail> {
    let mut cutter = Cutter::new(rt.alloc());
    let first = cutter.cut(
        rt.alloc(),
        b"DELETE t WHERE s = 'a text of more than 16 bytes' AND k = 1",
    );
    let second = cutter.cut(rt.alloc(), b"DELETE t WHERE k = 2");
    let is_template = cutter.template() == b"DELETE t WHERE k = ?".as_slice();
    let are_values = are_written_so(cutter.values(), b"#2|");
    let third = cutter.cut(rt.alloc(), b"SCAN t");
    drop(cutter);
    assert!(rt; first);
    assert!(rt; second);
    assert!(rt; is_template);
    assert!(rt; are_values);
    assert!(rt; !third);
    Ok(())
}
