//! Tables of rows, in one text: a row ends in `;`, and its columns are parted by `|`.
use std::process::Abort;
use std::test::Fail;

/// The first column of a row, and the others.
pub fn column(row: &str) -> Result<(&str, &str), Fail> {
    Ok(row.split_once("|").ok_or("a column")?)
}

/// The number that a column has.
pub fn number(column: &str) -> Result<u64, Fail> {
    Ok(column.parse().map_err(|_| "a number")?)
}

/// The bytes of a text. This has no clause, so no proof computes those of a literal.
pub fn bytes(text: &str) -> &[u8] {
    text.as_bytes()
}

/// A text is the one that is due.
pub fn same(rt: &impl Abort, found: &str, due: &str) {
    assert!(rt; found == due, "{due}\nis due, and there is\n{found}");
}
