//! What a tree that keeps its rows answers from them. The root node has no row.
ghost use Rattle.std.specs.Prelude.{◌≡◌, ◌<◌, ◌+◌, ◌-◌, ◌^◌, ℕ, [], length, slice_index_or, encode_utf8_all};
ghost use Rattle.std.specs.Str.{chars};
ghost use Rattle.doc_model.specs.Document.{row, IsDocument};
ghost use Rattle.doc_model.specs.Ends.{IsEnd};
ghost use Rattle.doc_model.specs.KeptRows.{rows_of, ends_of, AreEnds};

use crate::Kind;
use crate::kept_row::{KeptRow, RowText};

/// How many rows there are, the root node included.
pub fn count<X: RowText>(rows: &[KeptRow<X>]) -> u32
    requires { length rows.now + 1 < 2 ^ 32 }
    ensures { result ≡ length (rows_of rows.now) }
{
    rows.len() as u32 + 1
}

/// What the row is.
pub fn kind_at<X: RowText>(rows: &[KeptRow<X>], i: u32) -> Kind
    requires { i < length (rows_of rows.now) }
    ensures { result ≡ (row (rows_of rows.now) i).kind }
{
    if i == 0 {
        return Kind::Root;
    }
    let row = &rows[i as usize - 1];
    row.kind
}

/// The name of the row.
pub fn name_at<X: RowText>(rows: &[KeptRow<X>], i: u32) -> &str
    requires { i < length (rows_of rows.now) }
    ensures chars { chars result.now ≡ (row (rows_of rows.now) i).name }
    ensures bytes { result.now ≡ encode_utf8_all (row (rows_of rows.now) i).name }
{
    if i == 0 {
        return "";
    }
    let row = &rows[i as usize - 1];
    row.name.as_str()
}

/// The text of the row.
pub fn text_at<X: RowText>(rows: &[KeptRow<X>], i: u32) -> &str
    requires { i < length (rows_of rows.now) }
    ensures chars { chars result.now ≡ (row (rows_of rows.now) i).text }
    ensures bytes { result.now ≡ encode_utf8_all (row (rows_of rows.now) i).text }
{
    if i == 0 {
        return "";
    }
    let row = &rows[i as usize - 1];
    row.text.as_str()
}

/// The row of the parent, or 0 for the root node.
pub fn parent_at<X: RowText>(rows: &[KeptRow<X>], i: u32) -> u32
    requires { i < length (rows_of rows.now) }
    ensures { result ≡ (row (rows_of rows.now) i).parent }
{
    if i == 0 {
        return 0;
    }
    let row = &rows[i as usize - 1];
    row.parent
}

/// The first row after `i` that is not below `i`, or the number of rows.
pub fn end_at<X: RowText>(rows: &[KeptRow<X>], i: u32) -> u32
    requires within { i < length (rows_of rows.now) }
    requires small { length rows.now + 1 < 2 ^ 32 }
    requires document { IsDocument (rows_of rows.now) }
    requires ends { AreEnds (rows_of rows.now) [] (ends_of rows.now) }
    ensures { IsEnd (rows_of rows.now) i result }
{
    if i == 0 {
        return count(rows);
    }
    let row = &rows[i as usize - 1];
    row.end
}
