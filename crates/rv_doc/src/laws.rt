//! What holds of positions.

ghost use Rattle.std.specs.Prelude.{◌≡◌, ℕ, ◌<◌, ◌≤◌, List, length, take, drop};
ghost use Rattle.rv_doc.specs.Positions.{before_column, columns, line_start, lines_of};
ghost use Rattle.rv_doc.specs.declared.encoding.Encoding.{Encoding};

/// As many bytes of a line stand before a column as it has room for: they count no more columns, and any more bytes would.
pub fn columns_have_room()
    ensures room { (encoding : Encoding) (line : List ℕ) (column : ℕ) → columns encoding (take (before_column encoding line column) line) ≤ column }
    ensures most { (encoding : Encoding) (line : List ℕ) (column more : ℕ) → before_column encoding line column < more → more ≤ length line → column < columns encoding (take more line) }
{}

/// A line and those behind it are the lines of what stands behind the place where it begins.
pub fn lines_begin_there()
    ensures { (text : List ℕ) (number : ℕ) → number < length (lines_of text) → lines_of (drop (line_start text number) text) ≡ drop number (lines_of text) }
{}
