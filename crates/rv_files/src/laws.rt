//! What holds of the lines of files and of the formats.

ghost use Rattle.std.specs.Prelude.{◌≡◌, ℕ, ◌<◌, ◌≤◌, ◌^◌, List, [], length, All, None, true};
ghost use Rattle.rv_layout.specs.Places.{is_base};
ghost use Rattle.rv_list.specs.Image.{section_bytes};
ghost use Rattle.rv_program.specs.Codes.{code_at};
ghost use Rattle.rv_program.specs.Layout.{place_at, section_end_at};
ghost use Rattle.rv_program.specs.Program.{program_of};
ghost use Rattle.rv_store.specs.Shown.{shown_of};
ghost use Rattle.rv_program.specs.Text.{Text, Edit, refusal_of, text_after};
ghost use Rattle.rv_files.specs.Bin.{bin_bytes, AreAscending, StandsIn};
ghost use Rattle.rv_files.specs.Cells.{cells_of};
ghost use Rattle.rv_files.specs.Elf.{start_of, elf_bytes};
ghost use Rattle.rv_files.specs.ElfLoading.{elf_cells, elf_start, cells_in_memory, AreLoadable};
ghost use Rattle.rv_files.specs.Hex.{Record, hex_text};
ghost use Rattle.rv_files.specs.HexLoading.{AreRows, Loads};
ghost use Rattle.rv_files.specs.Lines.{lines_of, AreLinesOf};
ghost use Rattle.rv_files.specs.Loading.{load_refusal};
ghost use Rattle.rv_files.specs.Segments.{Segment, AreBytes, HoldBytes, segments_of};
ghost use Rattle.rv_files.specs.Symbols.{Symbol};
ghost use Rattle.rv_files.specs.TextLimits.{IsWithinLimits};

use rv_fix::{codes_are_limited, faults_keep_sizes};
use rv_layout::shapes_are_limited;
use rv_stmt::{data_are_few, values_keep_sizes};
use rv_store::constants_are_values;

/// The lines of a file are its lines, and no other list is.
pub fn lines_are_the_file()
    ensures lines { (file : List ℕ) → AreLinesOf file (lines_of file) }
    ensures only { (file : List ℕ) (lines : List (List ℕ)) → AreLinesOf file lines → lines ≡ lines_of file }
{}

/// Among the bytes from an address on, those of each segment are at its address, where the segments are in ascending order from
/// there on.
pub fn bin_holds_the_segments()
    ensures { (base : ℕ) (segments : List Segment) → AreAscending base segments → All (StandsIn base (bin_bytes base segments)) segments }
{}

/// A loader of segments as Intel HEX puts exactly their bytes into memory, at their addresses, and starts at the entry.
pub fn hex_is_loaded()
    ensures { (segments : List Segment) (entry : ℕ) → HoldBytes segments → entry < 2 ^ 32 → Loads (hex_text segments entry) (cells_of segments) entry }
{}

/// A text is the rows of one list of records at most, so that all loaders put the same into memory.
pub fn hex_rows_are_unique()
    ensures { (text : List ℕ) (records others : List Record) → AreRows text records → AreRows text others → records ≡ others }
{}

/// A loader of segments as an ELF file puts exactly their bytes and their zeros into memory, at their addresses, and starts at the
/// entry.
pub fn elf_is_loaded()
    ensures memory { (entry : ℕ) (segments : List Segment) (symbols : List Symbol) → length segments ≤ 6 → AreAscending (start_of segments) segments → AreLoadable segments → elf_cells (elf_bytes entry segments symbols) ≡ cells_in_memory segments }
    ensures start { (entry : ℕ) (segments : List Segment) (symbols : List Symbol) → entry < 2 ^ 32 → elf_start (elf_bytes entry segments symbols) ≡ entry }
{}

/// An empty text is within the limits, edits that are not refused keep it there, and the text of a file that is loaded is. Its lines hold
/// bytes, as the file does.
pub fn texts_are_within_limits()
    ensures empty { (base : ℕ) → is_base base ≡ true → IsWithinLimits (record { base = base; lines = [] }) }
    ensures edited { (text : Text) (edit : Edit) → IsWithinLimits text → refusal_of text.lines edit ≡ None → IsWithinLimits (text_after text edit) }
    ensures files { (base : ℕ) (file : List ℕ) → is_base base ≡ true → load_refusal file ≡ None → IsWithinLimits (record { base = base; lines = lines_of file }) }
    ensures bytes { (file : List ℕ) → AreBytes file → All AreBytes (lines_of file) }
{}

/// A line of a text has as many bytes as its place says, and a section as many as it is long.
pub fn lines_have_their_sizes()
    ensures lines { (base : ℕ) (lines : List (List ℕ)) (i : ℕ) → 1 ≤ i → i ≤ length lines → length (code_at base (program_of lines) i).payload ≡ (place_at base (program_of lines) i).size }
    ensures sections { (text : Text) (t : ℕ) → length (section_bytes (shown_of text) t) ≡ section_end_at (program_of text.lines) t }
{
    values_keep_sizes();
    faults_keep_sizes();
    codes_are_limited();
    constants_are_values();
}

/// The segments of a text are at most six, in ascending order from its base on, none over another. They fit in four bytes if the text is
/// within the limits, and hold bytes if its lines do.
pub fn segments_of_texts_are_loadable()
    ensures few { (text : Text) → length (segments_of (shown_of text)) ≤ 6 }
    ensures ascending { (text : Text) → AreAscending text.base (segments_of (shown_of text)) }
    ensures loadable { (text : Text) → IsWithinLimits text → AreLoadable (segments_of (shown_of text)) }
    ensures bytes { (text : Text) → All AreBytes text.lines → HoldBytes (segments_of (shown_of text)) }
{
    data_are_few();
    shapes_are_limited();
    lines_have_their_sizes();
}

/// So each format of a text holds its segments: the bytes of each are at its address, and loaders put exactly them into memory.
pub fn texts_are_loaded()
    ensures bin { (text : Text) → All (StandsIn text.base (bin_bytes text.base (segments_of (shown_of text)))) (segments_of (shown_of text)) }
    ensures hex { (text : Text) (entry : ℕ) → All AreBytes text.lines → entry < 2 ^ 32 → Loads (hex_text (segments_of (shown_of text)) entry) (cells_of (segments_of (shown_of text))) entry }
    ensures elf { (text : Text) (entry : ℕ) (symbols : List Symbol) → IsWithinLimits text → elf_cells (elf_bytes entry (segments_of (shown_of text)) symbols) ≡ cells_in_memory (segments_of (shown_of text)) }
{
    segments_of_texts_are_loadable();
    bin_holds_the_segments();
    hex_is_loaded();
    elf_is_loaded();
}
