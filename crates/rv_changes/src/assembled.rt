//! Lines as they are assembled.

ghost use Rattle.std.specs.Prelude.{◌≡◌, ◌==◌, false, true};
ghost use Rattle.std.specs.List.{list_any};
ghost use Rattle.rv_program.specs.Text.{is_line};
ghost use Rattle.rv_changes.specs.Assembled.{assembled_line};

use rv_text::MAX_LINE_LENGTH;

/// A line as it is assembled: nothing of one that is too long.
pub fn assembled_line(line: &[u8]) -> &[u8]
    requires { list_any (λ b. b == 10) line.now ≡ false }
    ensures value { result.now ≡ assembled_line line.entry.now }
    ensures line { is_line result.now ≡ true }
{
    if line.len() > MAX_LINE_LENGTH {
        &[]
    } else {
        line
    }
}
