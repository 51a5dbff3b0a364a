//! What holds of the values that messages name.

ghost use Rattle.std.specs.Prelude.{◌≡◌, ℤ, Ok, Some, None, Err, unsigned_abs, if◌then◌else◌};
ghost use Rattle.rv_text.specs.declared.faults.FaultNumber.TheVariants.{Range};
ghost use Rattle.rv_code.specs.declared.instruction.Fields.{Fields};
ghost use Rattle.rv_ops.specs.declared.value_limits.Limits.{Limits};
ghost use Rattle.rv_stmt.specs.declared.operand.DataWidth.{DataWidth};
ghost use Rattle.rv_stmt.specs.declared.operand.Role.TheVariants.{Data, SourceImmediate, Constant, Size};
ghost use Rattle.rv_stmt.specs.declared.statement.Body.{Body};
ghost use Rattle.rv_stmt.specs.Readings.{and_then};
ghost use Rattle.rv_layout.specs.Shapes.{fill_size, is_loadable};
ghost use Rattle.rv_fix.specs.Data.{in_width};
ghost use Rattle.rv_fix.specs.Filling.{with_number, with_source};
ghost use Rattle.rv_report.specs.Bounds.{is_within, limits_in};

/// The values that a message says an operand takes are those that are taken: among data, in the place of a register, as a
/// constant that is loaded, and as a size. Of any other value the fault is Range.
pub fn limits_are_those_of_range()
    ensures widths { (body : Body) (width : DataWidth) (value : ℤ) → in_width (Data width) value ≡ (if is_within (limits_in body (Data width)) value then Ok value else Err Range) }
    ensures source { (body : Body) (limits : Limits) (value : ℤ) (fields : Fields) → with_number limits SourceImmediate value fields ≡ and_then (if is_within (limits_in body SourceImmediate) value then Ok value else Err Range) (λ v. Ok (with_source v fields)) }
    ensures constant { (body : Body) (value : ℤ) → is_loadable value ≡ is_within (limits_in body Constant) value }
    ensures size { (body : Body) (value : ℤ) → fill_size value ≡ (if is_within (limits_in body Size) value then Some (unsigned_abs value) else None) }
{}
