//! Lines that can stand in each other's places.

ghost use Rattle.std.specs.Prelude.{◌≡◌, ℕ, IsTrue};
ghost use Rattle.rv_stmt.specs.LentLabels.{name_lent};
ghost use Rattle.rv_stmt.specs.Statement.{statement_of};
ghost use Rattle.rv_layout.specs.Shapes.{shape_of};
ghost use Rattle.rv_store.specs.internal.Alike.{same_name, same_labels, label_names, room_of, DefinesSame, IsAlike};
ghost use Rattle.rv_program.specs.Constants.{constant_of};
ghost use Rattle.rv_program.specs.Layout.{shape_at};
ghost use Rattle.rv_program.specs.Pairs.{pcrel_high_of};
ghost use Rattle.rv_program.specs.Program.{Program, statement_at};

use crate::same_highs::are_same_highs;
use rv_layout::Measured;
use rv_program::Line;
use rv_stmt::{LabelName, LabelSlice};

// Whether two labels define the same.
fn is_same_name(name: LabelName<'_>, other: LabelName<'_>) -> bool
    ensures { result ≡ same_name (name_lent name.entry) (name_lent other.entry) }
{
    match name {
        LabelName::Symbol(symbol) => match other {
            LabelName::Symbol(another) => symbol == another,
            LabelName::Local(_) => false,
        },
        LabelName::Local(number) => match other {
            LabelName::Symbol(_) => false,
            LabelName::Local(another) => number == another,
        },
    }
}

// Whether the labels of two lines define the same.
fn are_same_labels(mut labels: LabelSlice<'_>, mut others: LabelSlice<'_>) -> bool
    ensures { result ≡ same_labels labels.entry others.entry }
{
    while let Some((label, rest)) = labels.split_first() {
        match others.split_first() {
            Some((other, later)) if is_same_name(label.name, other.name) => {
                labels = rest;
                others = later;
            }
            _ => return false,
        }
    }
    others.is_empty()
}

// Whether neither of two lines is a high half, or both are the same one.
fn have_same_high(former: &Line, line: &Line) -> bool
    ensures { IsTrue result → pcrel_high_of (statement_of line.now).body ≡ pcrel_high_of (statement_of former.now).body }
{
    if !former.brief().pcrel_high && !line.brief().pcrel_high {
        return true;
    }
    are_same_highs(&line.stmt().body, &former.stmt().body)
}

// Whether two lines have the same labels. Most have none.
fn have_same_labels(former: &Line, line: &Line) -> bool
    ensures { IsTrue result → label_names (statement_of line.now).labels ≡ label_names (statement_of former.now).labels }
{
    if !former.brief().labels && !line.brief().labels {
        return true;
    }
    are_same_labels(
        line.stmt().labels.as_slice(),
        former.stmt().labels.as_slice(),
    )
}

// Whether two lines define the same: the same labels and no `.equ`, and the same high half, if they are one.
fn defines_same(former: &Line, line: &Line) -> bool
    ensures { IsTrue result → DefinesSame (statement_of former.now) (statement_of line.now) }
{
    !former.brief().equ
        && !line.brief().equ
        && have_same_high(former, line)
        && have_same_labels(former, line)
}

// What a shape does to the layout.
fn room_of(shape: Measured) -> Measured
    ensures { result ≡ room_of shape }
{
    match shape {
        Measured::Faulty(_) => Measured::Nothing,
        _ => shape,
    }
}

/// Whether two shapes do the same to the layout.
pub fn take_same_room(shape: &Measured, other: &Measured) -> bool
    ensures { IsTrue result → room_of shape.now ≡ room_of other.now }
{
    room_of(*shape) == room_of(*other)
}

/// Whether a line of this shape can stand in the place of one that has the shape `former_shape`, and all other lines stay as they are: it
/// defines the same and takes the same room. Other lines may be alike, too.
pub fn are_alike(former: &Line, former_shape: &Measured, line: &Line, shape: &Measured) -> bool
    ensures { (program : Program) (k : ℕ) → statement_at program k ≡ statement_of former.now → former_shape.now ≡ shape_at program k
        → shape.now ≡ shape_of (constant_of program k) (statement_of line.now).body → IsTrue result → IsAlike program k (statement_of line.now) }
{
    take_same_room(shape, former_shape) && defines_same(former, line)
}
