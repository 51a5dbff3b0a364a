//! How many faults a text has, and how many warnings there are about it.

ghost use Rattle.std.specs.Prelude.{◌≡◌, ◌+◌, ◌^◌, ◌<◌, ◌≤◌, length};
ghost use Rattle.rv_list.specs.Shown.{from_lines};
ghost use Rattle.rv_report.specs.Warnings.{warning_of};
ghost use Rattle.rv_files.specs.TextReports.{asked_warnings, fault_count, optional, warnings_about};

use rv_list::{LineSource, View, count_faults};
use rv_report::find_warning;
use rv_stmt::Stmt;
use rv_store::Store;

/// How many faults a text has, and how many warnings there are about it.
#[derive(Clone, Copy, Debug, PartialEq, Eq)]
pub struct Counts {
    pub faults: u32,
    pub warnings: u32,
}

// How many warnings there are about a statement.
fn warnings_on<V: View>(view: &V, stmt: &Stmt) -> u32
    ensures value { result ≡ length (optional (warning_of (V.shown view.now) stmt.now.body)) }
    ensures few { result ≤ 1 }
{
    match find_warning(view, stmt) {
        Some(_) => 1,
        None => 0,
    }
}

// How many warnings there are: those about all lines.
fn warning_count<V: View>(view: &V) -> u32
    ensures value { result ≡ length (from_lines (V.shown view.now) (λ number line. warnings_about (V.shown view.now) line)) }
    ensures few { result ≤ 16384 }
{
    let mut count = 0;
    let mut lines = view.lines();
    for _ in 0..view.line_count() {
        lines.advance();
        count += warnings_on(view, lines.line().stmt);
    }
    count
}

/// How many warnings there are about a text, if these are asked for, and else 0.
pub fn count_warnings(store: &Store, warns: bool) -> u32
    ensures value { result ≡ asked_warnings store.now warns }
    ensures few { result ≤ 16384 }
{
    if warns { warning_count(&store) } else { 0 }
}

/// How many faults a text has, and how many warnings there are about it, if these are asked for, and else 0. Together they are fewer
/// than 2^32.
pub fn report_counts(store: &Store, warns: bool) -> Counts
    ensures faults { result.faults ≡ fault_count store.now }
    ensures warnings { result.warnings ≡ asked_warnings store.now warns }
    ensures few { result.faults + result.warnings < 2 ^ 32 }
{
    let view = &store;
    Counts {
        faults: count_faults(view, view.lines()),
        warnings: count_warnings(store, warns),
    }
}
