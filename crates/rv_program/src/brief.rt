//! What lines have to do with other lines, in brief.

ghost use Rattle.std.specs.Prelude.{◌≡◌, ◌&&◌, ◌||◌, not, IsTrue};
ghost use Rattle.std.specs.Option.{is_some};
ghost use Rattle.rv_program.specs.internal.Briefs.{brief_of, is_brief_of, mask_of_brief};
ghost use Rattle.rv_program.specs.internal.HighSymbols.{high_symbol_of};
ghost use Rattle.rv_program.specs.Jumps.{target_of};
ghost use Rattle.rv_program.specs.Uses.{uses_local_label, uses_paired_high, is_equ};

use crate::defined_names::DefinedNames;
use crate::highs::{high_symbol, pcrel_high};
use crate::jumps::target;
use crate::locals::has_local_labels;
use crate::lows::low_symbol;
use crate::mask::{Kind, Mask};
use crate::used_names::UsedNames;
use crate::uses::{
    brief_names, is_equ, is_sized, uses_address, uses_local_label, uses_paired_high, uses_symbols,
};
use rv_stmt::{Body, Stmt};

/// What a line defines and what it uses, in brief: a loop over the lines goes past those that do not matter to it without a
/// look at their statements.
#[derive(Clone, Copy)]
pub struct Brief {
    /// It has labels.
    pub labels: bool,
    /// One of the labels is a local one.
    pub local_labels: bool,
    /// It is an `.equ`.
    pub equ: bool,
    /// It is an `auipc` with `%pcrel_hi`.
    pub pcrel_high: bool,
    /// Its shape follows from the value of an operand.
    pub sized: bool,
    /// It uses symbols.
    pub symbols: bool,
    /// The symbols that it uses, and maybe others.
    pub names: UsedNames,
    /// Those that it defines, and maybe others.
    pub defined: DefinedNames,
    /// It uses its own address.
    pub address: bool,
    /// It uses the address of one label, counted from its own, and nothing else: it goes there, or is `auipc` with `%pcrel_hi` of a symbol.
    pub relative: bool,
    /// It uses a local label or `%pcrel_lo`, or is an `.equ`: such a line counts as invalidated whatever these give.
    pub uncompared: bool,
    /// It uses `%pcrel_lo` of one symbol, and nothing else.
    pub low: bool,
    /// What it gives follows from the line alone: it uses no symbol, not its own address, and nothing that is not compared.
    pub alone: bool,
}

impl Brief {
    /// That of a statement.
    pub fn of(stmt: &Stmt) -> Brief
        ensures { result ≡ brief_of stmt.now }
    {
        let body = &stmt.body;
        let symbols = uses_symbols(body);
        let address = uses_address(body);
        let uncompared = is_uncompared(body);
        let low = low_symbol(body).is_some();
        Brief {
            labels: !stmt.labels.is_empty(),
            local_labels: has_local_labels(stmt.labels.as_slice()),
            equ: is_equ(body),
            pcrel_high: pcrel_high(body).is_some(),
            sized: is_sized(body),
            symbols,
            names: brief_names(body),
            defined: DefinedNames::of(stmt),
            address,
            relative: is_relative(body),
            uncompared,
            low,
            alone: !(symbols || address || uncompared),
        }
    }

    /// Whether the line defines nothing: it has no label, and is no `.equ`.
    pub fn defines_nothing(&self) -> bool
        ensures { result ≡ (not self.now.labels && not self.now.equ) }
    {
        !self.labels && !self.equ
    }

    // Whether the shape of the line follows from symbols, or it is an `.equ`.
    fn is_shaped(&self) -> bool
        ensures { result ≡ ((self.now.sized && self.now.symbols) || self.now.equ) }
    {
        (self.sized && self.symbols) || self.equ
    }

    // Whether each edit invalidates the line, and it is not found by its symbol.
    fn is_left_uncompared(&self) -> bool
        ensures { result ≡ (self.now.uncompared && not self.now.low) }
    {
        self.uncompared && !self.low
    }

    /// Whether it is in brief the same line: then it has the same mask.
    pub fn is_same(&self, other: &Brief) -> bool
        ensures { IsTrue result → mask_of_brief self.now ≡ mask_of_brief other.now }
    {
        if !self.names.are_same(other.names) || !self.defined.are_same(other.defined) {
            return false;
        }
        if self.equ != other.equ || self.pcrel_high != other.pcrel_high {
            return false;
        }
        if self.is_shaped() != other.is_shaped() || self.address != other.address {
            return false;
        }
        self.is_left_uncompared() == other.is_left_uncompared()
    }

    /// Whether the line is of a kind.
    #[inline]
    pub fn is_of(&self, kind: Kind) -> bool
        ensures { result ≡ is_brief_of kind self.now }
    {
        match kind {
            Kind::Equ => self.equ,
            Kind::PcrelHigh => self.pcrel_high,
            Kind::Shaped => self.is_shaped(),
            Kind::Addressed => self.address,
            Kind::Uncompared => self.is_left_uncompared(),
        }
    }

    /// The names that the line uses and defines, and its kinds.
    pub fn mask(&self) -> Mask
        ensures { result ≡ mask_of_brief self.now }
    {
        self.names
            .mask()
            .with(self.defined.mask())
            .with_kind(Kind::Equ, self.equ)
            .with_kind(Kind::PcrelHigh, self.pcrel_high)
            .with_kind(Kind::Shaped, self.is_shaped())
            .with_kind(Kind::Addressed, self.address)
            .with_kind(Kind::Uncompared, self.is_left_uncompared())
    }
}

// Whether a line uses the address of one label, counted from its own, and nothing else.
fn is_relative(body: &Body) -> bool
    ensures { result ≡ (is_some (target_of body.now) || is_some (high_symbol_of body.now)) }
{
    target(body).is_some() || high_symbol(body).is_some()
}

// Whether a line uses a local label or `%pcrel_lo`, or is an `.equ`.
fn is_uncompared(body: &Body) -> bool
    ensures { result ≡ (uses_local_label body.now || uses_paired_high body.now || is_equ body.now) }
{
    uses_local_label(body) || uses_paired_high(body) || is_equ(body)
}
