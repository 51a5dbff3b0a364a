//! What is said of a name, and where it is defined.

/// Where a name is defined.
#[derive(Clone, Copy)]
pub enum Source {
    IntegerComputation,
    ControlTransfer,
    LoadsAndStores,
    MemoryOrdering,
    EnvironmentCalls,
    InstructionFetchFence,
    Multiplication,
    Division,
    AtomicOrdering,
    Reservations,
    AtomicOperations,
    CsrInstructions,
    BaseCounters,
    PerformanceCounters,
    CompressedLoadsAndStores,
    CompressedControlTransfer,
    CompressedIntegerComputation,
    PseudoInstructions,
    CsrPseudoInstructions,
    MachineRegisters,
    MachineInstructions,
    RegisterConvention,
    OwnPseudoInstructions,
    Directives,
    Sections,
    Symbols,
}

/// The columns: names, where they are defined, and a sentence of what they mean.
pub type ManualRow = (&'static [&'static str], Source, &'static str);

/// What is said of a name.
#[derive(Clone, Copy)]
pub struct Entry {
    /// The name, in lower case.
    pub name: &'static str,
    pub source: Source,
    /// What it means, in one sentence.
    pub sentence: &'static str,
}

impl Source {
    /// The document, and the place in it.
    pub fn text(self) -> &'static str {
        match self {
            Source::IntegerComputation => "RISC-V Unprivileged ISA 20191213, section 2.4",
            Source::ControlTransfer => "RISC-V Unprivileged ISA 20191213, section 2.5",
            Source::LoadsAndStores => "RISC-V Unprivileged ISA 20191213, section 2.6",
            Source::MemoryOrdering => "RISC-V Unprivileged ISA 20191213, section 2.7",
            Source::EnvironmentCalls => "RISC-V Unprivileged ISA 20191213, section 2.8",
            Source::InstructionFetchFence => "RISC-V Unprivileged ISA 20191213, chapter 3",
            Source::Multiplication => "RISC-V Unprivileged ISA 20191213, section 7.1",
            Source::Division => "RISC-V Unprivileged ISA 20191213, section 7.2",
            Source::AtomicOrdering => "RISC-V Unprivileged ISA 20191213, section 8.1",
            Source::Reservations => "RISC-V Unprivileged ISA 20191213, section 8.2",
            Source::AtomicOperations => "RISC-V Unprivileged ISA 20191213, section 8.4",
            Source::CsrInstructions => "RISC-V Unprivileged ISA 20191213, section 9.1",
            Source::BaseCounters => "RISC-V Unprivileged ISA 20191213, section 10.1",
            Source::PerformanceCounters => "RISC-V Unprivileged ISA 20191213, section 10.2",
            Source::CompressedLoadsAndStores => "RISC-V Unprivileged ISA 20191213, section 16.3",
            Source::CompressedControlTransfer => "RISC-V Unprivileged ISA 20191213, section 16.4",
            Source::CompressedIntegerComputation =>
                "RISC-V Unprivileged ISA 20191213, section 16.5",
            Source::PseudoInstructions =>
                "RISC-V Unprivileged ISA 20191213, chapter 25, table 25.2",
            Source::CsrPseudoInstructions =>
                "RISC-V Unprivileged ISA 20191213, chapter 25, table 25.3",
            Source::MachineRegisters => "RISC-V Privileged ISA 20190608, section 3.1",
            Source::MachineInstructions => "RISC-V Privileged ISA 20190608, section 3.2",
            Source::RegisterConvention => "RISC-V ELF psABI 1.0, Integer Register Convention",
            Source::OwnPseudoInstructions => "docs/LANGUAGE.md, Pseudo-instructions",
            Source::Directives => "docs/LANGUAGE.md, Directives",
            Source::Sections => "docs/LANGUAGE.md, Sections",
            Source::Symbols => "docs/LANGUAGE.md, Symbols",
        }
    }
}
