//! The atomic instructions.

use crate::entry::{ManualRow, Source};

/// Those without a suffix.
pub const ATOMICS: [ManualRow; 11] = [
    (
        &["lr.w"],
        Source::Reservations,
        "Puts the word at rs1 into rd and reserves it for an sc.w.",
    ),
    (
        &["sc.w"],
        Source::Reservations,
        "Stores rs2 at rs1 if that is still reserved; rd becomes 0 if it is stored, and nonzero if not.",
    ),
    (
        &["amoswap.w"],
        Source::AtomicOperations,
        "Atomically puts the word at rs1 into rd and stores rs2 there.",
    ),
    (
        &["amoadd.w"],
        Source::AtomicOperations,
        "Atomically puts the word at rs1 into rd and adds rs2 to it there.",
    ),
    (
        &["amoxor.w"],
        Source::AtomicOperations,
        "Atomically puts the word at rs1 into rd and stores its exclusive or with rs2 there.",
    ),
    (
        &["amoand.w"],
        Source::AtomicOperations,
        "Atomically puts the word at rs1 into rd and stores its bitwise and with rs2 there.",
    ),
    (
        &["amoor.w"],
        Source::AtomicOperations,
        "Atomically puts the word at rs1 into rd and stores its bitwise or with rs2 there.",
    ),
    (
        &["amomin.w"],
        Source::AtomicOperations,
        "Atomically puts the word at rs1 into rd and stores the lesser of it and rs2 there, both signed.",
    ),
    (
        &["amomax.w"],
        Source::AtomicOperations,
        "Atomically puts the word at rs1 into rd and stores the greater of it and rs2 there, both signed.",
    ),
    (
        &["amominu.w"],
        Source::AtomicOperations,
        "Atomically puts the word at rs1 into rd and stores the lesser of it and rs2 there, both unsigned.",
    ),
    (
        &["amomaxu.w"],
        Source::AtomicOperations,
        "Atomically puts the word at rs1 into rd and stores the greater of it and rs2 there, both unsigned.",
    ),
];

/// Those that are ordered with other accesses.
pub const ORDERED_ATOMICS: [ManualRow; 33] = [
    (
        &["lr.w.aq"],
        Source::AtomicOrdering,
        "Does what lr.w does, and no later access of this hart is seen before it.",
    ),
    (
        &["sc.w.aq"],
        Source::AtomicOrdering,
        "Does what sc.w does, and no later access of this hart is seen before it.",
    ),
    (
        &["amoswap.w.aq"],
        Source::AtomicOrdering,
        "Does what amoswap.w does, and no later access of this hart is seen before it.",
    ),
    (
        &["amoadd.w.aq"],
        Source::AtomicOrdering,
        "Does what amoadd.w does, and no later access of this hart is seen before it.",
    ),
    (
        &["amoxor.w.aq"],
        Source::AtomicOrdering,
        "Does what amoxor.w does, and no later access of this hart is seen before it.",
    ),
    (
        &["amoand.w.aq"],
        Source::AtomicOrdering,
        "Does what amoand.w does, and no later access of this hart is seen before it.",
    ),
    (
        &["amoor.w.aq"],
        Source::AtomicOrdering,
        "Does what amoor.w does, and no later access of this hart is seen before it.",
    ),
    (
        &["amomin.w.aq"],
        Source::AtomicOrdering,
        "Does what amomin.w does, and no later access of this hart is seen before it.",
    ),
    (
        &["amomax.w.aq"],
        Source::AtomicOrdering,
        "Does what amomax.w does, and no later access of this hart is seen before it.",
    ),
    (
        &["amominu.w.aq"],
        Source::AtomicOrdering,
        "Does what amominu.w does, and no later access of this hart is seen before it.",
    ),
    (
        &["amomaxu.w.aq"],
        Source::AtomicOrdering,
        "Does what amomaxu.w does, and no later access of this hart is seen before it.",
    ),
    (
        &["lr.w.rl"],
        Source::AtomicOrdering,
        "Does what lr.w does, and is not seen before any earlier access of this hart.",
    ),
    (
        &["sc.w.rl"],
        Source::AtomicOrdering,
        "Does what sc.w does, and is not seen before any earlier access of this hart.",
    ),
    (
        &["amoswap.w.rl"],
        Source::AtomicOrdering,
        "Does what amoswap.w does, and is not seen before any earlier access of this hart.",
    ),
    (
        &["amoadd.w.rl"],
        Source::AtomicOrdering,
        "Does what amoadd.w does, and is not seen before any earlier access of this hart.",
    ),
    (
        &["amoxor.w.rl"],
        Source::AtomicOrdering,
        "Does what amoxor.w does, and is not seen before any earlier access of this hart.",
    ),
    (
        &["amoand.w.rl"],
        Source::AtomicOrdering,
        "Does what amoand.w does, and is not seen before any earlier access of this hart.",
    ),
    (
        &["amoor.w.rl"],
        Source::AtomicOrdering,
        "Does what amoor.w does, and is not seen before any earlier access of this hart.",
    ),
    (
        &["amomin.w.rl"],
        Source::AtomicOrdering,
        "Does what amomin.w does, and is not seen before any earlier access of this hart.",
    ),
    (
        &["amomax.w.rl"],
        Source::AtomicOrdering,
        "Does what amomax.w does, and is not seen before any earlier access of this hart.",
    ),
    (
        &["amominu.w.rl"],
        Source::AtomicOrdering,
        "Does what amominu.w does, and is not seen before any earlier access of this hart.",
    ),
    (
        &["amomaxu.w.rl"],
        Source::AtomicOrdering,
        "Does what amomaxu.w does, and is not seen before any earlier access of this hart.",
    ),
    (
        &["lr.w.aqrl"],
        Source::AtomicOrdering,
        "Does what lr.w does, and is seen after all earlier and before all later accesses of this hart.",
    ),
    (
        &["sc.w.aqrl"],
        Source::AtomicOrdering,
        "Does what sc.w does, and is seen after all earlier and before all later accesses of this hart.",
    ),
    (
        &["amoswap.w.aqrl"],
        Source::AtomicOrdering,
        "Does what amoswap.w does, and is seen after all earlier and before all later accesses of this hart.",
    ),
    (
        &["amoadd.w.aqrl"],
        Source::AtomicOrdering,
        "Does what amoadd.w does, and is seen after all earlier and before all later accesses of this hart.",
    ),
    (
        &["amoxor.w.aqrl"],
        Source::AtomicOrdering,
        "Does what amoxor.w does, and is seen after all earlier and before all later accesses of this hart.",
    ),
    (
        &["amoand.w.aqrl"],
        Source::AtomicOrdering,
        "Does what amoand.w does, and is seen after all earlier and before all later accesses of this hart.",
    ),
    (
        &["amoor.w.aqrl"],
        Source::AtomicOrdering,
        "Does what amoor.w does, and is seen after all earlier and before all later accesses of this hart.",
    ),
    (
        &["amomin.w.aqrl"],
        Source::AtomicOrdering,
        "Does what amomin.w does, and is seen after all earlier and before all later accesses of this hart.",
    ),
    (
        &["amomax.w.aqrl"],
        Source::AtomicOrdering,
        "Does what amomax.w does, and is seen after all earlier and before all later accesses of this hart.",
    ),
    (
        &["amominu.w.aqrl"],
        Source::AtomicOrdering,
        "Does what amominu.w does, and is seen after all earlier and before all later accesses of this hart.",
    ),
    (
        &["amomaxu.w.aqrl"],
        Source::AtomicOrdering,
        "Does what amomaxu.w does, and is seen after all earlier and before all later accesses of this hart.",
    ),
];
