//! Groups of rows of the table, so that decoding a word looks at few of them.
ghost use Rattle.std.specs.Prelude.{◌≡◌, ◌-◌, ◌<◌, ◌≤◌, drop, map, length, slice_index_or, take, IsTrue};
ghost use Rattle.std.specs.List.{list_all};
ghost use Rattle.rv_code.specs.Groups.{codes_of_group, codes_of_full_group, codes_of_half_group, is_group};

use rv_ops::{TABLE, TableRow};

/// For each number in the bits 6 to 2 of a word of thirty-two bits: the first row whose operation may have it there, and the
/// row after the last.
pub const FULL_GROUPS: [(usize, usize); 32] = [
    (10, 15), // lb to lhu
    (0, 0),
    (0, 0),
    (51, 54), // fence, fence.tso, fence.i
    (18, 27), // addi to srai
    (1, 2), // auipc
    (0, 0),
    (0, 0),
    (15, 18), // sb to sw
    (0, 0),
    (0, 0),
    (59, 103), // lr.w to amomaxu.w.aqrl
    (27, 45), // add to remu
    (0, 1), // lui
    (0, 0),
    (0, 0),
    (0, 0),
    (0, 0),
    (0, 0),
    (0, 0),
    (0, 0),
    (0, 0),
    (0, 0),
    (0, 0),
    (4, 10), // beq to bgeu
    (3, 4), // jalr
    (0, 0),
    (2, 3), // jal
    (45, 59), // csrrw to wfi
    (0, 0),
    (0, 0),
    (0, 0),
];

/// The same for words of sixteen bits, by the number that the bits 15 to 13 and 1 to 0 are together.
pub const HALF_GROUPS: [(usize, usize); 32] = [
    (103, 104), // c.addi4spn
    (106, 108), // c.nop, c.addi
    (122, 123), // c.slli
    (0, 0),
    (0, 0),
    (108, 109), // c.jal
    (0, 0),
    (0, 0),
    (104, 105), // c.lw
    (109, 110), // c.li
    (123, 124), // c.lwsp
    (0, 0),
    (0, 0),
    (110, 112), // c.addi16sp, c.lui
    (0, 0),
    (0, 0),
    (0, 0),
    (112, 119), // c.srli to c.and
    (124, 129), // c.jr to c.add
    (0, 0),
    (0, 0),
    (119, 120), // c.j
    (0, 0),
    (0, 0),
    (105, 106), // c.sw
    (120, 121), // c.beqz
    (129, 130), // c.swsp
    (0, 0),
    (0, 0),
    (121, 122), // c.bnez
    (0, 0),
    (0, 0),
];

// The rows from the first to the one before the end.
fn between(rows: &[TableRow], first: usize, end: usize) -> &[TableRow]
    requires first { first ≤ end }
    requires end { end ≤ length rows.now }
    ensures { result.now ≡ take (end - first) (drop first rows.now) }
{
    let (_, rest) = rows.split_at(first);
    let (found, _) = rest.split_at(end - first);
    found
}

// The rows of a group.
fn rows_of(groups: &[(usize, usize)], number: usize) -> &'static [TableRow]
    requires groups { IsTrue (list_all is_group groups.now) }
    requires number { number < length groups.now }
    ensures { map (λ row. (row.0, row.3, row.4)) result.now ≡ codes_of_group (slice_index_or groups.now number (0, 0)) }
{
    let (first, end) = groups[number];
    between(&TABLE, first, end)
}

/// The rows whose operations a word of thirty-two bits may have.
pub fn full_rows(word: u32) -> &'static [TableRow]
    ensures { map (λ row. (row.0, row.3, row.4)) result.now ≡ codes_of_full_group word }
{
    rows_of(&FULL_GROUPS, ((word & 0x7c) >> 2) as usize)
}

/// The rows whose operations a word of sixteen bits may have.
pub fn half_rows(word: u16) -> &'static [TableRow]
    ensures { map (λ row. (row.0, row.3, row.4)) result.now ≡ codes_of_half_group word }
{
    let bits = word & 0xe003;
    rows_of(&HALF_GROUPS, usize::from((bits >> 11) + bits % 4))
}
