//! Where a text may begin.

ghost use Rattle.std.specs.Prelude.{◌≡◌};
ghost use Rattle.rv_layout.specs.Places.{is_base};

/// Whether the first section may begin at this address: it is a multiple of 4096, and at most 0x80000000.
pub fn base_ok(base: u32) -> bool
    ensures { result ≡ is_base base }
{
    base % 4096 == 0 && base <= 0x8000_0000
}
