//! Numbers of 64 bits in two halves of 32.
ghost use Rattle.std.specs.Prelude.{◌≡◌};
ghost use Rattle.exec_msg.specs.inner.Packed.{joined_halves, value_by};

// The upper half of a number and its lower one.
#[inline(always)]
pub(super) fn halves(number: u64) -> (u32, u32)
    ensures { joined_halves result.0 result.1 ≡ number }
{
    ((number >> 32) as u32, (number & 0xffff_ffff) as u32)
}

#[inline(always)]
pub(super) fn join(high: u32, low: u32) -> u64
    ensures { result ≡ joined_halves high low }
{
    high as u64 * 0x1_0000_0000 + low as u64
}

// The halves of a value.
#[inline(always)]
pub(super) fn value_halves(value: i64) -> (u32, u32)
    ensures { value_by result.0 result.1 ≡ value }
{
    halves(value.cast_unsigned())
}

#[inline(always)]
pub(super) fn join_value(high: u32, low: u32) -> i64
    ensures { result ≡ value_by high low }
{
    join(high, low).cast_signed()
}
