// Signed entries and orthant bytes. An entry's byte is its axis, plus 128 for minus; it is an i8 where it is negated.
#![tactic(auto)]

pub mod check; // check.rt: the walks that test a body
pub mod code; // code.rt: a code that passes
pub mod words; // words.rt: bytes as one word

ghost use Rattle.std.specs.Prelude.{◌≡◌, ◌+◌, ◌-◌, ◌*◌, ◌^◌, ◌≤◌, ◌<◌, ℤ, neg_ℤ};
ghost use Rattle.std.specs.Int.{w8};
ghost use Rattle.std.proofs.Common.{SFits};
ghost use Rattle.bisection.specs.Codes.{axis, minus, negated, high};
ghost use Rattle.entries.specs.Signs.{signed_of, byte_of};
ghost use Rattle.entries.specs.Masks.{mark_of, negated_alone};

// The axis of an entry.
pub fn axis_of(e: u8) -> u8
    ensures { result ≡ axis e }
{
    if e < 128 { e } else { e - 128 }
}

// The entry has a minus.
pub fn is_minus(e: u8) -> bool
    ensures { result ≡ minus e }
{
    128 <= e
}

// An entry as a signed number: its axis, with its sign.
pub fn signed_of(e: u8) -> i8
    ensures { result ≡ signed_of e }
{
    if e < 128 { e as i8 } else { -((e - 128) as i8) }
}

// A signed number as an entry. No axis is 0: with a minus for it a negation is one flip of a bit, and costs no test.
pub fn byte_of(x: i8) -> u8
    requires { SFits w8 (neg_ℤ x) }
    ensures { result ≡ byte_of x }
{
    if 0 < x { x as u8 } else { 128 + (-x) as u8 }
}

// The entry with the other sign.
pub fn negate(e: u8) -> u8
    ensures { result ≡ negated e }
{
    if 128 <= e {
        e - 128
    } else {
        byte_of(-signed_of(e))
    }
}

// The orthant byte is high on the axis: its bit at axis - 1, by shift and mask.
pub fn is_high(orthant: u8, axis: u8) -> bool
    requires { (1 ≤ axis) × (axis ≤ 8) }
    ensures { result ≡ high orthant axis }
{
    (orthant >> (axis - 1)) & 1 == 1
}

// The mask that is high on the entry's axis alone: the bit at the axis, one place down, so that 0 has none.
fn mark_of(e: u8) -> u32
    requires { axis e ≤ 8 }
    ensures { result ≡ mark_of (axis e) }
{
    (1 << axis_of(e)) / 2
}

// That of an entry with a minus; 0 where it has none.
fn minus_mark_of(e: u8) -> u32
    requires { axis e ≤ 8 }
    ensures { result ≡ mark_of (axis (negated_alone e)) }
{
    (u32::from(e >> 7) << axis_of(e)) / 2
}
