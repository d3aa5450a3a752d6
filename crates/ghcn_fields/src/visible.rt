//! Bytes that show in print, tested by SIMD.

ghost use Rattle.std.specs.Prelude.{◌≡◌, ◌&&◌, nat_le, take};
ghost use Rattle.std.specs.List.{list_all};

use std::simd::prelude::*;

/// All bits after the first eleven lanes.
const BEHIND: [u8; 16] = [0, 0, 0, 0, 0, 0, 0, 0, 0, 0, 0, 255, 255, 255, 255, 255];

/// Whether each of the first eleven bytes shows in print, from `!` to `~`.
pub fn eleven_are_visible(bytes: &[u8; 16]) -> bool
    ensures { result ≡ list_all (λ b. nat_le 33 b && nat_le b 126) (take 11 bytes.now) }
{
    let (all, none) = (u8x16::splat(255), u8x16::splat(0));
    let lanes = u8x16::from_array(*bytes);
    let nearest = lanes
        .simd_max(u8x16::splat(b'!'))
        .simd_min(u8x16::splat(b'~'));
    let visible = lanes.simd_eq(nearest).select(all, none);
    (visible | u8x16::from_array(BEHIND)).simd_ge(all).all()
}
