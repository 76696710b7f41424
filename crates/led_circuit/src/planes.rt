// A state of LED by bit planes: its sixteen nibbles in the lanes of 64 bits.
ghost use Rattle.std.specs.Prelude.{◌≡◌};
ghost use Rattle.bits.specs.Nibbles.{nibbles, bytes};
ghost use Rattle.led_circuit.specs.Planes.{cells};

use present::bitwise::delta_swap;

// The state of a block, or of a subkey.
pub(crate) fn loaded(block: [u8; 8]) -> u64
    ensures { cells result ≡ nibbles block }
{
    let w = u64::from_le_bytes(block);
    let x = ((w & 0x0f0f_0f0f_0f0f_0f0f) << 4) ^ ((w >> 4) & 0x0f0f_0f0f_0f0f_0f0f);
    delta_swap(
        delta_swap(x, 3, 0x0a0a_0a0a_0a0a_0a0a),
        6,
        0x00cc_00cc_00cc_00cc,
    )
}

// The block of a state.
pub(crate) fn stored(x: u64) -> [u8; 8]
    ensures { result ≡ bytes 8 (cells x) }
{
    let y = delta_swap(
        delta_swap(x, 6, 0x00cc_00cc_00cc_00cc),
        3,
        0x0a0a_0a0a_0a0a_0a0a,
    );
    let w = ((y & 0x0f0f_0f0f_0f0f_0f0f) << 4) ^ ((y >> 4) & 0x0f0f_0f0f_0f0f_0f0f);
    w.to_le_bytes()
}
