// What a form of LED's state offers to the rounds: blocks to and from it, and the layers of a round.
ghost use Rattle.std.specs.Prelude.{◌≡◌, ℕ, ◌%◌, List};
ghost use Rattle.bits.specs.Nibbles.{nibbles, bytes};
ghost use Rattle.led.specs.Led.{MixColumnsSerial, ShiftRows, SubCells, addRoundKey, constants};

pub trait State: Copy {
    // The sixteen nibbles.
    ghost cells: { Self → List ℕ };

    // Of a block, or of a subkey.
    fn of_bytes(block: [u8; 8]) -> Self
        ensures { cells result ≡ nibbles block };

    fn to_bytes(self) -> [u8; 8]
        ensures { result ≡ bytes 8 (cells self) };

    // The sum of two states.
    fn plus(self, key: Self) -> Self
        ensures { cells result ≡ addRoundKey (cells key) (cells self) };

    fn mixed(self) -> Self
        ensures { cells result ≡ MixColumnsSerial (ShiftRows (SubCells (cells self))) };

    // The constants of a round of the 48, counted from 0, with the key size 80.
    fn constants(round: usize) -> Self
        ensures { cells result ≡ constants 80 (round % 48) };
}
