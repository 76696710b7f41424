// Blocks of 8 or 16 bytes as four words, on which whole blocks are combined at once: a byte stored alone would hold up the next run,
// which reads the block by words.
ghost use Rattle.std.specs.Prelude.{◌≡◌, ℕ, ◌/◌, ◌<◌, cond, length};
ghost use Rattle.blocks.specs.Blocks.{◌⊕◌};
ghost use Rattle.blocks.specs.Pads.{fix1};
ghost use Rattle.blocks.specs.Words.{IsBlock, word, little, held};

// One of the four words of a block as a number, which has the first byte lowest: to exclusive or the order is the same.
fn load_word(block: &[u8], i: usize) -> u32
    requires width { IsBlock block.now }
    requires place { i < 4 }
    ensures { little (length block.now / 4) result ≡ word i block.now }
{
    if block.len() == 16 {
        let at = 4 * i;
        u32::from_le_bytes([block[at], block[at + 1], block[at + 2], block[at + 3]])
    } else {
        let at = 2 * i;
        u32::from_le_bytes([block[at], block[at + 1], 0, 0])
    }
}

// The four words of a block.
pub(crate) fn load_words(block: &[u8]) -> [u32; 4]
    requires { IsBlock block.now }
    ensures { held (length block.now / 4) result ≡ block.now }
{
    [
        load_word(block, 0),
        load_word(block, 1),
        load_word(block, 2),
        load_word(block, 3),
    ]
}

// The block whose words are these: the low bytes of each, two or four.
pub(crate) fn store_words(block: &mut [u8], words: [u32; 4])
    requires { IsBlock block.old }
    ensures { block.new ≡ held (length block.old / 4) words }
{
    let [w1, w2, w3, w4] = words;
    let [a0, a1, a2, a3] = w1.to_le_bytes();
    let [b0, b1, b2, b3] = w2.to_le_bytes();
    let [c0, c1, c2, c3] = w3.to_le_bytes();
    let [d0, d1, d2, d3] = w4.to_le_bytes();
    if block.len() == 16 {
        block.copy_from_slice(&[
            a0, a1, a2, a3, b0, b1, b2, b3, c0, c1, c2, c3, d0, d1, d2, d3,
        ]);
    } else {
        block.copy_from_slice(&[a0, a1, b0, b1, c0, c1, d0, d1]);
    }
}

// X ⊕ Y, on their words.
fn xor(x: [u32; 4], y: [u32; 4]) -> [u32; 4]
    ensures { (q : ℕ) → held q result ≡ held q x ⊕ held q y }
{
    [x[0] ^ y[0], x[1] ^ y[1], x[2] ^ y[2], x[3] ^ y[3]]
}

// fix1(X), on its words.
fn fix_one(x: [u32; 4]) -> [u32; 4]
    ensures { (q : ℕ) → 0 < q → held q result ≡ fix1 (held q x) }
{
    [x[0] | 0x80, x[1], x[2], x[3]]
}

// block ⊕ X for two whole blocks.
pub(crate) fn xor_words(block: &mut [u8], x: &[u8])
    requires width { IsBlock block.old }
    requires same { length x.now ≡ length block.old }
    ensures { block.new ≡ block.old ⊕ x.now }
{
    let sum = xor(load_words(block), load_words(x));
    store_words(block, sum);
}

// One block through the stream block in the state: X[i] ⊕ the stream block goes out, and fix1(C[i]) into the state. C[i] is what is
// written where contents are encrypted, and what is read where a ciphertext is decrypted.
pub(crate) fn crypt_block<const DECRYPTS: bool>(state: &mut [u8], block: &[u8], out: &mut [u8])
    requires width { IsBlock state.old }
    requires block { length block.now ≡ length state.old }
    requires out { length out.old ≡ length state.old }
    ensures out { out.new ≡ block.now ⊕ state.old }
    ensures state { state.new ≡ fix1 (cond DECRYPTS block.now (block.now ⊕ state.old)) }
{
    let read = load_words(block);
    let written = xor(read, load_words(state));
    store_words(out, written);
    if DECRYPTS {
        store_words(state, fix_one(read));
    } else {
        store_words(state, fix_one(written));
    }
}
