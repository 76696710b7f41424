// The tag: cut off a block, and compared.
ghost use Rattle.std.specs.Prelude.{◌≡◌, ◌≤◌, length};
ghost use Rattle.std.specs.Str.{bytes_eq};
ghost use Rattle.blocks.specs.Blocks.{msb};

// The first bytes of a block, as many as the tag has.
pub fn copy_msb(tag: &mut [u8], block: &[u8])
    requires { length tag.old ≤ length block.now }
    ensures { tag.new ≡ msb (length tag.old) block.now }
{
    let (first, _) = block.split_at(tag.len());
    tag.copy_from_slice(first);
}

// Kept: no `==`, which may end at the first byte that differs.
// Whether two strings are equal. All bytes are looked at, whatever is found, so that the time tells nothing of where they differ.
pub fn same_bytes(a: &[u8], b: &[u8]) -> bool
    ensures { result ≡ bytes_eq a.now b.now }
{
    if a.len() != b.len() {
        return false;
    }
    let mut differ = 0;
    for (x, y) in a.iter().zip(b) {
        differ |= x ^ y;
    }
    differ == 0
}
