// Writing a tube.
ghost use Rattle.std.specs.Prelude.{◌≡◌, ℕ, ◌+◌, ◌^◌, ◌<◌, ◌≤◌, List, [], ◌∷◌, ◌++◌, length, take, Some};
ghost use Rattle.tube.specs.Write.{four, sectioned, nonce_of};
ghost use Rattle.tube.specs.Put.{in_range, fits, wrote, written, enclosed, Laid};
ghost use Rattle.tube.specs.Read.{value};
ghost use Rattle.tube.specs.Form.{ReadsBack};

use crate::fault::Section;

// Kept: the sections one by one, here and in `enclose`, since the ends have them in parts that are lent to them.
// Writes a tube of five sections into the first bytes of `out` and answers its length. Where a section is out of its range or `out` too
// short, it writes nothing and answers none. What is written reads back as these sections.
pub fn write(
    code: u8,
    param: u8,
    nonce: &[u8],
    label: &[u8],
    ciphertext: &[u8],
    tag: &[u8],
    out: &mut [u8],
) -> Option<usize>
    ensures answers { result ≡ wrote (length nonce.now) (length label.now) (length ciphertext.now) (length tag.now) (length out.old) }
    ensures out { out.new ≡ written code param nonce.now label.now ciphertext.now tag.now out.old }
    ensures reads { (len : ℕ) → result ≡ Some len → ReadsBack code param nonce.now label.now ciphertext.now tag.now (take len out.new) }
{
    if !fits(
        nonce.len(),
        label.len(),
        ciphertext.len(),
        tag.len(),
        out.len(),
    ) {
        return None;
    }
    put(out, 18 + nonce.len() + label.len(), ciphertext);
    enclose(code, param, nonce, label, ciphertext.len(), tag, out)
}

// The same around a ciphertext of `size` bytes that stands in its place in `out` already: a sending end has its mode write it there, after
// 18 bytes and those of nonce and label.
pub fn enclose(
    code: u8,
    param: u8,
    nonce: &[u8],
    label: &[u8],
    size: usize,
    tag: &[u8],
    out: &mut [u8],
) -> Option<usize>
    ensures answers { result ≡ wrote (length nonce.now) (length label.now) size (length tag.now) (length out.old) }
    ensures out { out.new ≡ enclosed code param nonce.now label.now size tag.now out.old }
{
    if !fits(nonce.len(), label.len(), size, tag.len(), out.len()) {
        return None;
    }
    let at = put_head(out, code, param, nonce, label, size);
    Some(put_section(out, at + size, tag))
}

// Writes the nonce of a number: the number in the bytes that there are, the highest first, zeros in front.
pub fn fill(number: u64, bytes: &mut [u8])
    ensures bytes { bytes.new ≡ nonce_of (length bytes.old) number }
    ensures back { number < 256 ^ length bytes.old → value bytes.new ≡ number }
{
    // Lowest first and then reversed: of what is written through iter_mut().rev() a proof knows the length alone.
    // Kept: there may be more bytes than the eight of to_be_bytes, or fewer.
    let mut rest = number;
    for byte in bytes.iter_mut() {
        *byte = (rest % 256) as u8;
        rest /= 256;
    }
    bytes.reverse();
}

fn in_range(nonce: usize, label: usize, contents: usize, tag: usize) -> bool
    ensures { result ≡ in_range nonce label contents tag }
{
    Section::Number.allows(nonce)
        && Section::Label.allows(label)
        && Section::Contents.allows(contents)
        && Section::Tag.allows(tag)
}

// Whether the sections are in their ranges and the tube has room.
fn fits(nonce: usize, label: usize, contents: usize, tag: usize, room: usize) -> bool
    ensures { result ≡ fits nonce label contents tag room }
{
    in_range(nonce, label, contents, tag) && 22 + nonce + tag + label + contents <= room
}

// The first three sections, and the count of the fourth. Like each put below it answers the place after what it wrote.
fn put_head(out: &mut [u8], code: u8, param: u8, nonce: &[u8], label: &[u8], size: usize) -> usize
    requires room { 18 + length nonce.now + length label.now ≤ length out.old }
    requires nonces { length nonce.now ≤ 16 }
    requires labels { length label.now ≤ 4096 }
    requires sizes { size < 2 ^ 32 }
    ensures next { result ≡ 18 + length nonce.now + length label.now }
    ensures out { Laid 0 (((sectioned (code ∷ param ∷ []) ++ sectioned nonce.now) ++ sectioned label.now) ++ four size) out.old out.new }
{
    let at = put_section(out, 0, &[code, param]);
    let at = put_section(out, at, nonce);
    let at = put_section(out, at, label);
    put_count(out, at, size)
}

// A section after its count.
fn put_section(out: &mut [u8], at: usize, bytes: &[u8]) -> usize
    requires room { at + 4 + length bytes.now ≤ length out.old }
    requires count { length bytes.now < 2 ^ 32 }
    ensures next { result ≡ at + 4 + length bytes.now }
    ensures out { Laid at (sectioned bytes.now) out.old out.new }
{
    let at = put_count(out, at, bytes.len());
    put(out, at, bytes)
}

// A count in four bytes, the highest first.
fn put_count(out: &mut [u8], at: usize, n: usize) -> usize
    requires room { at + 4 ≤ length out.old }
    requires count { n < 2 ^ 32 }
    ensures next { result ≡ at + 4 }
    ensures out { Laid at (four n) out.old out.new }
{
    put(out, at, &(n as u32).to_be_bytes())
}

// Kept: a place in the part that the caller lent, as nothing is allocated.
fn put(out: &mut [u8], at: usize, bytes: &[u8]) -> usize
    requires { at + length bytes.now ≤ length out.old }
    ensures next { result ≡ at + length bytes.now }
    ensures out { Laid at bytes.now out.old out.new }
{
    let end = at + bytes.len();
    out[at..end].copy_from_slice(bytes);
    end
}
