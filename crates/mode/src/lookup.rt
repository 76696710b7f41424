// The sets that the CLOC and SILC v3 submission names.
ghost use Rattle.std.specs.Prelude.{◌≡◌, ◌≤◌, ◌⊎◌};
ghost use Rattle.mode.specs.Columns.{nonce_place, tag_place, column};
ghost use Rattle.mode.specs.Recommended.{recommended};
ghost use Rattle.mode.specs.Set.{shown_option};

use crate::set::ParameterSet;

// The set of a mode's code, a cipher's name, and the lengths of nonce and tag in bytes; none where the submission has no such row.
pub fn lookup(code: u8, cipher: &str, nonce: u8, tag: u8) -> Option<ParameterSet>
    ensures { shown_option result ≡ recommended code cipher.now nonce tag }
{
    match (code, cipher) {
        (1 | 2, "AES-128") => row(code, 16, 0xc0, nonce, tag),
        (1, "TWINE-80") => row(code, 8, 0xc4, nonce, tag),
        (2, "PRESENT-80") => row(code, 8, 0xc4, nonce, tag),
        (2, "LED-80") => row(code, 8, 0xc8, nonce, tag),
        _ => None,
    }
}

// The row of a cipher whose blocks have so many bytes, and whose params count up from a first.
fn row(code: u8, width: u8, first: u8, nonce: u8, tag: u8) -> Option<ParameterSet>
    requires code { (1 ≤ code) × (code ≤ 2) }
    requires width { (width ≡ 8) ⊎ (width ≡ 16) }
    requires first { first ≤ 200 }
    ensures { shown_option result ≡ column code width first nonce tag }
{
    let n = nonce_place(width, nonce)?;
    let t = tag_place(width, tag)?;
    Some(ParameterSet {
        code,
        width,
        nonce,
        tag,
        param: first + 16 * n + t,
    })
}

// Where a nonce length stands among those of this width.
fn nonce_place(width: u8, nonce: u8) -> Option<u8>
    ensures { result ≡ nonce_place width nonce }
{
    match (width, nonce) {
        (16, 12) | (8, 6) => Some(0),
        (16, 8) | (8, 4) => Some(1),
        (16, 14) => Some(2),
        _ => None,
    }
}

// Where a tag length stands among those of this width.
fn tag_place(width: u8, tag: u8) -> Option<u8>
    ensures { result ≡ tag_place width tag }
{
    match (width, tag) {
        (16, 8) | (8, 4) => Some(0),
        (16, 12) | (8, 6) => Some(1),
        (16, 16) | (8, 8) => Some(2),
        (16, 4) => Some(3),
        _ => None,
    }
}
