// One message under each of the five recommended parameter sets: sealed, opened, damaged and refused.
use crate::refused::Refused;
use aes::aes128::Aes128;
use cipher::interface::{Allowance, Cipher};
use cipher::meter::Meter;
use cloc::cloc::Cloc;
use led::led80::Led80;
use mode::checks::WORK_LENGTH;
use mode::fault::ModeFault;
use mode::interface::Mode;
use mode::lookup::lookup;
use mode::set::ParameterSet;
use present::present80::Present80;
use silc::silc::Silc;
use std::io;
use text::digits::Hex;
use tube::writing::fill;
use twine::twine80::Twine80;

const GRANTED: u64 = 100;

const NUMBER: u64 = 1;

const LABEL: &[u8] = b"A-12 rev C";

const LENGTH: usize = 27;

const CONTENTS: &[u8; LENGTH] = b"grid line 7: move 120 mm up";

fn refuse(rt: &HostRuntime, fault: ModeFault, left: u64) -> io::Result<()> {
    let refused = Refused(fault);
    println!(rt; "  {refused}; {left} left")
}

// Opens what was sealed, and says whether the contents came back.
fn open_again<M: Mode>(
    rt: &HostRuntime,
    mode: &mut M,
    set: &ParameterSet,
    nonce: &[u8],
    ciphertext: &[u8],
    tag: &[u8],
) -> io::Result<()> {
    let mut contents = [0u8; LENGTH];
    match mode.open(
        set,
        nonce,
        LABEL,
        ciphertext,
        tag,
        &mut contents,
        &mut [0; WORK_LENGTH],
    ) {
        Ok(count) => {
            let left = mode.left();
            let verdict = if contents == *CONTENTS {
                "the contents came back"
            } else {
                "OTHER CONTENTS"
            };
            println!(rt; "  opened: {verdict}, {count} runs, {left} left")
        }
        Err(fault) => refuse(rt, fault, mode.left()),
    }
}

fn run_message<M: Mode>(
    rt: &HostRuntime,
    mode: &mut M,
    set: &ParameterSet,
    nonce: &mut [u8],
    tag: &mut [u8],
) -> io::Result<()> {
    fill(NUMBER, nonce);
    let mut ciphertext = [0u8; LENGTH];
    let count = match mode.seal(
        set,
        nonce,
        LABEL,
        CONTENTS,
        &mut ciphertext,
        tag,
        &mut [0; WORK_LENGTH],
    ) {
        Ok(count) => count,
        Err(fault) => return refuse(rt, fault, mode.left()),
    };
    let left = mode.left();
    println!(rt; "  label      {}", Hex(LABEL))?;
    println!(rt; "  contents   {}", Hex(CONTENTS))?;
    show_sealed(rt, nonce, &ciphertext, tag)?;
    println!(rt; "  sealed: {count} runs, {left} left")?;
    open_again(rt, mode, set, nonce, &ciphertext, tag)?;
    ciphertext[0] ^= 1;
    println!(rt; "  one bit of the ciphertext damaged:")?;
    open_again(rt, mode, set, nonce, &ciphertext, tag)
}

fn show_sealed(rt: &HostRuntime, nonce: &[u8], ciphertext: &[u8], tag: &[u8]) -> io::Result<()> {
    println!(rt; "  nonce      {}", Hex(nonce))?;
    println!(rt; "  ciphertext {}", Hex(ciphertext))?;
    println!(rt; "  tag        {}", Hex(tag))
}

// The message under the set of a code, a cipher's name, a nonce length and a tag length.
fn with_set<M: Mode + Drop>(
    rt: &HostRuntime,
    mut mode: M,
    name: &str,
    n: u8,
    t: u8,
) -> io::Result<()> {
    let code = mode.code();
    let word = if code == 1 { "CLOC" } else { "SILC" };
    println!(rt; "{word} over {name}, nonce of {n} bytes, tag of {t}")?;
    let Some(set) = lookup(code, name, n, t) else {
        return println!(rt; "  there is no such set");
    };
    // Kept: arrays of the most bytes, as a device lends them.
    let mut nonce = [0u8; 14];
    let mut tag = [0u8; 16];
    let size = set.nonce();
    let length = set.tag();
    run_message(
        rt,
        &mut mode,
        &set,
        &mut nonce[0..size],
        &mut tag[0..length],
    )
}

pub fn run_messages(rt: &HostRuntime) -> io::Result<()> {
    with_set(
        rt,
        Cloc::new(Meter::new(Aes128::new(), GRANTED)),
        "AES-128",
        12,
        8,
    )?;
    with_set(
        rt,
        Silc::new(Meter::new(Aes128::new(), GRANTED)),
        "AES-128",
        12,
        8,
    )?;
    with_set(
        rt,
        Cloc::new(Meter::new(Twine80::new(), GRANTED)),
        "TWINE-80",
        6,
        4,
    )?;
    with_set(
        rt,
        Silc::new(Meter::new(Present80::new(), GRANTED)),
        "PRESENT-80",
        6,
        4,
    )?;
    with_set(
        rt,
        Silc::new(Meter::new(Led80::new(), GRANTED)),
        "LED-80",
        6,
        4,
    )
}
