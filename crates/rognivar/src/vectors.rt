// The published vectors, run by the ciphers under a meter that grants two runs.
use aes::aes128::Aes128;
use cipher::interface::{Allowance, Cipher};
use cipher::keyed::{Keyed, Schedule};
use cipher::meter::Meter;
use led::led80::Led80;
use present::present80::Present80;
use refusal::interface::Refusal;
use std::io;
use text::digits::Hex;
use twine::twine80::Twine80;

const GRANTED: u64 = 2;

// How many vectors were tried, and how many agreed.
#[derive(Clone, Copy)]
pub struct Tally {
    pub tried: usize,
    pub agreed: usize,
}

// A key, a block, and what a run under the key makes of it.
#[derive(Clone, Copy)]
struct Vector<const K: usize, const B: usize> {
    key: [u8; K],
    block: [u8; B],
    expected: [u8; B],
}

// A vector of a cipher with blocks of 8 bytes.
fn small(key: &[u8; 10], block: u64, expected: u64) -> Vector<10, 8> {
    Vector {
        key: *key,
        block: block.to_be_bytes(),
        expected: expected.to_be_bytes(),
    }
}

// A vector of AES-128.
fn wide(key: u128, block: u128, expected: u128) -> Vector<16, 16> {
    Vector {
        key: key.to_be_bytes(),
        block: block.to_be_bytes(),
        expected: expected.to_be_bytes(),
    }
}

fn refuse<F: Refusal + std::fmt::Display>(rt: &HostRuntime, fault: &F) -> io::Result<()> {
    let number = fault.number();
    println!(rt; "  refused ({number}): {fault}")
}

// One run of a cipher, and whether it came out as expected.
fn run_vector<S: Schedule<K, B> + Drop, const K: usize, const B: usize>(
    rt: &HostRuntime,
    title: &str,
    mut cipher: Keyed<S, K, B>,
    vector: &Vector<K, B>,
) -> io::Result<bool> {
    println!(rt; "{title}")?;
    match cipher.set_key(&vector.key) {
        Ok(()) => run_keyed(rt, cipher, vector),
        Err(fault) => {
            refuse(rt, &fault)?;
            Ok(false)
        }
    }
}

// The same once the key is set.
fn run_keyed<C: Cipher + Drop, const K: usize, const B: usize>(
    rt: &HostRuntime,
    cipher: C,
    vector: &Vector<K, B>,
) -> io::Result<bool> {
    let mut metered = Meter::new(cipher, GRANTED);
    let before = metered.left();
    let mut block = vector.block;
    let came = metered.run(&mut block);
    let after = metered.left();
    let agrees = came.is_ok() && block == vector.expected;
    let verdict = if agrees {
        "as expected"
    } else {
        "NOT AS EXPECTED"
    };
    println!(rt; "  key    {}", Hex(&vector.key))?;
    println!(rt; "  block  {}", Hex(&vector.block))?;
    println!(rt; "  result {}, {verdict}", Hex(&block))?;
    println!(rt; "  left   {before} before, {after} after")?;
    if let Err(fault) = came {
        refuse(rt, &fault)?;
    }
    Ok(agrees)
}

fn run_aes(rt: &HostRuntime) -> io::Result<[bool; 2]> {
    let appendix_b = wide(
        0x2b7e_1516_28ae_d2a6_abf7_1588_09cf_4f3c,
        0x3243_f6a8_885a_308d_3131_98a2_e037_0734,
        0x3925_841d_02dc_09fb_dc11_8597_196a_0b32,
    );
    let appendix_c = wide(
        0x0001_0203_0405_0607_0809_0a0b_0c0d_0e0f,
        0x0011_2233_4455_6677_8899_aabb_ccdd_eeff,
        0x69c4_e0d8_6a7b_0430_d8cd_b780_70b4_c55a,
    );
    Ok([
        run_vector(
            rt,
            "AES-128, FIPS 197, appendix B",
            Aes128::new(),
            &appendix_b,
        )?,
        run_vector(
            rt,
            "AES-128, FIPS 197, appendix C.1",
            Aes128::new(),
            &appendix_c,
        )?,
    ])
}

fn run_present(rt: &HostRuntime, vector: &Vector<10, 8>) -> io::Result<bool> {
    run_vector(
        rt,
        "PRESENT-80, CHES 2007, appendix I",
        Present80::new(),
        vector,
    )
}

pub fn run_vectors(rt: &HostRuntime) -> io::Result<Tally> {
    let zeros = [0u8; 10];
    let ones = [0xffu8; 10];
    let counted = [0x00, 0x11, 0x22, 0x33, 0x44, 0x55, 0x66, 0x77, 0x88, 0x99];
    let [b, c] = run_aes(rt)?;
    let results = [
        b,
        c,
        run_present(rt, &small(&zeros, 0, 0x5579_c138_7b22_8445))?,
        run_present(rt, &small(&ones, 0, 0xe72c_46c0_f594_5049))?,
        run_present(rt, &small(&zeros, u64::MAX, 0xa112_ffc7_2f68_417b))?,
        run_present(rt, &small(&ones, u64::MAX, 0x3333_dcd3_2132_10d2))?,
        run_vector(
            rt,
            "TWINE-80, SAC 2012",
            Twine80::new(),
            &small(&counted, 0x0123_4567_89ab_cdef, 0x7c1f_0f80_b1df_9c28),
        )?,
        run_vector(
            rt,
            "LED-80 as in SILC v3, from an independent implementation",
            Led80::new(),
            &small(&counted, 0x0123_4567_89ab_cdef, 0x0b31_c20c_b38f_9d8c),
        )?,
    ];
    Ok(Tally {
        tried: results.len(),
        agreed: results.iter().filter(|agrees| **agrees).count(),
    })
}
