// The published vector of CLOC: "CLOC: Authenticated Encryption for Short Input" (FSE 2014), over AES-128. It has a nonce of twelve bytes
// and no param byte, so it is a case of version 3 whose param is the first byte of that nonce.
use aes::aes128::Aes128;
use cloc::cloc::Cloc;
use mode::interface::Mode;
use mode::set::ParameterSet;
use std::test::Fail;

const NONCE: [u8; 11] = [
    0x11, 0x22, 0x33, 0x44, 0x55, 0x66, 0x77, 0x88, 0x99, 0xaa, 0xbb,
];

const LABEL: [u8; 14] = [0xff, 1, 2, 3, 4, 5, 6, 7, 8, 9, 10, 11, 12, 13];

const CONTENTS: [u8; 30] = [
    0x86, 0x01, 0x22, 0x04, 0xcc, 0xeb, 0xf0, 0x9a, 0xd5, 0x30, 0x5e, 0xa8, 0x96, 0x7a, 0xeb, 0xd0,
    0x0d, 0xd9, 0xc0, 0x5c, 0xbd, 0xe9, 0x40, 0x7f, 0xf1, 0xef, 0x52, 0xf0, 0x43, 0xa2,
];

const CIPHERTEXT: [u8; 30] = [
    0xeb, 0xd9, 0x08, 0xc2, 0x3e, 0xac, 0x55, 0x5d, 0xee, 0x40, 0x64, 0x34, 0xfb, 0x2c, 0xff, 0xd4,
    0xe1, 0xbe, 0xe4, 0x40, 0x10, 0x02, 0x06, 0x3e, 0x2d, 0x13, 0xcd, 0xf9, 0xdf, 0x3b,
];

#[test]
fn cloc_over_aes_as_published(rt: HostRuntime) -> Result<(), Fail> {
    let mut cipher = Aes128::new();
    let key = 0x0010_2030_4050_6070_8090_a0b0_c0d0_e0f0u128.to_be_bytes();
    assert_eq!(rt; cipher.set_key(&key), Ok(()));
    let mut mode = Cloc::new(cipher);
    let set = ParameterSet::new(1, 16, 11, 16, 0x00)?;
    let mut sealed = [0u8; 30];
    let mut tag = [0u8; 16];
    let count = mode.seal(
        &set,
        &NONCE,
        &LABEL,
        &CONTENTS,
        &mut sealed,
        &mut tag,
        &mut [0; 64],
    )?;
    assert_eq!(rt; count, 6);
    assert_eq!(rt; sealed, CIPHERTEXT);
    assert_eq!(rt;
        u128::from_be_bytes(tag),
        0x6621_dae2_7674_aa6f_bc30_3426_824b_2c05
    );
    let mut opened = [0u8; 30];
    let count = mode.open(
        &set,
        &NONCE,
        &LABEL,
        &sealed,
        &tag,
        &mut opened,
        &mut [0; 64],
    )?;
    assert_eq!(rt; count, 6);
    assert_eq!(rt; opened, CONTENTS);
    Ok(())
}
