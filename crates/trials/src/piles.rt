// A pile of three meters over AES.
use aes::aes128::Aes128;
use cipher::fault::CipherFault;
use cipher::interface::{Allowance, Cipher};
use cipher::meter::Meter;

#[test]
fn a_pile_grants_the_smallest_quota(rt: HostRuntime) {
    let mut cipher = Aes128::new();
    let key = 0x0001_0203_0405_0607_0809_0a0b_0c0d_0e0fu128.to_be_bytes();
    assert_eq!(rt; cipher.set_key(&key), Ok(()));
    let mut pile = Meter::new(Meter::new(Meter::new(cipher, u64::MAX), 2), 5);
    assert_eq!(rt; pile.width(), 16);
    assert_eq!(rt; pile.left(), 2);
    let mut block = 0x0011_2233_4455_6677_8899_aabb_ccdd_eeffu128.to_be_bytes();
    assert_eq!(rt;
        pile.run(&mut block[0..15]),
        Err(CipherFault::BlockLength(15))
    );
    assert_eq!(rt; pile.left(), 2);
    assert_eq!(rt; pile.run(&mut block), Ok(()));
    assert_eq!(rt;
        u128::from_be_bytes(block),
        0x69c4_e0d8_6a7b_0430_d8cd_b780_70b4_c55a
    );
    assert_eq!(rt; pile.left(), 1);
    assert_eq!(rt; pile.run(&mut block), Ok(()));
    let last = block;
    assert_eq!(rt; pile.run(&mut block), Err(CipherFault::Spent));
    assert_eq!(rt; block, last);
    assert_eq!(rt; pile.left(), 0);
    assert_eq!(rt; pile.quota(), 3);
    let middle = pile.into_below();
    assert_eq!(rt; middle.quota(), 0);
    let bottom = middle.into_below();
    assert_eq!(rt; bottom.quota(), u64::MAX);
}
