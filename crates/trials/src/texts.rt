// Bytes as hexadecimal text and back, on the test vector of base 16 in RFC 4648.
use std::test::Fail;
use text::digits::{Hex, decode, encode};
use text::fault::TextFault;

#[test]
fn bytes_as_text_and_back(rt: HostRuntime) -> Result<(), Fail> {
    let heap = rt.alloc();
    let mut line = Vec::from_slice(heap, b"tag=")?;
    encode(&mut line, b"foobar")?;
    assert_eq!(rt; line.as_slice(), b"tag=666f6f626172".as_slice());
    let shown = format!(in heap; "{}", Hex(b"foobar"))?;
    assert_eq!(rt; shown.as_str(), "666f6f626172");
    let bytes = decode(heap, "666F6F626172")?;
    assert_eq!(rt; bytes.as_slice(), b"foobar".as_slice());
    assert_eq!(rt; decode(heap, "666").err(), Some(TextFault::OddLength));
    assert_eq!(rt; decode(heap, "666g").err(), Some(TextFault::NoDigit('g')));
    Ok(())
}
