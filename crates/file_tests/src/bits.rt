//! Worked fields and checks.
use bit_codec::*;

#[test]
fn checks_of_a_frame(rt: HostRuntime) {
    let frame = [0xFF, 0xF8, 0x6A, 0x08, 0x00, 0x0F, 0x0A, 0x00, 0x00, 0x01];
    assert_eq!(rt; crc8(&frame[..6]), 0x0A);
    assert_eq!(rt; crc16(&frame), 0xBE85);
    assert_eq!(rt; crc16(b"123456789"), 0xFEE8);
}

#[test]
fn coded_numbers(rt: HostRuntime) {
    let cases: [(&[u8], Result<u64, BitFault>); 8] = [
        (&[0xC3, 0xA9], Ok(233)),
        (&[0x41], Ok(65)),
        (&[0xFE, 0x80, 0x80, 0x80, 0x80, 0x80, 0x80], Ok(0)),
        (&[0x80], Err(BitFault::BadNumber)),
        (&[0xFF], Err(BitFault::BadNumber)),
        (&[0xC3], Err(BitFault::Cut)),
        (&[0xC3, 0x29], Err(BitFault::BadNumber)),
        (&[0xE3, 0x29], Err(BitFault::BadNumber)),
    ];
    for (bytes, wanted) in cases {
        assert_eq!(rt;
            BitReader::at(bytes, 0).coded_number(),
            wanted,
            "of {bytes:?}"
        );
    }
}

/// Twelve bytes of zeros, and 0000 1011 behind them.
const ZEROS: [u8; 13] = [0, 0, 0, 0, 0, 0, 0, 0, 0, 0, 0, 0, 0x0B];

#[test]
fn zeros_and_the_one_behind_them(rt: HostRuntime) {
    let mut reader = BitReader::at(&ZEROS, 0);
    assert_eq!(rt; reader.unary(), Ok(100));
    assert_eq!(rt; reader.take(3), Ok(3));
    assert_eq!(rt; reader.unary(), Err(BitFault::Cut));
    let mut reader = BitReader::at(&ZEROS, 0);
    assert_eq!(rt; reader.rice(2), Ok(100 * 4 + 1));
    assert_eq!(rt; reader.unary(), Ok(0));
}

#[test]
fn fields_within_the_last_eight_bytes(rt: HostRuntime) {
    let bytes = [0xA5, 0x01, 0x23, 0x45, 0x67, 0x89, 0xAB, 0xCD, 0xEF, 0xFE];
    let mut reader = BitReader::at(&bytes, 1);
    assert_eq!(rt; reader.take(4), Ok(0));
    assert_eq!(rt; reader.take(32), Ok(0x1234_5678));
    assert_eq!(rt; reader.signed(8), Ok(-102));
    assert_eq!(rt; reader.rice(2), Ok(1));
    assert!(rt; !reader.align());
    assert_eq!(rt; reader.byte(), 7);
    assert_eq!(rt; reader.signed(0), Ok(0));
    assert_eq!(rt; reader.take(25), Err(BitFault::Cut));
    assert_eq!(rt; reader.take(24), Ok(0xCD_EFFE));
    assert!(rt; reader.align());
    assert_eq!(rt; reader.byte(), 10);
}
