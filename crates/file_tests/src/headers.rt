//! Headers, read and refused.
use file_model::FlacRule;
use flac_frames::{Header, Info, Stereo, read_header};
use lib_base::Broken;

/// A file of one channel of 16 bits.
const MONO: Info = Info {
    rate: 48_000,
    channels: 1,
    depth: 16,
    total: 0,
    md5: [0; 16],
};

/// The header of a block of 16 samples, of seven bytes.
const HEADER: [u8; 7] = [0xFF, 0xF8, 0x6A, 0x08, 0x00, 0x0F, 0x0A];

/// The refusal by a rule, at the start.
fn by_rule(rule: FlacRule) -> Result<Header, Broken> {
    Err(Broken {
        rule: rule.rule(),
        place: 0,
    })
}

/// Each row: the place of a byte, the other byte there, and the rule that the header then breaks.
const EDITS: [(usize, u8, FlacRule); 11] = [
    (1, 0xF0, FlacRule::LostSync),
    (2, 0x0A, FlacRule::ReservedBlockSize),
    (2, 0x6F, FlacRule::ForbiddenRate),
    (3, 0xB8, FlacRule::ReservedChannels),
    (3, 0x06, FlacRule::ReservedDepth),
    (3, 0x09, FlacRule::ReservedBit),
    (4, 0x80, FlacRule::OtherCodedNumber),
    (2, 0x69, FlacRule::FrameRate),
    (3, 0x18, FlacRule::FrameChannels),
    (3, 0x02, FlacRule::FrameDepth),
    (6, 0x0B, FlacRule::HeaderCheck),
];

/// Edits of a header, and one that ends at each of its bytes and before the first.
#[test]
fn headers_that_are_refused(rt: HostRuntime) {
    for (place, byte, rule) in EDITS {
        assert!(rt; place < 7);
        let mut bytes = HEADER;
        bytes[place] = byte;
        let read = read_header(&bytes, 0, &MONO);
        assert_eq!(rt; read, by_rule(rule), "byte {place} as {byte}");
    }
    for length in 0..HEADER.len() {
        let read = read_header(&HEADER[..length], 0, &MONO);
        assert_eq!(rt; read, by_rule(FlacRule::CutFrame), "{length} bytes");
    }
}

/// A header behind other bytes; and mid and side, a block of 65,536, a number spelled in two bytes,
/// and the rate in tens of Hz.
#[test]
fn headers_that_are_read(rt: HostRuntime) {
    let bytes = [1, 2, 3, 0xFF, 0xF8, 0x6A, 0x08, 0x00, 0x0F, 0x0A];
    let mono = Header {
        length: 7,
        block: 16,
        stereo: None,
    };
    assert_eq!(rt; read_header(&bytes, 3, &MONO), Ok(mono));
    let info = Info {
        channels: 2,
        ..MONO
    };
    let mut bytes = [
        0xFF, 0xF9, 0x7E, 0xA8, 0xC0, 0x80, 0xFF, 0xFF, 0x12, 0xC0, 0x00,
    ];
    bytes[10] = bit_codec::crc8(&bytes[..10]);
    let pair = Header {
        length: 11,
        block: 65_536,
        stereo: Some(Stereo::MidSide),
    };
    assert_eq!(rt; read_header(&bytes, 0, &info), Ok(pair));
}
