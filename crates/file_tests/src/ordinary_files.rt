//! Files of the ordinary encoder (`flac` 1.4.2, in blocks of 16 samples), read and decoded.
use file_model::FlacRule;
use flac_stream::{decode, read};
use lib_base::{Broken, Memory, PcmSound, Refused, Scratch, Sound};
use std::alloc::Global;
use std::test::Fail;

/// A file: what it shows, its bytes, the bits of a sample, how many blocks it has, which of them
/// holds comments, and the samples of each channel.
struct Ordinary {
    name: &'static str,
    bytes: &'static [u8],
    depth: u32,
    blocks: usize,
    comments: usize,
    lists: &'static [&'static [i32]],
}

/// The last one has a seek table, comments, a picture and padding before its frames.
const FILES: [Ordinary; 3] = [
    Ordinary {
        name: "two channels of 24 bits",
        bytes: b"\x66\x4C\x61\x43\x00\x00\x00\x22\x00\x10\x00\x10\x00\x00\x23\x00\x00\x6A\x0B\xB8\x03\x70\
            \x00\x00\x00\x14\xB8\x1C\xE5\x9C\x76\x4D\x12\x2F\x1F\xD7\xCC\x9E\xD6\xDE\xC9\x7B\x84\x00\
            \x00\x54\x20\x00\x00\x00\x72\x65\x66\x65\x72\x65\x6E\x63\x65\x20\x6C\x69\x62\x46\x4C\x41\
            \x43\x20\x31\x2E\x34\x2E\x32\x20\x32\x30\x32\x32\x31\x30\x32\x32\x01\x00\x00\x00\x28\x00\
            \x00\x00\x57\x41\x56\x45\x46\x4F\x52\x4D\x41\x54\x45\x58\x54\x45\x4E\x53\x49\x42\x4C\x45\
            \x5F\x43\x48\x41\x4E\x4E\x45\x4C\x5F\x4D\x41\x53\x4B\x3D\x30\x78\x30\x30\x30\x33\xFF\xF8\
            \x6A\x8C\x00\x0F\xAA\x14\xFF\x3E\xDC\x1E\xB0\x91\x46\xD2\x34\x00\x55\x9E\x03\x04\xBE\xD5\
            \x34\xB8\xFB\x2A\x4F\x41\x34\x41\x9B\xE6\xCA\x06\xD2\x11\x94\xF7\x35\x56\xC3\x4B\xE8\x3C\
            \x41\x7C\x18\x9E\x42\x2C\x65\x5A\xA0\x82\x36\x80\x14\x1B\x47\x0A\x1A\xEB\x1F\x00\x0F\xFF\
            \xFF\xDB\x9B\x96\x38\x02\x67\x6C\xE4\xFC\xCF\x48\x61\x42\x17\xB9\xC8\x6F\x7B\x5D\xFB\x12\
            \xD2\x9E\xAA\x7A\xBB\xBB\xE2\x06\x67\x52\x2C\xDA\xA7\x38\x44\x5E\xFF\xF8\x6A\x1C\x01\x03\
            \x32\x02\x99\x97\xEF\xA0\x43\x2F\xB1\x4B\xB6\xC7\x00\x7B\x02\xB3\x1D\xDE\xB6\xD6\xDD\xC4\
            \x97\x6A\xD3\x11\xB6\x38\x77",
        depth: 24,
        blocks: 2,
        comments: 1,
        lists: &[
            &[
                -49_444, 2_011_281, 3_783_237, 8_388_607, 6_311_695, 6_710_776, 6_504_412,
                5_740_168, 4_562_173, 2_850_888, 949_480, -1_051_920, -2_985_856, -4_530_574,
                -5_841_681, -6_475_498, -6_711_313, -6_274_257, -5_157_962, -3_735_429,
            ],
            &[
                -48_157, 1_429_326, 2_820_181, -8_388_608, 4_790_243, 5_137_297, 5_033_310,
                4_441_200, 3_489_302, 2_298_061, 703_878, -836_245, -2_299_076, -3_549_452,
                -4_470_987, -5_055_606, -5_038_626, -4_794_659, -3_893_398, -2_944_586,
            ],
        ],
    },
    Ordinary {
        name: "one channel of 12 bits",
        bytes: b"\x66\x4C\x61\x43\x00\x00\x00\x22\x00\x10\x00\x10\x00\x00\x15\x00\x00\x21\x0B\xB8\x00\xB0\
            \x00\x00\x00\x18\x3B\xB6\x7E\x1D\x3F\x32\xAC\x93\xD0\x8B\xE3\x40\xDB\x1B\x51\xAF\x84\x00\
            \x00\x54\x20\x00\x00\x00\x72\x65\x66\x65\x72\x65\x6E\x63\x65\x20\x6C\x69\x62\x46\x4C\x41\
            \x43\x20\x31\x2E\x34\x2E\x32\x20\x32\x30\x32\x32\x31\x30\x32\x32\x01\x00\x00\x00\x28\x00\
            \x00\x00\x57\x41\x56\x45\x46\x4F\x52\x4D\x41\x54\x45\x58\x54\x45\x4E\x53\x49\x42\x4C\x45\
            \x5F\x43\x48\x41\x4E\x4E\x45\x4C\x5F\x4D\x41\x53\x4B\x3D\x30\x78\x30\x30\x30\x34\xFF\xF8\
            \x6A\x04\x00\x0F\xF0\x14\x00\x51\xD1\x06\xA0\x8A\xA8\x09\x92\x95\x94\x9E\x68\xB9\x87\xE6\
            \xCD\xA0\xA3\x4C\x34\x0A\x00\xD1\x24\xFF\xF8\x6A\x04\x01\x07\xDD\x14\x9A\x6A\x21\x01\xDD\
            \x8E\x06\x84\x76\x72\x74\x1D\x5C",
        depth: 12,
        blocks: 2,
        comments: 1,
        lists: &[&[
            5, 465, 916, 2047, 1541, 1633, 1577, 1416, 1093, 712, 228, -240, -726, -1136, -1442,
            -1604, -1626, -1503, -1262, -909, -452, 12, 515, 939,
        ]],
    },
    Ordinary {
        name: "six channels of 16 bits",
        bytes: b"\x66\x4C\x61\x43\x00\x00\x00\x22\x00\x10\x00\x10\x00\x00\x27\x00\x00\xCC\x0B\xB8\x0A\xF0\
            \x00\x00\x00\x12\xB2\x0C\x9F\x3A\x6C\x43\x4B\x18\xAB\x22\x19\xC9\x52\x8B\x25\xBF\x03\x00\
            \x00\x24\x00\x00\x00\x00\x00\x00\x00\x00\x00\x00\x00\x00\x00\x00\x00\x00\x00\x10\xFF\xFF\
            \xFF\xFF\xFF\xFF\xFF\xFF\x00\x00\x00\x00\x00\x00\x00\x00\x00\x00\x04\x00\x00\x54\x20\x00\
            \x00\x00\x72\x65\x66\x65\x72\x65\x6E\x63\x65\x20\x6C\x69\x62\x46\x4C\x41\x43\x20\x31\x2E\
            \x34\x2E\x32\x20\x32\x30\x32\x32\x31\x30\x32\x32\x01\x00\x00\x00\x28\x00\x00\x00\x57\x41\
            \x56\x45\x46\x4F\x52\x4D\x41\x54\x45\x58\x54\x45\x4E\x53\x49\x42\x4C\x45\x5F\x43\x48\x41\
            \x4E\x4E\x45\x4C\x5F\x4D\x41\x53\x4B\x3D\x30\x78\x30\x36\x30\x46\x06\x00\x00\x6C\x00\x00\
            \x00\x03\x00\x00\x00\x09\x69\x6D\x61\x67\x65\x2F\x70\x6E\x67\x00\x00\x00\x00\x00\x00\x00\
            \x01\x00\x00\x00\x01\x00\x00\x00\x08\x00\x00\x00\x00\x00\x00\x00\x43\x89\x50\x4E\x47\x0D\
            \x0A\x1A\x0A\x00\x00\x00\x0D\x49\x48\x44\x52\x00\x00\x00\x01\x00\x00\x00\x01\x08\x00\x00\
            \x00\x00\x3A\x7E\x9B\x55\x00\x00\x00\x0A\x49\x44\x41\x54\x78\x9C\x63\x60\x00\x00\x00\x02\
            \x00\x01\x48\xAF\xA4\x71\x00\x00\x00\x00\x49\x45\x4E\x44\xAE\x42\x60\x82\x81\x00\x00\x06\
            \x00\x00\x00\x00\x00\x00\xFF\xF8\x6A\x58\x00\x0F\x2E\x14\xFF\xD7\x1E\xF8\x07\xA5\x58\xAD\
            \x77\x09\xE6\xE9\x9E\x54\x35\xE8\x74\xD9\x32\xEA\xAD\x46\xFC\xD2\xD0\x89\x00\xDF\xFC\xD8\
            \x20\x20\x05\x31\x78\xC2\xD0\x58\x00\x04\x9A\xA4\xE1\x84\xC1\x84\x30\x93\x4A\xE2\x24\x40\
            \xAB\x9F\x24\x7D\xB8\x9C\x9E\xEB\xBB\x4B\x29\x91\x2F\xFD\xB0\x35\x3B\x82\x1C\x40\x6E\x28\
            \x14\xC5\xD1\x95\x1A\x0D\xAD\xBB\xBA\xFD\x16\x9C\x3D\x3C\x3A\x21\xFF\xE1\xF9\xD9\xA9\xE4\
            \x4B\xFF\x34\x1E\xC1\x21\x75\x50\x3E\xBE\x83\x35\x44\x4B\x88\x1B\x32\xF3\xF1\x5F\xD6\x8C\
            \x48\x77\xBC\x8E\xFF\x7B\x1D\xE9\x5C\xFD\x84\x4B\xFD\xA0\x1D\xF4\xCB\x66\x20\x2D\x9A\x05\
            \x10\xB3\x18\x48\x13\x5E\xBE\x21\x8A\xA8\x8B\x81\x2C\x5C\xBB\x92\x9A\xCA\x3D\xBB\x51\x12\
            \xFF\xDE\x07\xAC\x5B\x53\x92\x0D\x80\x60\x9B\xC1\x10\x9A\x0F\x7C\x9C\x9C\xEF\x3A\xE1\x6B\
            \x3B\xAE\x1A\xB6\x7A\x91\xBF\x2B\xC0\x58\x35\x0B\xFF\xF8\x6A\x58\x01\x01\x11\x02\x99\x29\
            \xA1\x47\x02\xB2\x91\xB7\xD0\x03\xE0\x4D\xC4\x54\x05\x94\x71\x9B\xAE\x06\xE8\xED\xAB\x28\
            \x16\xBC\xF6\xD0\xC8\x43\x8B",
        depth: 16,
        blocks: 5,
        comments: 2,
        lists: &[
            &[
                -41, 7928, 14_528, 32_767, 24_482, 26_046, 25_454, 22_697, 17_688, 11_312, 3800,
                -3923, -11_911, -17_848, -22_762, -25_947, -26_327, -24_249,
            ],
            &[
                83, 6028, 11_525, -32_768, 18_858, 19_992, 19_480, 17_161, 13_486, 8772, 2745,
                -3513, -9335, -13_842, -17_484, -19_815, -19_823, -18_480,
            ],
            &[
                -37, 5011, 9333, 32_767, 15_161, 16_286, 15_869, 14_150, 11_147, 7237, 2237, -2823,
                -7191, -11_227, -14_536, -15_877, -16_230, -15_276,
            ],
            &[
                -51, 4117, 7871, -32_768, 13_140, 13_744, 13_635, 12_123, 9308, 5955, 1739, -2137,
                -6225, -9417, -11_814, -13_783, -13_768, -12_841,
            ],
            &[
                -152, 3585, 6450, 32_767, 11_196, 11_988, 11_471, 9955, 7808, 5111, 1522, -1643,
                -5456, -7933, -10_228, -11_677, -11_816, -10_860,
            ],
            &[
                -34, 3129, 5634, -32_768, 9968, 10_499, 10_251, 8998, 7218, 4268, 1392, -1559,
                -4479, -7110, -9052, -10_082, -10_338, -9703,
            ],
        ],
    },
];

/// The samples of a channel.
fn samples_of(alloc: Global, sound: &PcmSound, channel: usize) -> Result<Vec<i32>, Memory> {
    let mut samples = vec![in alloc; 0; sound.frames() as usize]?;
    let mut scratch = Scratch::new(alloc, sound.scratch_size())?;
    if channel < sound.channels() {
        sound.fill(channel, 0, samples.as_mut_slice(), &mut scratch);
    }
    Ok(samples)
}

/// Each file is read, with its MD5, and decoded to its samples.
#[test]
fn files_of_the_ordinary_encoder(rt: HostRuntime) -> Result<(), Fail> {
    let alloc = rt.alloc();
    for row in &FILES {
        let file = read(alloc, row.bytes)?;
        assert_eq!(rt; file.info().depth, row.depth, "{}", row.name);
        assert_eq!(rt; file.blocks().len(), row.blocks, "{}", row.name);
        assert_eq!(rt; file.comments(), Some(row.comments), "{}", row.name);
        let sound = decode(alloc, row.bytes)?;
        assert_eq!(rt; sound.depth(), row.depth, "{}", row.name);
        assert_eq!(rt; sound.channels(), row.lists.len(), "{}", row.name);
        for (channel, wanted) in row.lists.iter().enumerate() {
            let samples = samples_of(alloc, &sound, channel)?;
            assert_eq!(rt;
                samples.as_slice(),
                *wanted,
                "{}, channel {channel}",
                row.name
            );
        }
    }
    Ok(())
}

/// Each row: the place of a byte of the file of 12 bits, the other byte there, and the refusal of
/// both calls.
#[test]
fn both_calls_refuse_alike(rt: HostRuntime) -> Result<(), Fail> {
    let edits = [
        (0, 0x67, FlacRule::NoFlac, 0),
        (25, 0x19, FlacRule::OtherTotal, 21),
        (26, 0x00, FlacRule::OtherMd5, 26),
        (183, 0x00, FlacRule::FrameCheck, 163),
    ];
    for (place, byte, rule, at) in edits {
        let mut bytes = Vec::from_slice(rt.alloc(), FILES[1].bytes)?;
        assert!(rt; place < bytes.len());
        bytes[place] = byte;
        let refusal = Refused::Broken(Broken {
            rule: rule.rule(),
            place: at,
        });
        match read(rt.alloc(), bytes.as_slice()) {
            Ok(_) => assert!(rt; false, "byte {place} is read"),
            Err(refused) => assert_eq!(rt; refused, refusal, "byte {place}, read"),
        }
        match decode(rt.alloc(), bytes.as_slice()) {
            Ok(_) => assert!(rt; false, "byte {place} is decoded"),
            Err(refused) => assert_eq!(rt; refused, refusal, "byte {place}, decoded"),
        }
    }
    Ok(())
}
