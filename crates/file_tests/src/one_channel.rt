//! One channel of a frame.
ghost use Rattle.std.specs.Prelude.{◌<◌};

use flac_frames::{Info, channel, read_one_channel};
use lib_base::{Memory, Scratch};
use std::alloc::Global;

/// The samples of one channel of a frame of three samples, of two channels of 4 bits.
fn shown(alloc: Global, bytes: &[u8], index: usize) -> Result<Option<Vec<i32>>, Memory>
    requires { index < 2 }
{
    let info = Info {
        rate: 48_000,
        channels: 2,
        depth: 4,
        total: 0,
        md5: [0; 16],
    };
    let mut scratch = Scratch::new(alloc, 131_072)?;
    if read_one_channel(bytes, 0, &info, index, &mut scratch) != Some(3) {
        return Ok(None);
    }
    let samples = Vec::from_slice(alloc, channel(&scratch, 3, index))?;
    Ok(Some(samples))
}

/// Each row: a frame whose left channel is 3, -8, 7 and whose right one is -8, 7, 7. In turn these
/// are coded as left and right, left and side, side and right, mid and side.
#[test]
fn one_channel_of_two(rt: HostRuntime) -> Result<(), Memory> {
    let alloc = rt.alloc();
    let frames = [
        b"\xFF\xF8\x6A\x10\x00\x02\xDA\x02\x38\x70\x28\x77\xC8\x06".as_slice(),
        b"\xFF\xF8\x6A\x80\x00\x02\x73\x02\x38\x70\x25\xC4\x00\x86\x39".as_slice(),
        b"\xFF\xF8\x6A\x90\x00\x02\xD1\x02\x5C\x40\x05\x0E\xE0\x43\x6B".as_slice(),
        b"\xFF\xF8\x6A\xA0\x00\x02\x30\x02\xDF\x70\x25\xC4\x00\xEF\xC9".as_slice(),
    ];
    for bytes in frames {
        let left = Vec::from_slice(alloc, [3, -8, 7].as_slice())?;
        let right = Vec::from_slice(alloc, [-8, 7, 7].as_slice())?;
        assert_eq!(rt; shown(alloc, bytes, 0)?, Some(left));
        assert_eq!(rt; shown(alloc, bytes, 1)?, Some(right));
    }
    Ok(())
}
