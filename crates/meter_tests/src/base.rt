//! What no clause says: texts, worked values, and that the calls can succeed.
ghost use Rattle.std.specs.Prelude.{◌≡◌, false, length};

use lib_base::{
    Bytes, Door, Failed, Kind, MemDoor, MemSink, MemSource, Memory, Outside, PcmSound, ReadEnd,
    Rule, Scratch, Sink, Sound, Source, kind_of, read_up_to, write_all,
};
use std::alloc::Global;
use std::test::Fail;

#[test]
fn names_kinds(rt: HostRuntime) {
    for (bytes, want) in [
        (b"RIFF".as_slice(), Some(Kind::Wave)),
        (b"fLaC\0".as_slice(), Some(Kind::Flac)),
        (b"fLa".as_slice(), None),
        (b"riff".as_slice(), None),
    ] {
        assert_eq!(rt; kind_of(bytes), want, "at {bytes:?}");
    }
}

#[test]
fn prints_rules(rt: HostRuntime) -> Result<(), Fail> {
    let alloc = rt.alloc();
    for (rule, want) in [(Rule::F(28), "F28"), (Rule::K(0), "K0"), (Rule::T(1), "T1")] {
        let text = format!(in alloc; "{rule}")?;
        assert_eq!(rt; text.as_str(), want);
    }
    Ok(())
}

#[test]
fn makes_scratch(rt: HostRuntime) -> Result<(), Fail> {
    for size in [0usize, 3] {
        let scratch = Scratch::new(rt.alloc(), size)?;
        assert_eq!(rt; scratch.size(), size);
        assert!(rt; scratch.cells.as_slice().iter().all(|cell| *cell == 0));
    }
    Ok(())
}

/// A call that writes over the room, as the `fill` of a compressed sound does.
fn overwrite(scratch: &mut Scratch, value: i32)
    ensures { length scratch.new.cells ≡ length scratch.old.cells }
{
    for cell in scratch.cells.as_mut_slice() {
        *cell = value;
    }
}

#[test]
fn lends_cells(rt: HostRuntime) -> Result<(), Fail> {
    let mut scratch = Scratch::new(rt.alloc(), 2)?;
    overwrite(&mut scratch, -5);
    assert_eq!(rt; scratch.size(), 2);
    assert_eq!(rt; scratch.cells.as_slice(), [-5, -5].as_slice());
    Ok(())
}

/// The last sample of the last channel, if there is one.
fn last_sample<S: Sound>(alloc: Global, sound: &S) -> Result<Option<i32>, Memory> {
    let frames = sound.frames();
    if frames == 0 {
        return Ok(None);
    }
    let mut scratch = Scratch::new(alloc, sound.scratch_size())?;
    let mut out = [0; 1];
    sound.fill(sound.channels() - 1, frames - 1, &mut out, &mut scratch);
    Ok(Some(out[0]))
}

#[test]
fn fills_parts(rt: HostRuntime) -> Result<(), Fail> {
    let alloc = rt.alloc();
    let left = vec![in alloc; -8, 7, 3, 0]?;
    let right = vec![in alloc; 1, 2, 3, 4]?;
    let sound = PcmSound::new(4, vec![in alloc; left, right]?);
    assert_eq!(rt;
        (sound.channels(), sound.depth(), sound.frames()),
        (2, 4, 4)
    );
    let mut scratch = Scratch::new(alloc, sound.scratch_size())?;
    let mut out = [0; 2];
    sound.fill(0, 0, &mut out, &mut scratch);
    assert_eq!(rt; out, [-8, 7]);
    sound.fill(1, 2, &mut out, &mut scratch);
    assert_eq!(rt; out, [3, 4]);
    assert_eq!(rt; last_sample(alloc, &sound)?, Some(4));
    Ok(())
}

#[test]
fn fails_reads_by_number(rt: HostRuntime) -> Result<(), Fail> {
    let alloc = rt.alloc();
    let mut source = MemSource::new(Bytes::copy(alloc, b"abc")?, vec![in alloc; 2]?);
    let mut piece = [0; 2];
    assert_eq!(rt; source.read(&mut piece), Ok(2));
    assert_eq!(rt; piece, *b"ab");
    assert_eq!(rt; source.read(&mut piece), Err(Failed));
    assert_eq!(rt; source.read(&mut piece), Ok(1));
    assert_eq!(rt; source.read(&mut piece), Ok(0));
    Ok(())
}

#[test]
fn fails_writes_by_number(rt: HostRuntime) -> Result<(), Fail> {
    let alloc = rt.alloc();
    let mut sink = MemSink::new(alloc, vec![in alloc; 2]?);
    assert_eq!(rt; write_all(&mut sink, b"ab"), Ok(()));
    assert_eq!(rt; sink.write(b"no"), Err(Outside::Failed));
    assert_eq!(rt; sink.write(b"c"), Ok(1));
    assert_eq!(rt; sink.written(), b"abc".as_slice());
    Ok(())
}

/// Reads all that the next connection brings, and answers with it.
fn echo<D: Door>(alloc: Global, door: &mut D) -> Result<(), Outside>
    requires { (D.shown door.old).is_out ≡ false }
    ensures { (D.shown door.new).is_out ≡ false }
{
    let (mut source, mut sink) = door.next()?;
    let answer = match read_up_to(alloc, &mut source, 9) {
        Ok(taken) => write_all(&mut sink, taken.bytes.as_slice()),
        Err(_) => Err(Outside::Memory),
    };
    door.back(source, sink);
    answer
}

#[test]
fn serves_two_connections(rt: HostRuntime) -> Result<(), Fail> {
    let alloc = rt.alloc();
    let inputs = vec![in alloc; Bytes::copy(alloc, b"one")?, Bytes::copy(alloc, b"two")?]?;
    let mut door = MemDoor::new(alloc, inputs, vec![in alloc; 2]?)?;
    for want in [Ok(()), Err(Outside::Failed), Ok(()), Err(Outside::Failed)] {
        assert_eq!(rt; echo(alloc, &mut door), want);
    }
    let [first, second] = door.written() else {
        return Err("two connections were served".into());
    };
    assert_eq!(rt; first.as_slice(), b"one".as_slice());
    assert_eq!(rt; second.as_slice(), b"two".as_slice());
    Ok(())
}

#[test]
fn reads_up_to(rt: HostRuntime) -> Result<(), Fail> {
    let alloc = rt.alloc();
    for (most, want, end) in [
        (3usize, b"abc".as_slice(), ReadEnd::Full),
        (5, b"abcde".as_slice(), ReadEnd::Full),
        (9, b"abcde".as_slice(), ReadEnd::End),
    ] {
        let mut source = MemSource::new(Bytes::copy(alloc, b"abcde")?, Vec::new(alloc));
        let taken = read_up_to(alloc, &mut source, most)?;
        assert_eq!(rt; taken.bytes.as_slice(), want, "at {most}");
        assert_eq!(rt; taken.end, end, "at {most}");
    }
    Ok(())
}

#[test]
fn reads_up_to_a_fault(rt: HostRuntime) -> Result<(), Fail> {
    let alloc = rt.alloc();
    let bytes = Bytes::of(vec![in alloc; 7; 5000]?);
    let mut source = MemSource::new(bytes, vec![in alloc; 2]?);
    let taken = read_up_to(alloc, &mut source, 5000)?;
    assert_eq!(rt; (taken.bytes.len(), taken.end), (4096, ReadEnd::Fault));
    let rest = read_up_to(alloc, &mut source, 5000)?;
    assert_eq!(rt; (rest.bytes.len(), rest.end), (904, ReadEnd::End));
    Ok(())
}
