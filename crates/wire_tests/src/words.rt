//! Which words give which command. Memory is ample here, so no answer is want of it.
use cli_words::{Command, read_command};
use std::alloc::{AllocError, Global};
use std::test::Fail;

/// The words that spaces part.
fn parted(alloc: Global, line: &str) -> Result<Vec<String>, AllocError> {
    let mut words = Vec::new(alloc);
    for word in line.split(' ') {
        words.push(String::from_str(alloc, word)?)?;
    }
    Ok(words)
}

fn session(workers: u32, requests: u32) -> Option<Command> {
    Some(Command::Session { workers, requests })
}

fn serve(connections: u32, workers: u32, requests: u32) -> Option<Command> {
    Some(Command::Serve {
        connections,
        workers,
        requests,
    })
}

#[test]
fn words_give_commands(rt: HostRuntime) -> Result<(), Fail> {
    let alloc = rt.alloc();
    for (line, want) in [
        ("session", session(4, 1_000_000)),
        ("session --workers 3", session(3, 1_000_000)),
        ("session --workers=64", session(64, 1_000_000)),
        ("session --requests 7 --workers 1", session(1, 7)),
        ("session --workers +3", session(3, 1_000_000)),
        ("session --workers 0003", session(3, 1_000_000)),
        ("session --requests 4294967295", session(4, 4_294_967_295)),
        ("serve --connections 2", serve(2, 4, 1_000_000)),
        (
            "serve --requests 1 --workers=2 --connections=65535",
            serve(65_535, 2, 1),
        ),
    ] {
        let words = parted(alloc, line)?;
        assert_eq!(rt; read_command(alloc, words.as_slice())?, want, "{line}");
    }
    Ok(())
}

// An empty line is one empty word. No value is held to its range.
#[test]
fn other_words_give_none(rt: HostRuntime) -> Result<(), Fail> {
    let alloc = rt.alloc();
    assert_eq!(rt; read_command(alloc, &[])?, None);
    for line in [
        "",
        "--help",
        "help",
        "-h",
        "trial",
        "audit",
        "report",
        "tag",
        "Session",
        "session x",
        "session ",
        "session -",
        "session --",
        "session --help",
        "session --version",
        "session --work 3",
        "session --workers",
        "session --workers=",
        "session --workers 0",
        "session --workers 65",
        "session --workers 3 --workers 3",
        "session --workers -3",
        "session --workers=-3",
        "session --workers=-0",
        "session --workers ++3",
        "session --workers 3x",
        "session --workers 0x3",
        "session --workers --requests 3",
        "session --requests 0",
        "session --requests 4294967296",
        "session --connections 2",
        "session --workers 3 --requests 3 x",
        "serve",
        "serve --connections 0",
        "serve --connections 65536",
        "serve --connections 2 x",
        "--workers 3 session",
        "serve --connections 2 --workers 3 --requests 4 x x",
    ] {
        let words = parted(alloc, line)?;
        assert_eq!(rt; read_command(alloc, words.as_slice())?, None, "{line}");
    }
    Ok(())
}
