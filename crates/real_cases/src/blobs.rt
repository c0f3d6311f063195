//! A folder as a vault.
use crate::failing_files::{Calls, FailingFiles};
use crate::text;
use keeper_real::FolderVault;
use keeper_store::Vault;
use std::alloc::Global;
use std::rt::Files;
use std::{fs, io, str};

/// A call of a vault.
enum Call<'a> {
    Put(u32, &'a str),
    Get(u32),
    Drop(u32),
}

/// A blob put, put again, read, dropped, read and dropped.
const LIFE: [Call<'static>; 10] = [
    Call::Get(7),
    Call::Put(7, "first"),
    Call::Get(7),
    Call::Put(7, ""),
    Call::Get(7),
    Call::Put(7, "second"),
    Call::Get(7),
    Call::Drop(7),
    Call::Get(7),
    Call::Drop(7),
];

/// Calls of a key whose file is a folder, and of one beside it.
const OBSTACLE: [Call<'static>; 4] = [
    Call::Get(8),
    Call::Put(8, "third"),
    Call::Drop(8),
    Call::Put(9, "fourth"),
];

/// Calls where a file stands in the folder's place.
const NO_FOLDER: [Call<'static>; 2] = [Call::Put(7, "fifth"), Call::Get(7)];

/// One more than a first put makes calls of files.
const MOST_CALLS: u32 = 10;

pub fn run(rt: &HostRuntime) -> io::Result<()> {
    let folder = "vault";
    let _ = fs::remove_dir_all(rt, folder);
    println!(rt; "the life of a blob")?;
    tell_calls(rt, folder, &LIFE)?;
    println!(rt; "a folder in the place of a blob")?;
    fs::create_dir(rt, "vault/8.bin")?;
    tell_calls(rt, folder, &OBSTACLE)?;
    fs::remove_dir_all(rt, folder)?;
    println!(rt; "a file in the place of the folder")?;
    fs::write(rt, folder, "")?;
    tell_calls(rt, folder, &NO_FOLDER)?;
    fs::remove_file(rt, folder)?;
    println!(rt; "a put of which one call of files fails")?;
    for failing in 1..=MOST_CALLS {
        tell_failing(rt, failing)?;
    }
    Ok(())
}

/// What a new vault in the folder answers to each call, and its faults.
fn tell_calls(rt: &HostRuntime, folder: &str, calls: &[Call<'_>]) -> io::Result<()> {
    let alloc = rt.alloc();
    let mut vault = FolderVault::at(rt, alloc, text(alloc, folder)?);
    for call in calls {
        tell_call(rt, &mut vault, call)?;
    }
    println!(rt; "faults {}", vault.faults())
}

fn tell_call<V: Vault>(rt: &HostRuntime, vault: &mut V, call: &Call<'_>) -> io::Result<()> {
    match call {
        Call::Put(key, bytes) => {
            println!(rt;
                "put {key} {bytes:?}: {:?}",
                vault.put(*key, bytes.as_bytes())
            )
        }
        Call::Get(key) => tell_get(rt, vault, *key),
        Call::Drop(key) => println!(rt; "drop {key}: {:?}", vault.drop_blob(*key)),
    }
}

fn tell_get<V: Vault>(rt: &HostRuntime, vault: &mut V, key: u32) -> io::Result<()> {
    match vault.get(key) {
        Ok(Some(bytes)) => {
            println!(rt;
                "get {key}: {:?}",
                str::from_utf8(bytes.as_slice()).unwrap_or("no text")
            )
        }
        Ok(None) => println!(rt; "get {key}: nothing"),
        Err(why) => println!(rt; "get {key}: {why:?}"),
    }
}

/// A first put, of which the call of files with this number fails. Tells whether the part is left,
/// and what the key holds.
fn tell_failing(rt: &HostRuntime, failing: u32) -> io::Result<()> {
    let alloc = rt.alloc();
    let _ = fs::remove_dir_all(rt, "failing");
    let calls = Calls::new(failing);
    let put = put_failing(rt, &calls)?;
    println!(rt; "{failing} {}: {put}", calls.failed())?;
    println!(rt;
        "lines {}, part {}",
        calls.lines(),
        fs::metadata(rt, "failing/7.part").is_ok()
    )?;
    let mut vault = FolderVault::at(rt, alloc, text(alloc, "failing")?);
    tell_get(rt, &mut vault, 7)?;
    let _ = fs::remove_dir_all(rt, "failing");
    Ok(())
}

/// A put into a new folder of files of which a call fails.
fn put_failing<'r>(rt: &'r HostRuntime, calls: &'r Calls) -> io::Result<String> {
    put_blob(&FailingFiles::new(rt, calls), rt.alloc())
}

/// What a new vault answers to a put, and its faults.
fn put_blob<R: Files + Eprint>(files: &R, alloc: Global) -> io::Result<String> {
    let mut vault = FolderVault::at(files, alloc, text(alloc, "failing")?);
    let put = vault.put(7, b"blob");
    let faults = vault.faults();
    Ok(format!(in alloc; "{put:?}, faults {faults}")?)
}
