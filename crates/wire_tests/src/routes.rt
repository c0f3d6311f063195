//! Targets, the routes that they find, and their methods. Memory is ample here.
use http_routes::{Paths, Resource, Route};
use std::test::Fail;

#[test]
fn targets_find_routes(rt: HostRuntime) -> Result<(), Fail> {
    let paths = Paths::new(rt.alloc())?;
    for (target, want) in [
        ("/albums", Some(Route::Albums)),
        ("/recordings", Some(Route::Recordings)),
        ("/albums/01/recordings", Some(Route::AlbumRecordings)),
        ("/recordings/1/audio", Some(Route::Audio)),
        ("/recordings/1/album", Some(Route::RecordingAlbum)),
        ("/recordings/2147483647", Some(Route::Recording)),
        ("/recordings/-1", Some(Route::Recording)),
        ("/recordings/F\u{fc}r", Some(Route::Recording)),
        ("/albums/1", Some(Route::Album)),
        ("/", None),
        ("", None),
        ("*", None),
        ("/albums/", None),
        ("/recordings/", None),
        ("/recordings/1/", None),
        ("/recordings/1/audio/", None),
        ("/recordings/1/file", None),
        ("/albums/1/album", None),
        ("/groups", None),
        ("/report.csv", None),
        ("/recordings?x=1", None),
        ("//recordings", None),
        ("/Recordings", None),
        ("/recordings/1/2/audio", None),
    ] {
        assert_eq!(rt; paths.find(target), want, "{target}");
    }
    Ok(())
}

#[test]
fn routes_have_methods(rt: HostRuntime) -> Result<(), Fail> {
    for (route, allowed) in [
        (Route::Albums, "POST"),
        (Route::Recordings, "POST"),
        (Route::AlbumRecordings, "POST"),
        (Route::Audio, "PUT"),
        (Route::RecordingAlbum, "PUT"),
        (Route::Recording, "GET, DELETE"),
        (Route::Album, "GET, DELETE"),
    ] {
        assert_eq!(rt; route.allowed(), allowed, "{route:?}");
        for method in ["GET", "POST", "PUT", "DELETE", "PATCH", "HEAD", "get", ""] {
            let has = !method.is_empty() && allowed.contains(method);
            assert_eq!(rt;
                route.has_method(method.as_bytes()),
                has,
                "{route:?} {method}"
            );
        }
    }
    Ok(())
}

#[test]
fn targets_name_resources(rt: HostRuntime) -> Result<(), Fail> {
    let paths = Paths::new(rt.alloc())?;
    for (target, want) in [
        (b"/albums".as_slice(), Some(Resource::Albums)),
        (b"/recordings", Some(Resource::Recordings)),
        (b"/albums/1/recordings", Some(Resource::AlbumRecordings(1))),
        (b"/recordings/10/audio", Some(Resource::Audio(10))),
        (
            b"/recordings/2147483646/album",
            Some(Resource::RecordingAlbum(2_147_483_646)),
        ),
        (b"/recordings/2147483647", Some(Resource::Recording(0))),
        (b"/recordings/4294967297", Some(Resource::Recording(0))),
        (b"/recordings/01", Some(Resource::Recording(0))),
        (b"/recordings/1\xc3\xbc", Some(Resource::Recording(0))),
        (b"/albums/+1", Some(Resource::Album(0))),
        (b"/albums/0", Some(Resource::Album(0))),
        (b"/albums/7", Some(Resource::Album(7))),
        (b"/albums/\xff", None),
        (b"/albums/7/", None),
        (b"", None),
    ] {
        assert_eq!(rt; paths.resource(target), want, "{target:?}");
    }
    Ok(())
}
