//! What targets name.
ghost use Rattle.std.specs.Prelude.{◌≡◌, option_map};
ghost use Rattle.http_routes.specs.Ids.{id_asked, id_text};
ghost use Rattle.http_routes.specs.Resources.{resource_at, resource_found, route_of};
ghost use Rattle.http_routes.specs.Routes.{route_found};

use crate::ids::id_in;
use crate::routes::{Paths, Route};

/// What a target names. An id is 1 to 2,147,483,646, or 0, which nothing has: that of any text in
/// its place that is not such a number in decimal digits with no zero in front.
#[derive(Clone, Copy, Debug, PartialEq, Eq)]
pub enum Resource {
    /// All albums.
    Albums,
    /// The recordings that are in no album.
    Recordings,
    /// The recordings in the album of that id.
    AlbumRecordings(u32),
    /// The file of the recording of that id.
    Audio(u32),
    /// The album in which the recording of that id is.
    RecordingAlbum(u32),
    /// The recording of that id.
    Recording(u32),
    /// The album of that id.
    Album(u32),
}

impl Resource {
    /// The route on which it is found.
    pub fn route(self) -> Route
        ensures { result ≡ route_of self }
    {
        match self {
            Resource::Albums => Route::Albums,
            Resource::Recordings => Route::Recordings,
            Resource::AlbumRecordings(_) => Route::AlbumRecordings,
            Resource::Audio(_) => Route::Audio,
            Resource::RecordingAlbum(_) => Route::RecordingAlbum,
            Resource::Recording(_) => Route::Recording,
            Resource::Album(_) => Route::Album,
        }
    }
}

impl Paths {
    /// What a target names, or nothing where it finds no route or is no UTF-8 (RFC 3629).
    pub fn resource(&self, target: &[u8]) -> Option<Resource>
        ensures { result ≡ resource_found target.now }
    {
        match str::from_utf8(target) {
            Ok(target) => self.resource_in(target),
            Err(_) => None,
        }
    }

    fn resource_in(&self, target: &str) -> Option<Resource>
        ensures { result ≡ option_map (resource_at (id_asked (id_text target.now))) (route_found target.now) }
    {
        let route = self.find(target)?;
        Some(resource_at(id_in(target), route))
    }
}

fn resource_at(id: u32, route: Route) -> Resource
    ensures { result ≡ resource_at id route }
{
    match route {
        Route::Albums => Resource::Albums,
        Route::Recordings => Resource::Recordings,
        Route::AlbumRecordings => Resource::AlbumRecordings(id),
        Route::Audio => Resource::Audio(id),
        Route::RecordingAlbum => Resource::RecordingAlbum(id),
        Route::Recording => Resource::Recording(id),
        Route::Album => Resource::Album(id),
    }
}
