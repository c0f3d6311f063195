//! The paths that are built, and the search for a target's.
ghost use Rattle.std.specs.Prelude.{◌≡◌, IfOk, option_map};
ghost use Rattle.std.specs.Str.{bytes_eq};
ghost use Rattle.http_routes.specs.Routes.{allowed, has_method, methods_of, route_found, routes, with_path, Rows};

use lib_base::Memory;
use matchit::Router;
use std::alloc::Global;
use std::marker::Model;

/// What a path is the path of.
#[derive(Clone, Copy, Debug, PartialEq, Eq)]
pub enum Route {
    /// `/albums`
    Albums,
    /// `/recordings`
    Recordings,
    /// `/albums/{a}/recordings`
    AlbumRecordings,
    /// `/recordings/{r}/audio`
    Audio,
    /// `/recordings/{r}/album`
    RecordingAlbum,
    /// `/recordings/{r}`
    Recording,
    /// `/albums/{a}`
    Album,
}

impl Route {
    /// Whether it has that method.
    pub fn has_method(self, method: &[u8]) -> bool
        ensures { result ≡ has_method method.now self }
    {
        match self {
            Route::Albums | Route::Recordings | Route::AlbumRecordings => is_same(method, b"POST"),
            Route::Audio | Route::RecordingAlbum => is_same(method, b"PUT"),
            Route::Recording | Route::Album => {
                is_same(method, b"GET") || is_same(method, b"DELETE")
            }
        }
    }

    /// Its methods, as a line `Allow` names them (RFC 9110 section 10.2.1).
    pub fn allowed(self) -> &'static str
        ensures { result.now ≡ allowed (methods_of self) }
    {
        match self {
            Route::Albums | Route::Recordings | Route::AlbumRecordings => "POST",
            Route::Audio | Route::RecordingAlbum => "PUT",
            Route::Recording | Route::Album => "GET, DELETE",
        }
    }
}

/// The paths that are built, in a router.
#[derive(Drop)]
pub struct Paths {
    router: Router<Route>,
}

impl Model for Paths {
    ghost use Rattle.std.specs.Prelude.{◌≡◌};
    ghost use Rattle.http_routes.specs.Routes.{Rows, routes};

    ghost Value = { Rows };

    ghost view = { λ r. r.router };

    ghost invariant = { λ r. r.router ≡ routes };
}

impl Paths {
    /// Puts each path in once, in the order of the table of requests.
    pub fn new(alloc: Global) -> Result<Paths, Memory>
        ensures { IfOk result (λ paths. paths ≡ routes) }
    {
        let router = Router::new(alloc);
        let router = with_route(router, "/albums", Route::Albums)?;
        let router = with_route(router, "/recordings", Route::Recordings)?;
        let router = with_route(router, "/albums/{a}/recordings", Route::AlbumRecordings)?;
        let router = with_route(router, "/recordings/{r}/audio", Route::Audio)?;
        let router = with_route(router, "/recordings/{r}/album", Route::RecordingAlbum)?;
        let router = with_route(router, "/recordings/{r}", Route::Recording)?;
        let router = with_route(router, "/albums/{a}", Route::Album)?;
        Ok(Paths { router })
    }

    /// The route that a target finds.
    pub fn find(&self, target: &str) -> Option<Route>
        ensures { result ≡ route_found target.now }
    {
        match self.router.at(target) {
            Ok(found) => Some(*found.value),
            Err(_) => None,
        }
    }
}

fn is_same(method: &[u8], word: &[u8]) -> bool
    ensures { result ≡ bytes_eq method.now word.now }
{
    method == word
}

/// The router with one path more. Each path here reads and conflicts with none that is there, so
/// only memory can be wanting.
fn with_route(mut router: Router<Route>, path: &str, route: Route) -> Result<Router<Route>, Memory>
    ensures { IfOk result (λ made. made ≡ with_path route path.now router) }
{
    match router.insert(path, route) {
        Ok(()) => Ok(router),
        Err(_) => Err(Memory),
    }
}
