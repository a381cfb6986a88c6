ghost use Rattle.std.specs.Prelude.{◌≡◌, IfOk, MatchOption, None, Some, option_map};
ghost use Rattle.matchit.specs.Seek.{first};
ghost use Rattle.rd_operator.specs.Routes.{the_routes, route_at};

use matchit::{InsertError, Router};
use rd_base::NoMemory;
use std::alloc::Global;

/// A page, by its path.
#[derive(Clone, Copy, Debug, PartialEq, Eq)]
pub(crate) enum Route {
    Live,
    Totals,
    /// The first notes.
    Sessions,
    /// The notes from an id on.
    From,
    /// The note of an id.
    One,
}

/// The route of a path.
pub(crate) fn route_of(alloc: Global, path: &str) -> Result<Option<Route>, NoMemory>
    ensures { IfOk result (λ route. route ≡ route_at path.now) }
{
    match router(alloc) {
        Ok(routes) => Ok(match_path(&routes, path)),
        Err(_) => Err(NoMemory),
    }
}

fn match_path(routes: &Router<Route>, path: &str) -> Option<Route>
    ensures { result ≡ option_map (λ r. r.value) (first routes.now path.now) }
{
    match routes.at(path) {
        Ok(found) => Some(*found.value),
        Err(_) => None,
    }
}

/// The routes. They don't conflict, so that an insert fails for want of memory alone.
fn router(alloc: Global) -> Result<Router<Route>, InsertError>
    ensures { IfOk result (λ r. r ≡ the_routes) }
{
    let mut routes = Router::new(alloc);
    routes.insert("/live", Route::Live)?;
    routes.insert("/totals", Route::Totals)?;
    routes.insert("/sessions", Route::Sessions)?;
    routes.insert("/sessions/from/{id}", Route::From)?;
    routes.insert("/sessions/{id}", Route::One)?;
    Ok(routes)
}
