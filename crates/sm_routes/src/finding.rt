// Putting routes into order, and finding the first that matches.
ghost use Rattle.std.specs.Prelude.{◌≡◌, ◌&&◌, IfOk, map, true};
ghost use Rattle.std.specs.List.Sorted.{IsPermutation};
ghost use Rattle.std.specs.Str.{bytes_eq};
ghost use Rattle.sm_parts.specs.Targets.{query_pairs};
ghost use Rattle.sm_routes.specs.KeptOrder.{AreOrdered};
ghost use Rattle.sm_routes.specs.RouteView.{route_data};
ghost use Rattle.sm_routes.specs.RoutesView.{routes_view};
ghost use Rattle.sm_routes.specs.Routes.{IsRouted, is_routed, literals_stand};

use crate::matching::left_behind_slash;
use crate::order::kept_order;
use crate::passing::passed;
use crate::query::literals_stand;
use crate::route::Route;
use crate::routes::Routes;
use crate::walk::{Walk, walk_along};
use sm_parts::{path_of, query_of};
use sm_tree::NoMemory;

// Routes in the order in which they are kept.
fn in_order(rows: Vec<Route>) -> Result<Vec<Route>, NoMemory>
    ensures ordered { IfOk result (λ sorted. AreOrdered sorted.items) }
    ensures permuted { IfOk result (λ sorted. IsPermutation (map route_data rows.items) (map route_data sorted.items)) }
{
    let mut rows = rows;
    rows.sort_by(|one, other| kept_order(one, other))?;
    Ok(rows)
}

impl Routes {
    /// The routes of these operations. n log n.
    ///
    /// # Errors
    ///
    /// `NoMemory`.
    pub fn new(rows: Vec<Route>) -> Result<Self, NoMemory>
        ensures { IfOk result (λ routes. IsPermutation (map route_data rows.items) (routes_view routes)) }
    {
        let rows = in_order(rows)?;
        Ok(Routes { rows })
    }

    /// The number of the operation to which a request with this method and target goes, if there is one. Rows whose patterns begin alike
    /// are passed together, by halves; no memory.
    pub fn find(&self, method: &str, target: &str) -> Option<u32>
        ensures { IsRouted (routes_view self.now) method.now target.now result }
    {
        if !is_routed(method) {
            return None;
        }
        first_match(self.rows.as_slice(), method, target.as_bytes())
    }
}

/// Whether a method is one of those that are found. No memory.
pub fn is_routed(method: &str) -> bool
    ensures { result ≡ is_routed method.now }
{
    method == "GET"
        || method == "PUT"
        || method == "POST"
        || method == "PATCH"
        || method == "DELETE"
}

// The number of the first route that matches.
fn first_match(rows: &[Route], method: &str, target: &[u8]) -> Option<u32>
    requires ordered { AreOrdered rows.now }
    requires routed { is_routed method.now ≡ true }
    ensures { IsRouted (map route_data rows.now) method.now target.now result }
{
    let left = match left_behind_slash(path_of(target)) {
        Some(left) => left,
        None => return None,
    };
    let query = query_of(target);
    let mut at = 0;
    'rows: loop {
        if at >= rows.len() {
            return None;
        }
        let row = &rows[at];
        let segments = row.uri.segments.as_slice();
        match walk_along(segments, left) {
            Walk::Ends(matches) => {
                if is_wanted(row, method, query, matches) {
                    return Some(row.operation);
                }
            }
            Walk::Stops(stop) => at = passed(rows, segments, &stop, at),
        }
        at += 1;
    }
}

// Whether a route is for a method and for a target of this query, where its path matches.
fn is_wanted(row: &Route, method: &str, query: &[u8], path_matches: bool) -> bool
    ensures { result ≡ (path_matches && (bytes_eq row.now.method method.now && literals_stand row.now.uri.literals.items (query_pairs query.now))) }
{
    path_matches
        && row.method.as_str() == method
        && literals_stand(row.uri.literals.as_slice(), query)
}
