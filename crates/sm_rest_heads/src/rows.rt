// The routes of a service.
ghost use Rattle.std.specs.Prelude.{◌≡◌, ◌<◌, ◌^◌, ◌++◌, IfOk, OnOk, length, map};
ghost use Rattle.std.specs.List.Sorted.{IsPermutation};
ghost use Rattle.sm_routes.specs.RouteView.{route_data};
ghost use Rattle.sm_routes.specs.RoutesView.{routes_view};
ghost use Rattle.sm_bind.specs.service.Servable.{Servable};
ghost use Rattle.sm_bind.specs.service.ServiceView.{http_data, operation_data, service_data};
ghost use Rattle.sm_rest_heads.specs.RestRoutes.{route_of, routes_at, routes_from, routes_of};

use crate::copies::copy_uri;
use sm_bind::sm_service::{HttpRule, Operation, Service};
use sm_routes::{Route, Routes};
use sm_tree::{NoMemory, Text};
use std::alloc::Global;

// The route of an operation with this number and name.
fn route_of(alloc: Global, number: u32, name: &str, rule: &HttpRule) -> Result<Route, NoMemory>
    ensures { IfOk result (λ route. route_data route ≡ route_of number name.now (http_data rule.now)) }
{
    let method = Text::copy(alloc, rule.method.as_str())?;
    let uri = copy_uri(alloc, &rule.uri)?;
    let name = Text::copy(alloc, name)?;
    Ok(Route {
        method,
        uri,
        name,
        operation: number,
    })
}

// Puts the route of an operation, if it has one.
fn put_route(
    alloc: Global,
    rows: &mut Vec<Route>,
    number: u32,
    operation: &Operation,
) -> Result<(), NoMemory>
    ensures { OnOk result (map route_data rows.new.items ≡ map route_data rows.old.items
        ++ routes_at number (operation_data operation.now) (operation_data operation.now).http) }
{
    match &operation.http {
        None => Ok(()),
        Some(rule) => {
            let route = route_of(alloc, number, operation.name.as_str(), rule)?;
            rows.push(route)?;
            Ok(())
        }
    }
}

// The routes of operations by their places.
fn rows_of(alloc: Global, operations: &[Operation]) -> Result<Vec<Route>, NoMemory>
    requires { length operations.now < 2 ^ 32 }
    ensures { IfOk result (λ rows. map route_data rows.items ≡ routes_from 0 (map operation_data operations.now)) }
{
    let mut rows = Vec::new(alloc);
    for place in 0..operations.len() {
        put_route(alloc, &mut rows, place as u32, &operations[place])?;
    }
    Ok(rows)
}

/// The routes of the operations of a service that have a method and a pattern, served or not. n log n.
///
/// # Errors
///
/// `NoMemory`.
pub fn routes_of(alloc: Global, service: &Service) -> Result<Routes, NoMemory>
    requires { Servable (service_data service.now) }
    ensures { IfOk result (λ routes. IsPermutation (routes_of (service_data service.now)) (routes_view routes)) }
{
    let rows = rows_of(alloc, service.operations.as_slice())?;
    Routes::new(rows)
}
