//! The places of a configuration, to be tried in turn.
ghost use Rattle.std.specs.Prelude.{◌≡◌, IfOk};
ghost use Rattle.pgw_config_environment.specs.Places.{place_count as count_for, first_places, one_at as at_most_one, config_at_place as place_for, places_of as places_for, port_at as port_for};

use pgw_config::config::Config;
use pgw_types::listed::{Duplicate, Listed};
use pgw_types::memory::OutOfMemory;
use std::alloc::Global;

// The item at a place as a list, or none.
fn one_at<T: Duplicate + Drop>(
    alloc: Global,
    items: &[T],
    at: usize,
) -> Result<Listed<T>, OutOfMemory>
    ensures { IfOk result (λ list. list ≡ at_most_one items.now at) }
{
    let mut list = Listed::new(alloc);
    if let Some(item) = items.get(at) {
        list.push(item.duplicate()?)?;
    }
    Ok(list)
}

// The port of the place with this number: a single port is that of all places.
fn port_at(alloc: Global, ports: &[u16], at: usize) -> Result<Listed<u16>, OutOfMemory>
    ensures { IfOk result (λ list. list ≡ port_for ports.now at) }
{
    match ports {
        [port] => {
            let mut list = Listed::new(alloc);
            list.push(*port)?;
            Ok(list)
        }
        _ => {
            let mut list = Listed::new(alloc);
            if let Some(port) = ports.get(at) {
                list.push(*port)?;
            }
            Ok(list)
        }
    }
}

// The configuration of the place with this number.
#[tactic(auto, unfolding(crate::specs::Places::config_at_place))]
fn place_at(alloc: Global, config: &Config, at: usize) -> Result<Config, OutOfMemory>
    ensures { IfOk result (λ place. place ≡ place_for config.now at) }
{
    let mut place = config.duplicate()?;
    place.host = one_at(alloc, config.get_hosts(), at)?;
    place.hostaddr = one_at(alloc, config.get_hostaddrs(), at)?;
    place.port = port_at(alloc, config.get_ports(), at)?;
    Ok(place)
}

// How many places a configuration names: as many as hosts or addresses, which where both are given are as many, with
// no port, a port for all, or a port for each.
fn count_of(config: &Config) -> Option<usize>
    ensures { result ≡ count_for config.now }
{
    let hosts = config.get_hosts().len();
    let addresses = config.get_hostaddrs().len();
    let ports = config.get_ports().len();
    let count = hosts.max(addresses);
    let named = hosts == count || hosts == 0;
    let addressed = addresses == count || addresses == 0;
    if named && addressed && (ports <= 1 || ports == count) {
        Some(count)
    } else {
        None
    }
}

// So many places, in order.
#[tactic(auto, using(crate::proofs::PlaceLaws::none_first, crate::proofs::PlaceLaws::one_more))]
fn first_places(alloc: Global, config: &Config, count: usize) -> Result<Listed<Config>, OutOfMemory>
    ensures { IfOk result (λ places. places ≡ first_places config.now count) }
{
    let mut places = Listed::new(alloc);
    for at in 0..count {
        places.push(place_at(alloc, config, at)?)?;
    }
    Ok(places)
}

/// The configuration of each place that a configuration names, in order; none where its hosts, addresses and ports are
/// not as many (libpq refuses these too).
pub fn places_of(alloc: Global, config: &Config) -> Result<Option<Listed<Config>>, OutOfMemory>
    ensures { IfOk result (λ places. places ≡ places_for config.now) }
{
    match count_of(config) {
        Some(count) => Ok(Some(first_places(alloc, config, count)?)),
        None => Ok(None),
    }
}
