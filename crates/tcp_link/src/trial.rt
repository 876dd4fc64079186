//! An address that is tried before anybody listens at it.
use crate::stream::{bind_path, is_path};
use std::fs::Files;
use std::io::ErrorKind;
use std::net::{Net, ToSocketAddrs};
use std::{fs, io};

/// What the trial of an address found.
#[derive(Clone, Copy, Debug)]
pub enum Trial {
    /// One could listen there.
    Free,
    /// One couldn't listen there: what the last place of it was refused for.
    Taken(io::Error),
    /// The text is no address, or its name has no place.
    Nowhere(io::Error),
}

/// Tries whether one could listen at an address, as the doors of that address would, and stops listening.
pub fn try_address<N: Net + Files>(net: &N, address: &str) -> Trial {
    if is_path(address) {
        return try_path(net, address);
    }
    let places = match address.to_socket_addrs(net) {
        Ok(places) => places,
        Err(error) => return Trial::Nowhere(error),
    };
    let mut found = Trial::Nowhere(ErrorKind::AddrNotAvailable.into());
    for place in places {
        match net.bind(place) {
            Ok(_listener) => return Trial::Free,
            Err(error) => found = Trial::Taken(error),
        }
    }
    found
}

// The same of a path.
fn try_path<N: Net + Files>(net: &N, path: &str) -> Trial {
    match bind_path(net, path) {
        Ok(_listener) => {
            let _ = fs::remove_file(net, path);
            Trial::Free
        }
        Err(error) => Trial::Taken(error),
    }
}
