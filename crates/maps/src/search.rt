// Binary search among cells that are in the order of their outpoints.
ghost use Rattle.std.specs.Prelude.{◌≡◌, ◌≤◌, length};
ghost use Rattle.std.specs.List.{slice_get};
ghost use Rattle.std.specs.Option.{option_map};
ghost use Rattle.maps.specs.Maps.{Sorted, next_of};
ghost use Rattle.maps.specs.Keyed.{outpoints};
ghost use Rattle.maps.specs.Search.{Found};

use coins::outpoint::Outpoint;
use std::cmp::Ordering;

// The place of k among the cells, as `Ok` where it has one. It stops where it meets k; the library's search, which goes on to a single
// cell, was tried: half as long again among 512 cells.
pub fn find<T>(cells: &[(Outpoint, T)], k: &Outpoint) -> Result<usize, usize>
    requires { Sorted outpoints cells.now }
    ensures { Found outpoints k.now cells.now result }
{
    let mut low = 0;
    let mut high = cells.len();
    while low < high {
        let mid = low + (high - low) / 2;
        match k.cmp(&cells[mid].0) {
            Ordering::Greater => low = mid + 1,
            Ordering::Less => high = mid,
            Ordering::Equal => return Ok(mid),
        }
    }
    Err(low)
}

// The place of the first cell above an outpoint, or of all.
pub fn above<T>(cells: &[(Outpoint, T)], from: Option<&Outpoint>) -> usize
    requires { Sorted outpoints cells.now }
    ensures within { result ≤ length cells.now }
    ensures first { next_of outpoints (option_map (λ x. x.now) from.entry) cells.now ≡ slice_get cells.now result }
{
    match from {
        None => 0,
        Some(k) => match find(cells, k) {
            Ok(i) => i + 1,
            Err(i) => i,
        },
    }
}
