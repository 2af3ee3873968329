//! Which cubes aren't reached from which.

ghost use Rattle.std.specs.Prelude.{◌≡◌, ◌<◌, ℕ, Bool, nat_lt, slice_index_or};
ghost use Rattle.hmc_routes.specs.Distance.{has_walk};
ghost use Rattle.hmc_routes.specs.Parted.{unreached_from, parted};
ghost use Rattle.hmc_routes.specs.Tables.{AreTables};
ghost use Rattle.hmc_routes.specs.WellFormed.{IsGraph};

use crate::distances::distance_at;
use crate::table::Table;
use hmc_codes::Graph;

// Whether a walk leads from the one cube to the other: a shortest one has fewer hops than there are
// cubes.
fn has_walk(graph: &Graph, tables: &[Table], from: u8, to: u8) -> bool
    requires graph { IsGraph graph.now }
    requires tables { AreTables graph.now tables.now }
    requires from { from < graph.now.cubes }
    requires to { to < graph.now.cubes }
    ensures { result ≡ has_walk graph.now to from }
{
    let table = tables[usize::from(to)];
    distance_at(&table.distances, from) < graph.cubes()
}

// The first cube to which no walk leads from this one.
fn unreached_from(graph: &Graph, tables: &[Table], from: u8) -> Option<u8>
    requires graph { IsGraph graph.now }
    requires tables { AreTables graph.now tables.now }
    requires from { from < graph.now.cubes }
    ensures { result ≡ unreached_from graph.now from }
{
    'each: for to in 0..graph.cubes() {
        if !has_walk(graph, tables, from, to) {
            return Some(to);
        }
    }
    None
}

/// The first pair of cubes, in order of the first and then of the second, such that no walk leads
/// from the first to the second.
pub fn parted(graph: &Graph, tables: &[Table]) -> Option<(u8, u8)>
    requires graph { IsGraph graph.now }
    requires tables { AreTables graph.now tables.now }
    ensures { result ≡ parted graph.now }
{
    'each: for from in 0..graph.cubes() {
        if let Some(to) = unreached_from(graph, tables, from) {
            return Some((from, to));
        }
    }
    None
}
