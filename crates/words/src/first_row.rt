// The first row of a start's word, read off the start's own sewings: a start that comes out greater there need not be tried.
ghost use Rattle.std.specs.Prelude.{◌≡◌, ◌≤◌};
ghost use Rattle.maps.specs.Map.{IsDart, sew};
ghost use Rattle.maps.specs.Given.{map_of};
ghost use Rattle.maps.specs.Shown.{given};
ghost use Rattle.maps.specs.Inside.{IsSewing};
ghost use Rattle.words.specs.FirstRow.{first_label, rank_of, LeastRank, passes_over};

use crate::map::Map;
use crate::orbits::Forest;

// The label of β1(d) in the labelling from d, in which β0(d) is met before it.
#[tactic(auto, unfolding(crate::specs::FirstRow::first_label))]
fn first_label(d: usize, back: usize, next: usize) -> usize
    ensures is { result ≡ first_label d back next }
    ensures few { result ≤ 3 }
{
    if next == 0 {
        0
    } else if next == d {
        1
    } else if back == 0 || back == next {
        2
    } else {
        3
    }
}

// βi(d) for i from 1 to the dimension. A dart stays a number, which `requires` bounds: a type for it would carry the map. `maps` has a
// function like it, for any number d, which no other crate may call.
fn sewn(map: Map<'_>, i: usize, d: usize) -> usize
    requires dart { IsDart (map_of (given map.table)) d }
    requires sewing { IsSewing (given map.table) i }
    ensures { result ≡ sew (map_of (given map.entry.table)) i d }
{
    usize::from(map.table.numbers[(d - 1) * map.table.n + (i - 1)])
}

// One number, by which starts are ordered as numbers are: twice the first number of the word from d, and one more where d is 2-sewn, so
// that the second number is not 0. In a map of dimension 1 none is.
pub(crate) fn rank(map: Map<'_>, d: usize) -> usize
    requires { IsDart (map_of (given map.table)) d }
    ensures { result ≡ rank_of (map_of (given map.entry.table)) d }
{
    let first = first_label(d, usize::from(map.back[d - 1]), sewn(map, 1, d));
    let second = 1 < map.table.n && sewn(map, 2, d) != 0;
    2 * first + usize::from(second)
}

// The least rank of all starts.
pub(crate) fn least_rank(map: Map<'_>) -> usize
    ensures { LeastRank (map_of (given map.entry.table)) result }
{
    let mut least = rank(map, 1);
    for d in 2..map.table.m + 1 {
        least = least.min(rank(map, d));
    }
    least
}

// A start need not be tried where a lesser dart is over it, which has its word, or where its first row is not the least.
#[tactic(auto, unfolding(crate::specs::FirstRow::passes_over))]
pub(crate) fn passed_over(map: Map<'_>, forest: &Forest, least: usize, d: usize) -> bool
    requires { IsDart (map_of (given map.table)) d }
    ensures { result ≡ passes_over (map_of (given map.entry.table)) forest.now.up least d }
{
    forest.is_under(d) || least < rank(map, d)
}
