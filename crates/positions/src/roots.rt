// The roots of each dimension in dictionary order, one after the other: four entries each, the last ones 0, as digits of words.
ghost use Rattle.std.specs.Prelude.{◌≡◌, [], ◌+◌, ◌≤◌, ◌<◌, get_or};
ghost use Rattle.dimension.specs.Sizes.{axes_of, root_count};
ghost use Rattle.bisection.specs.Roots.{roots};
ghost use Rattle.positions.specs.RootTable.{first_row};

use dimension::Dim;

// Four bytes in a row were slower: a root's entries are then read as one word and carried as one from leaf to leaf (the sheet check took
// 32.6 ns a leaf for 29.2).
const ROOTS: [u64; 8] = [
    0x1200_2100_1230_1320,
    0x2130_2310_3120_3210,
    0x1234_1243_1324_1342,
    0x1423_1432_2134_2143,
    0x2314_2341_2413_2431,
    0x3124_3142_3214_3241,
    0x3412_3421_4123_4132,
    0x4213_4231_4312_4321,
];

// Where the roots of a dimension begin: they all stand in the table.
#[tactic(auto, unfolding(dimension::specs::Sizes::root_count))]
fn first_row(dim: Dim) -> usize
    ensures { (result ≡ first_row (axes_of dim)) × (result + root_count (axes_of dim) ≤ 32) }
{
    match dim {
        Dim::Two => 0,
        Dim::Three => 2,
        Dim::Four => 8,
    }
}

// The entry at a place of root number n, 0 past the last.
#[tactic(auto, using(crate::proofs::RootRows::row_is))]
pub fn entry(dim: Dim, n: usize, place: usize) -> u8
    requires { (n < root_count (axes_of dim)) × (place < 4) }
    ensures { result ≡ get_or (get_or (roots (axes_of dim)) n []) place 0 }
{
    let at = 4 * (first_row(dim) + n) + place;
    ((ROOTS[at / 16] >> (60 - 4 * (at % 16))) % 16) as u8
}
