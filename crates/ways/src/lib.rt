// The way down to a point: the first root that contains it, then child 0 where that contains it and child 1 otherwise. The
// point's weights tell which: they are kept with the cube's side as their sum, so that no step divides.
#![tactic(auto)]

ghost use Rattle.std.specs.Prelude.{◌≡◌, true, [], ◌*◌, ◌≤◌, ◌<◌, length, get_or};
ghost use Rattle.dimension.specs.Sizes.{axes_of, cube_side, greatest_depth};
ghost use Rattle.bisection.specs.Cells.{coordinate, cell_of};
ghost use Rattle.bisection.specs.Roots.{roots};
ghost use Rattle.bisection.specs.Weights.{Inside};
ghost use Rattle.points.specs.Points.{point_of, is_point};
ghost use Rattle.points.specs.Roots.{FirstRoot};
ghost use Rattle.points.specs.Theorems.RootCells.{height, root_weight};
ghost use Rattle.ways.specs.Ways.{root_at, AtRoot, RootHolds, CellWeights, SteppedIs, Begun, Descended, LocatedIs};
ghost use Rattle.ways.specs.Descents.{HalfReady, StepReady, half};

use dimension::Dim;
use positions::roots;

// A step: to child 1 where `one` holds, and to child 0 otherwise; and the weights there.
#[derive(Clone, Copy)]
pub struct Stepped {
    pub one: bool,
    pub weights: [u64; 5],
}

// A place on the way: its position, and the point's weights in its cell.
#[derive(Clone, Copy)]
pub struct Place {
    pub position: u64,
    pub weights: [u64; 5],
}

// Where a point is: the number of its first root, its weights there, and the position of the deepest cell on the way.
#[derive(Clone, Copy)]
pub struct Located {
    pub root: usize,
    pub weights: [u64; 5],
    pub position: u64,
}

// The side of the cube.
#[tactic(auto, using(dimension::specs::Laws::axes_dimension, crate::specs::Starts::first_side))]
fn side(dim: Dim) -> u64
    ensures { result ≡ cube_side }
{
    u64::from(dim.box_side(0))
}

// The coordinate of a point on an axis.
#[tactic(auto, using(points::proofs::Theorems::CubePoints::coordinate_bytes))]
fn coordinate_at(point: &[u8], axis: usize) -> u64
    requires { (1 ≤ axis) × (2 * axis ≤ length point.now) }
    ensures { result ≡ coordinate (point_of point.now) axis }
{
    let at = 2 * (axis - 1);
    u64::from(u16::from_le_bytes([point[at], point[at + 1]]))
}

// Whether bytes are a point of the cube.
pub fn is_point(point: &[u8], dim: Dim) -> bool
    ensures { result ≡ is_point (axes_of dim) point.now }
{
    let axes = dim.axes();
    if point.len() != 2 * axes {
        return false;
    }
    let most = side(dim);
    for i in 0..axes {
        if most < coordinate_at(point, i + 1) {
            return false;
        }
    }
    true
}

// A point of the cube before root n of its dimension.
#[derive(Clone, Copy)]
struct Placed<'a> {
    point: &'a [u8],
    dim: Dim,
    n: usize,
    ghost at: { AtRoot (axes_of dim) point.now n },
}

impl Placed<'_> {
    // The cube's side, then the point's coordinates along the root, then 0.
    #[tactic(auto, using(crate::specs::Starts::heights))]
    fn height(&self, j: usize) -> u64
        ensures { result ≡ height (point_of self.now.point.now) (root_at (axes_of self.now.dim) self.now.n) j }
    {
        if j == 0 {
            side(self.dim)
        } else if self.dim.axes() < j {
            0
        } else {
            coordinate_at(
                self.point,
                usize::from(roots::entry(self.dim, self.n, j - 1)),
            )
        }
    }

    // Whether the root contains the point: its coordinates fall along the root.
    fn holds(&self) -> bool
        ensures { RootHolds (axes_of self.now.dim) self.now.point.now self.now.n result }
    {
        let first = self.height(1);
        let second = self.height(2);
        let third = self.height(3);
        let fourth = self.height(4);
        second <= first && third <= second && fourth <= third
    }

    // The weight at place j in the root, which contains the point.
    fn weight(&self, j: usize) -> u64
        requires { Inside (cell_of (root_at (axes_of self.now.dim) self.now.n) []) (point_of self.now.point.now) × (j ≤ 4) }
        ensures { result ≡ root_weight (point_of self.now.point.now) (root_at (axes_of self.now.dim) self.now.n) j }
    {
        self.height(j) - self.height(j + 1)
    }
}

// The number of the first root that contains the point.
pub fn first_root(point: &[u8], dim: Dim) -> usize
    requires { is_point (axes_of dim) point.now ≡ true }
    ensures { FirstRoot (roots (axes_of dim)) (point_of point.now) result }
{
    for n in 0..dim.roots() {
        let placed = Placed { point, dim, n };
        if placed.holds() {
            return n;
        }
    }
    unreachable!()
}

// The weights in root n, which contains the point.
pub fn start_weights(point: &[u8], dim: Dim, n: usize) -> [u64; 5]
    requires { AtRoot (axes_of dim) point.now n × Inside (cell_of (root_at (axes_of dim) n) []) (point_of point.now) }
    ensures { CellWeights (axes_of dim) (root_at (axes_of dim) n) [] (point_of point.now) result }
{
    let placed = Placed { point, dim, n };
    std::array::from_fn(|j| placed.weight(j))
}

// The weight at place j of the half that a step leads to: of child 1 where `one` holds.
#[tactic(auto, using(dimension::specs::Laws::cube_two_bytes), unfolding(crate::specs::Descents::half, points::specs::Theorems::Halving::down))]
fn weight_below(w: [u64; 5], k: usize, one: bool, j: usize) -> u64
    requires { HalfReady w k one j }
    ensures { result ≡ half w k one j }
{
    let first = w[0];
    let last = w[k];
    if one {
        if j + 1 == k {
            last - first
        } else if j < k {
            w[j + 1]
        } else if j == k {
            2 * first
        } else {
            w[j]
        }
    } else if j == 0 {
        first - last
    } else if j == k {
        2 * last
    } else {
        w[j]
    }
}

// One step down, from a cell with split place k.
pub fn step_down(w: [u64; 5], k: usize) -> Stepped
    requires { StepReady w k }
    ensures { SteppedIs k w result }
{
    let one = w[0] < w[k];
    Stepped {
        one,
        weights: std::array::from_fn(|j| weight_below(w, k, one, j)),
    }
}

// n steps down from a root.
pub fn descend(w: [u64; 5], dim: Dim, n: usize) -> Place
    requires { Begun (axes_of dim) w × (n ≤ greatest_depth (axes_of dim)) }
    ensures { Descended (axes_of dim) n w result }
{
    let mut weights = w;
    let mut position = 0;
    for i in 0..n {
        let s = step_down(weights, dim.split_place(i));
        weights = s.weights;
        position = 2 * position + u64::from(s.one);
    }
    Place { position, weights }
}

// The way to a point.
#[tactic(auto, using(crate::specs::Descents::whole_way))]
pub fn way_to(point: &[u8], dim: Dim) -> Located
    requires { is_point (axes_of dim) point.now ≡ true }
    ensures { LocatedIs (axes_of dim) (point_of point.now) result }
{
    let root = first_root(point, dim);
    let weights = start_weights(point, dim, root);
    let deepest = descend(weights, dim, dim.greatest_depth());
    Located {
        root,
        weights,
        position: deepest.position,
    }
}
