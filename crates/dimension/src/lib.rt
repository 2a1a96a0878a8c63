// The dimension type and every size that belongs to it. A size has one home: here for the code, and
// specs/Sizes.antt for the contracts. To change the halvings, edit HALVINGS and CUBE_SIDE here and
// `halvings` there; nothing else in code or definitions names a number of them.
#![tactic(auto)]

ghost use Rattle.std.specs.Prelude.{◌≡◌, true, ◌*◌, ◌≤◌};
ghost use Rattle.dimension.specs.Sizes.{is_dimension, axes_of, greatest_depth, box_depth, split_place, box_side, code_length, longest_code, points_length, root_count};
ghost use Rattle.dimension.specs.Known.{KnownIs};

// A dimension that is built.
#[derive(Clone, Copy)]
pub enum Dim {
    Two,
    Three,
    Four,
}

impl Dim {
    // How often the cube is halved on each axis.
    pub const HALVINGS: usize = 12;
    // The cube is 0 to CUBE_SIDE on each axis: two to the power HALVINGS.
    pub const CUBE_SIDE: u16 = 4096;
    // The most axes that a dimension has.
    pub const MOST_AXES: usize = 4;
    // The length of the longest code of all dimensions.
    pub const LONGEST_CODE: usize = 2 + Dim::MOST_AXES + Dim::HALVINGS;

    // The dimension of so many axes, if it is built.
    pub fn of(axes: usize) -> Option<Dim>
        ensures { KnownIs axes result }
    {
        match axes {
            2 => Some(Dim::Two),
            3 => Some(Dim::Three),
            4 => Some(Dim::Four),
            _ => None,
        }
    }

    // The dimension that a byte names which is known to name one.
    pub fn checked(byte: u8) -> Self
        requires { is_dimension byte ≡ true }
        ensures { axes_of result ≡ byte }
    {
        match byte {
            2 => Dim::Two,
            3 => Dim::Three,
            _ => Dim::Four,
        }
    }

    // How many axes there are.
    pub fn axes(self) -> usize
        ensures { result ≡ axes_of self }
    {
        match self {
            Dim::Two => 2,
            Dim::Three => 3,
            Dim::Four => 4,
        }
    }

    // The depth at which no cell has children any more.
    pub fn greatest_depth(self) -> usize
        ensures { result ≡ greatest_depth (axes_of self) }
    {
        Dim::HALVINGS * self.axes()
    }

    // How many roots there are: the permutations of the axes.
    pub fn roots(self) -> usize
        ensures { result ≡ root_count (axes_of self) }
    {
        match self {
            Dim::Two => 2,
            Dim::Three => 6,
            Dim::Four => 24,
        }
    }

    // One axis' share of 65,536, rounded up.
    pub fn share(self) -> usize
        ensures { (65536 ≤ axes_of self * result) × (axes_of self * result ≤ 65538) }
    {
        match self {
            Dim::Two => 32768,
            Dim::Three => 21846,
            Dim::Four => 16384,
        }
    }

    // How often the cube was halved to give the box at a depth. One multiplication and a shift serve all dimensions, with no branch
    // and no division, at every depth that a byte can hold.
    pub fn box_depth(self, depth: usize) -> usize
        ensures { result ≡ box_depth (axes_of self) depth }
    {
        if depth < 8192 {
            return depth * self.share() / 65536;
        }
        depth / self.axes()
    }

    // The place k of the split edge's second end at a depth.
    pub fn split_place(self, depth: usize) -> usize
        ensures { result ≡ split_place (axes_of self) depth }
    {
        let axes = self.axes();
        axes - (depth - axes * self.box_depth(depth))
    }

    // The length of a code at a depth.
    pub fn code_length(self, depth: usize) -> usize
        ensures { result ≡ code_length (axes_of self) depth }
    {
        2 + self.axes() + self.box_depth(depth)
    }

    // The length of a code at the greatest depth.
    pub fn longest_code(self) -> usize
        ensures { result ≡ longest_code (axes_of self) }
    {
        self.code_length(self.greatest_depth())
    }

    // The length of a cell's points: one more than the axes, two bytes for each coordinate.
    pub fn points_length(self) -> usize
        ensures { result ≡ points_length (axes_of self) }
    {
        let axes = self.axes();
        2 * axes * (axes + 1)
    }

    // The side of the box of a cell at a depth.
    pub fn box_side(self, depth: usize) -> u16
        requires { depth ≤ greatest_depth (axes_of self) }
        ensures { result ≡ box_side (axes_of self) depth }
    {
        Dim::CUBE_SIDE >> self.box_depth(depth)
    }
}
