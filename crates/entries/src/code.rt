// A code that passes: its bytes, and what is read off them.
ghost use Rattle.std.specs.Prelude.{◌≡◌, List, ℕ};
ghost use Rattle.dimension.specs.Sizes.{axes_of};
ghost use Rattle.bisection.specs.Codes.{dimension_of, depth_of};
ghost use Rattle.bisection.specs.Refusals.{done, code_refusal};

use dimension::Dim;
use std::marker::Model;

#[derive(Drop)]
pub struct Code<'a> {
    bytes: &'a [u8],
}

impl<'a> Model for Code<'a> {
    ghost Value = { List ℕ };

    ghost view = { λ code. code.bytes.now };

    ghost invariant = { λ code. code_refusal code.bytes.now ≡ done };
}

impl<'a> Code<'a> {
    // The code of bytes that are known to pass.
    pub fn known(bytes: &'a [u8]) -> Self
        requires { code_refusal bytes.now ≡ done }
        ensures { result ≡ bytes.now }
    {
        Code { bytes }
    }

    pub fn bytes(&self) -> &'a [u8]
        ensures is { result.now ≡ self.now }
        ensures passes { code_refusal self.now ≡ done }
    {
        self.bytes
    }

    pub fn dim(&self) -> Dim
        ensures { axes_of result ≡ dimension_of self.now }
    {
        Dim::checked(self.bytes[0])
    }

    // How many axes it has.
    pub fn axes(&self) -> usize
        ensures { result ≡ dimension_of self.now }
    {
        usize::from(self.bytes[0])
    }

    pub fn depth(&self) -> usize
        ensures { result ≡ depth_of self.now }
    {
        usize::from(self.bytes[1])
    }
}
