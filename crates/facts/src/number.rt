// The plainest atoms: bare numbers.
ghost use Rattle.std.specs.Prelude.{◌<◌};

pub mod atoms;

#[derive(Clone, Copy, PartialEq, Eq, Debug)]
pub struct Number {
    value: u32,
    ghost range: { value < 65535 },
}
