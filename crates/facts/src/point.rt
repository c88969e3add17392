// Program points: a statement of a block, and the half of it before or after its effect.
ghost use Rattle.std.specs.Prelude.{◌≤◌};

pub mod atoms;

// Every point keeps these ranges, so its number is below 65,535 with no test.
#[derive(Clone, Copy, PartialEq, Eq, Debug)]
pub struct Point {
    block: u32,
    statement: u32,
    half: u32,
    ghost blocks: { block ≤ 1022 },
    ghost statements: { statement ≤ 31 },
    ghost halves: { half ≤ 1 },
}
