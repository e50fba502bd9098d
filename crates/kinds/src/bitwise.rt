//! The kind W: one 32-bit number, added and multiplied bit by bit.
ghost use Rattle.std.specs.Prelude.{◌^◌, ◌<◌};

mod kind;

#[derive(Clone, Copy, PartialEq, Eq, Debug)]
pub struct W {
    pub bits: u32,
    ghost fits: { bits < 2 ^ 32 },
}
