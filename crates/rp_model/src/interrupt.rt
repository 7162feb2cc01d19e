//! An occurrence of an interrupt.

ghost use Rattle.rp_base.specs.Action.{IsIndex, IsCount};

/// An occurrence of an interrupt. The type keeps the ranges, so that no event names an interrupt
/// that is not right.
#[derive(Clone, Copy)]
pub struct Interrupt {
    /// 1 to 8.
    pub source: u8,
    /// From 1.
    pub occurrence: u32,
    ghost in_range: { IsIndex source × IsCount occurrence },
}
