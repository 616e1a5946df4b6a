// The sum that a checksum is taken of, kept in one byte that wraps.
ghost use Rattle.frame.specs.Steps.{Adds};

// One byte more in the byte kept. Writer and readers all sum by it.
pub(crate) fn add(kept: u8, b: u8) -> u8
    ensures { Adds kept b result }
{
    kept.wrapping_add(b)
}
