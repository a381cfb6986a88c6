ghost use Rattle.rd_gate.specs.Ends.{BeginsEnded, TakesEnded};

/// What the rule says of a link whose reader has ended: what was taken of it begins what was pushed of it, and is all
/// of it where the last item was taken.
pub fn gate_laws()
    ensures begins { BeginsEnded }
    ensures all { TakesEnded }
{}
