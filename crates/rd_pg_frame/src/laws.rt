ghost use Rattle.rd_base.specs.declared.values.Phase.{Phase};
ghost use Rattle.rd_base.specs.declared.values.Note.{Note};
ghost use Rattle.rd_base.specs.declared.values.Side.{Side};
ghost use Rattle.rd_pg_frame.specs.Letters.{Letters};
ghost use Rattle.rd_pg_frame.specs.Framing.{IsFraming};
ghost use Rattle.rd_pg_frame.specs.Scanning.{scan_messages, scan_request, scan_reply};
ghost use Rattle.rd_pg_frame.specs.Units.{Finds, IsRequestIn, IsReplyTo};

/// Laws of the scans, for proofs: the call does nothing.
pub fn framing_laws()
    // A scan is whole exactly where the bytes begin with a unit, and has its length.
    ensures request_units { (phase : Phase) → Finds (IsRequestIn phase) (scan_request phase) }
    ensures reply_units { (side : Side) (note : Note)
        → Finds (IsReplyTo side note) (scan_reply side note) }

    // What is told stays, whatever follows: no unit begins another, and hopeless bytes begin none.
    ensures request_framing { (phase : Phase) → IsFraming (scan_request phase) }
    ensures reply_framing { (side : Side) (note : Note) → IsFraming (scan_reply side note) }
    ensures messages_framing { (letters : Letters) → IsFraming (scan_messages letters) }
{}
