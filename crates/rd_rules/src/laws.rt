ghost use Rattle.rd_rules.specs.Laws.{EndingsStay, ReadsOn, SentStays, OnlyStops, NeverUnstarted, NeverNoMemory, SilenceIsSilent, FailedWritesEnd, FailedWritesSendNothing, FailedWritesCountNothing, WithheldIsUnsolicited, UnsolicitedIsWithheld, FarewellsAreLast, OwnRowsAreNewest};

/// Laws of the definitions, for every grammar that obeys its own.
pub fn session_laws()
    ensures endings_stay { EndingsStay }
    ensures reads_on { ReadsOn }
    ensures sent_stays { SentStays }
    ensures only_stops { OnlyStops }
    ensures never_unstarted { NeverUnstarted }
    ensures never_no_memory { NeverNoMemory }
    ensures silence { SilenceIsSilent }
    ensures failed_writes_end { FailedWritesEnd }
    ensures failed_writes_send_nothing { FailedWritesSendNothing }
    ensures failed_writes_count_nothing { FailedWritesCountNothing }
    ensures withheld { WithheldIsUnsolicited }
    ensures unsolicited { UnsolicitedIsWithheld }
    ensures farewells_are_last { FarewellsAreLast }
    ensures own_rows { OwnRowsAreNewest }
{}
