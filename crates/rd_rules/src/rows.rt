ghost use Rattle.rd_rules.specs.WorkedRows.{ThreeEqualReplies, AMask, BesideTheMask, AFirmByte, SixtyFourMasks, SixtyFiveMasks, OneTokenMore, OneByteTooMany, OneByteLater, NothingHeard, AnEmptySession, OneExchange, CutEarly, NotYet, AWordComesBack, AShortWordStays, MergedCalls, MergedCallsTurned, StillAwaited, LateCall};

/// Sessions of plain lines in which three replies agree or do not, written out.
pub fn agreement_rows()
    ensures three_equal_replies { ThreeEqualReplies }
    ensures a_mask { AMask }
    ensures beside_the_mask { BesideTheMask }
    ensures a_firm_byte { AFirmByte }
    ensures one_token_more { OneTokenMore }
    ensures cut_early { CutEarly }
    ensures not_yet { NotYet }
{}

/// Replies with as many masked places as a session may have, and with one more.
pub fn mask_limit_rows()
    ensures sixty_four { SixtyFourMasks }
    ensures sixty_five { SixtyFiveMasks }
{}

/// Requests that bring back a word that was masked in a reply.
pub fn swap_rows()
    ensures a_word_comes_back { AWordComesBack }
    ensures a_short_word_stays { AShortWordStays }
{}

/// Sessions of plain lines that end by what a link says, by its end or by their length.
pub fn ending_rows()
    ensures one_byte_too_many { OneByteTooMany }
    ensures one_byte_later { OneByteLater }
    ensures nothing_heard { NothingHeard }
    ensures an_empty_session { AnEmptySession }
    ensures one_exchange { OneExchange }
{}

/// Calls of three callers to one backend.
pub fn call_rows()
    ensures merged_calls { MergedCalls }
    ensures merged_calls_turned { MergedCallsTurned }
    ensures still_awaited { StillAwaited }
    ensures late_call { LateCall }
{}
