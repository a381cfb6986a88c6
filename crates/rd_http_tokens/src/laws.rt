ghost use Rattle.rd_base.specs.declared.names.NameRules.{NameRules};
ghost use Rattle.rd_base.specs.declared.values.Side.{Side};
ghost use Rattle.rd_http_tokens.specs.CopyLaws.{LooksUpAsked};
ghost use Rattle.rd_http_tokens.specs.HeadTokens.{AreDeclared};

/// What a copy gets depends on the rows through the words alone that `asked_words` gives.
pub fn copy_laws()
    ensures { LooksUpAsked }
{}

/// The tokens of a request or a reply are those of its start line, of each field that isn't passed (its name, then
/// the words of its value), the head mark, those of the body by its kind, and those of the trailer's fields.
pub fn token_laws()
    ensures { (side : Side) (rules : NameRules) → AreDeclared side rules }
{}
