// Laws of parts of messages: public functions with empty bodies, whose contracts are the laws.
ghost use Rattle.sm_parts.specs.Laws.{WrittenPairsRead, WrittenTextsRead};

/// The list that is written for texts has these as its entries.
pub fn written_texts_read()
    ensures { WrittenTextsRead }
{}

/// The query that is written for pairs has these as its pairs.
pub fn written_pairs_read()
    ensures { WrittenPairsRead }
{}
