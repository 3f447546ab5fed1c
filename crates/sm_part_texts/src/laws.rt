// The law of what is carried.
ghost use Rattle.sm_part_texts.specs.Laws.{CarriedTextsPass};

/// What is carried as a label, in a query or in a field has a text that can stand there, whatever its type.
pub fn carried_texts_pass()
    ensures { CarriedTextsPass }
{}
