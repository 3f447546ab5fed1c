// Laws of the definitions, each the contract of a function whose body is empty.
ghost use Rattle.sm_time.specs.StampTexts.{StampOfText};
ghost use Rattle.sm_time.specs.Laws.{CountOfDate, DateOfCount, OneStampForm, OneReading, OneAnswer, WrittenIsText, WrittenReadsBack};

/// The date that comes so many days after 0000-01-01 has that count of days: counting day by day agrees with
/// counting years and months.
pub fn count_of_date()
    ensures { CountOfDate }
{}

/// A date is the one that comes after its count of days.
pub fn date_of_count()
    ensures { DateOfCount }
{}

/// A text shows at most one form of a format.
pub fn one_form()
    ensures { OneStampForm }
{}

/// A text is of at most one stamp in a format.
pub fn one_reading()
    ensures { OneReading }
{}

/// A text has one answer in a format: what `Stamp::read` promises of a stamp and of each refusal excludes the
/// others, so each is given exactly where its condition holds.
pub fn one_answer()
    ensures { OneAnswer }
{}

/// What is written for a stamp is a text of it in that format.
pub fn written_is_text()
    ensures { WrittenIsText }
{}

/// Whatever `Stamp::read` answers at a written text is the stamp that it was written for.
pub fn written_reads_back()
    ensures { WrittenReadsBack }
{}

/// The stamp that is told of a text is the text's, and where none is told the text is no stamp's.
pub fn stamp_of_text()
    ensures { StampOfText }
{}
