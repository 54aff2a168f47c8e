//! Laws of the grammar that the reader and the printer meet. They hold of all texts and places, and their functions do
//! nothing.

ghost use Rattle.lis_formula.specs.Laws.{OneReading, PrintedReads, StepsAreRead, BreaksWhereSaid, ReadsFit, PlacesAreTested, ResolvedIsPlace};

/// A formula text has one reading.
pub fn one_reading()
    ensures { OneReading }
{}

/// A printed place reads back.
pub fn printed_reads()
    ensures { PrintedReads }
{}

/// What `text_steps` and `broken_at` compute of a text is what the grammar says.
pub fn text_is_read()
    ensures steps { StepsAreRead }
    ensures broken { BreaksWhereSaid }
{}

/// A formula that reads has words and numbers within their limits.
pub fn reading_is_fit()
    ensures { ReadsFit }
{}

/// The test of a place says what a place is, and a text makes a place of a place.
pub fn places_stay()
    ensures test { PlacesAreTested }
    ensures resolved { ResolvedIsPlace }
{}
