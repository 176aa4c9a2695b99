//! What is proved of the format's definitions.

ghost use Rattle.cdb.specs.Theorems.{LawfulExactlyWhenMade, OneReading, OneVerdict};

/// Makes known to a proof that a file is lawful exactly when it is made by a permitted filling, and that it has one record list and one verdict. It does nothing.
pub fn format_stands()
    ensures made { LawfulExactlyWhenMade }
    ensures reading { OneReading }
    ensures verdict { OneVerdict }
{}
