// Laws of the definitions, each the contract of a function without a body of its own.
ghost use Rattle.cfg_fields.specs.FieldLaws.{ReadsFields, ReadsNumbersBack};

/// A field is read as a value exactly where it holds it.
pub fn reads_fields()
    ensures { ReadsFields }
{}

/// A printed number, also before a letter, reads back to itself.
pub fn reads_numbers_back()
    ensures { ReadsNumbersBack }
{}
