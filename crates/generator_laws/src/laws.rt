// The laws, one a function.
ghost use Rattle.generator_laws.specs.FilesRead.{FilesAreRead};

/// The cfg and the dat of a generated recording are read as that recording.
pub fn generated_files_are_read()
    ensures { FilesAreRead }
{}
