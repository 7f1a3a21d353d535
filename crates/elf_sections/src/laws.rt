// Laws of files with sections: calls of no effect, whose contracts state what holds of every file.
ghost use Rattle.elf_sections.specs.Laws.{SectionsChangeNoReading};

/// A reader by program headers reads the same image of a file with sections as without.
pub fn sections_change_no_reading()
    ensures { SectionsChangeNoReading }
{}
