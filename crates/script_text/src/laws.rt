ghost use Rattle.script_text.specs.Laws.{ScriptsAreSpelled, RefusedAreFaulty, LinesRise, ScriptsAreInRange};

/// A text is a script of some commands exactly where the plain grammar spells them: it has at most
/// 1,048,576 bytes, the lines that are kept are these commands, one by one, and there are at most
/// 4,096 of them, of which at most 1,024 are grants.
pub fn law_scripts_are_spelled()
    ensures { ScriptsAreSpelled }
{}

/// A text is refused exactly where it is too long, or has a line that is refused after lines that
/// are few commands: the first such line is the place.
pub fn law_first_refusal()
    ensures { RefusedAreFaulty }
{}

/// The commands of a script stand in the order of their lines, at most one in a line, and the lines
/// are counted from 1.
pub fn law_lines_rise()
    ensures { LinesRise }
{}

/// Each word of a script's commands lies in its range.
pub fn law_in_range()
    ensures { ScriptsAreInRange }
{}
