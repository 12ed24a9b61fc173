ghost use Rattle.std.specs.Prelude.{List};
ghost use Rattle.script_tree.specs.declared.line.Line.{Line};
ghost use Rattle.script_bind.specs.Variables.{Words};
ghost use Rattle.script_bind.specs.Binding.{section_of};
ghost use Rattle.script_bind.specs.Numbers.{numbers_of, AreFrom};

/// The statements of a section, in the order of the text and with those that stand in others, have the numbers 1, 2, 3
/// and so on.
pub fn statements_are_numbered_from_1()
    ensures { (words : Words) (lines : List Line) → AreFrom 1 (numbers_of (section_of words lines)) }
{}
