//! Laws of the definitions, each the contract of a function that does nothing.

ghost use Rattle.zj_script.specs.Laws.{FaultOrLines, OneFault, OneInput, OneLine};

use zj_tree::laws::one_spelling;

/// A text spells one line at most.
pub fn one_line()
    ensures { OneLine }
{
    one_spelling();
}

/// An input is a script or a schedule of one list of lines at most.
pub fn one_input()
    ensures { OneInput }
{
    one_line();
}

/// An input is refused at one place at most, with one kind.
pub fn one_fault()
    ensures { OneFault }
{}

/// An input that is refused is no script or schedule.
pub fn fault_or_lines()
    ensures { FaultOrLines }
{}
