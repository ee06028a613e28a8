// What holds of every history of a machine.
ghost use Rattle.std.specs.Prelude.{◌≡◌, ◌++◌, List, Some, IsTrue, length};
ghost use Rattle.ox_types.specs.declared.log.Entry.{Entry};
ghost use Rattle.ox_machine.specs.Meaning.{reads};
ghost use Rattle.ox_machine.specs.Store.{command_in, state_from, state_after, RunsFrom};

use crate::machine::Machine;

/// The state after a history fits its length.
pub fn law_history_fits<M: Machine>()
    ensures { (history : List Entry) → RunsFrom 0 history → M.meaning.fits (length history) (state_after M.meaning history) }
{}

/// A longer history goes on from the state after its beginning.
pub fn law_history_goes_on<M: Machine>()
    ensures { (first more : List Entry) → state_after M.meaning (first ++ more) ≡ state_from M.meaning (state_after M.meaning first) more }
{}

/// The text of a command that the machine reads stands for that command in a log.
pub fn law_text_is_read<M: Machine>()
    ensures { (c : M.Command) → IsTrue (M.meaning.commands.is_lawful c) → IsTrue (reads M.meaning c) → command_in M.meaning (M.meaning.commands.text c) ≡ Some c }
{}
