// A setting with the text of its value.
ghost use Rattle.std.specs.Prelude.{◌≡◌, ◌++◌, ◌∷◌, [], map, OnOk, IfErr};
ghost use Rattle.pp_conf.specs.Shown.{shown_assignment};
ghost use Rattle.pp_conf.specs.declared.fault.ConfFault.TheVariants.{OutOfMemory};

use crate::fault::ConfFault;
use crate::setting::Setting;

#[derive(Clone, Copy)]
pub(crate) struct Assignment<'a> {
    pub setting: Setting,
    pub value: &'a [u8],
}

/// Adds an assignment at the end; the fault is `OutOfMemory`.
pub(crate) fn add<'a>(
    assignments: &mut Vec<Assignment<'a>>,
    assignment: Assignment<'a>,
) -> Result<(), ConfFault>
    ensures added { OnOk result (map shown_assignment assignments.new.items ≡ map shown_assignment assignments.old.items ++ shown_assignment assignment.entry ∷ []) }
    ensures memory { IfErr result (λ e. e ≡ OutOfMemory) }
{
    match assignments.push(assignment) {
        Ok(()) => Ok(()),
        Err(_) => Err(ConfFault::OutOfMemory),
    }
}
