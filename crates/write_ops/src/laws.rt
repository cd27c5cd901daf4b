//! What later parts may rest on.
ghost use Rattle.write_ops.specs.Earlier.{CreatesFit, PlansFit};

/// Each id that a plan names was there, or is that of an earlier create of the same kind.
pub fn plans_name_earlier_creates()
    ensures { PlansFit }
{}

/// The same holds of what CREATE plans, and so do the number of its creates, a list of names for each row, and that each
/// name stands for what was there or is made.
pub fn names_stand_for_creates()
    ensures { CreatesFit }
{}
