//! Laws over the definitions alone. Each is the contract of a function that does nothing.

ghost use Rattle.processor.specs.Laws.{StepLeadsToOneState};
ghost use Rattle.processor.specs.Mq.{LeavesMq};

/// No instruction of the PDP-8/I uses or changes MQ: a step leaves it as it is, and from two states
/// that differ in MQ alone the same steps lead to states that differ in MQ alone.
pub fn basic_instructions_leave_mq()
    ensures { LeavesMq }
{}

/// By the answer that the bus gave, a step leads from a state to one state.
pub fn steps_lead_to_one_state()
    ensures { StepLeadsToOneState }
{}
