//! Laws over the definitions alone. Each is the contract of a function that does nothing.

ghost use Rattle.instruct.specs.Laws.{Group1IsItself, Group2IsItself, Group3IsMqOperate, IotIsDeviceAction, OperationsAreDecoded, UnsupportedMeansNothing};

/// What the kind that [`decode`](crate::decode) tells says of a word's meaning. Of a memory
/// reference [`Operation::of`](crate::Operation::of) says it.
pub fn kinds_tell_meanings()
    ensures group1 { Group1IsItself }
    ensures group2 { Group2IsItself }
    ensures group3 { Group3IsMqOperate }
    ensures iot { IotIsDeviceAction }
    ensures unsupported { UnsupportedMeansNothing }
{}

/// On the 8/E each device operation is the one of its word.
pub fn operations_are_decoded()
    ensures { OperationsAreDecoded }
{}
