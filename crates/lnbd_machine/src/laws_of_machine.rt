//! Laws of the table machine. Each is the contract of a function that does nothing.

ghost use Rattle.lnbd_machine.specs.Laws.{MachineIsRight, CallsAreTold, EventsKeepPartial, TableIsSteady};

/// After every lawful history the machine answers what the history says.
pub fn machine_is_right<K>()
    ensures { MachineIsRight K }
{}

/// Each event makes the calls on callbacks that the history then has more.
pub fn calls_are_told<K>()
    ensures { CallsAreTold K }
{}

/// The bytes that are held show nothing yet, and so it stays.
pub fn events_keep_partial<K>()
    ensures { EventsKeepPartial K }
{}

/// What bytes show they show whatever follows.
pub fn table_is_steady<K>()
    ensures { TableIsSteady K }
{}
