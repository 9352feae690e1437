//! The laws, each as the contract of a function that does nothing.

ghost use Rattle.lnbd_served.specs.Follows.{ServersAreHonest};
ghost use Rattle.lnbd_served.specs.Grammars.{HeardAsRead};
ghost use Rattle.lnbd_served.specs.Served.{DrivenServedIsHonest, ServedIsHonest};

/// A session that is open hears what a transcript reads of its client, thing by thing and by the same
/// bytes, unless it hears that they are no client's.
pub fn heard_as_read()
    ensures { HeardAsRead }
{}

/// A server that makes each change when its request is taken, and each reply by what the export then
/// holds, is honest over what was asked and answered.
pub fn servers_are_honest()
    ensures { ServersAreHonest }
{}

/// Where each client speaks as one handle does, the server of each export is honest, whatever the
/// schedule cuts and picks.
pub fn served_is_honest()
    ensures { ServedIsHonest }
{}

/// Where each link is driven by one handle, the server of each export is honest, whatever the schedule
/// cuts and picks.
pub fn driven_served_is_honest<K>()
    ensures { DrivenServedIsHonest K }
{}
