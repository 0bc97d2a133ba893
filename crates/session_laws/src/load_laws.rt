//! Loads, as a session takes them in: what is noted is touched, and a session that is sound, healthy and whole stays so. Each law is the
//! contract of a function that does nothing, so there is no body that could be turned into a wrong one.

ghost use Rattle.session_laws.specs.Loads.{LoadsKeepFit, LoadsKeepHealth, LoadsKeepSound, LoadsKeepWhole, LoadsTouchTheNoted, SessionsGoOn};

/// Of a load that is taken in, each object that it notes is touched in every scope in progress, and no other object comes to be touched.
pub fn loads_touch_the_noted()
    ensures { LoadsTouchTheNoted }
{}

/// A load that reads a sound session's objects from their rows, in a transaction, leaves it sound: what is known of the objects is what
/// their rows hold, one stands for each key, and a rollback finds what it is to restore.
pub fn loads_keep_sound()
    ensures { LoadsKeepSound }
{}

/// Such a load leaves a healthy session healthy.
pub fn loads_keep_health()
    ensures { LoadsKeepHealth }
{}

/// Where the objects of a load fit their classes and no object is lost, those of a session that takes it in go on to fit, and had keys of
/// their classes at the start of each scope.
pub fn loads_keep_objects_fitting()
    ensures { LoadsKeepFit }
{}

/// Each object that there was before a load is there still, of its class.
pub fn sessions_go_on_across_loads()
    ensures { SessionsGoOn }
{}

/// A program of loads that leaves the store, and of the objects what a load leaves, keeps a session healthy and whole, whatever it
/// answers.
pub fn loads_keep_whole<A>()
    ensures { LoadsKeepWhole A }
{}
