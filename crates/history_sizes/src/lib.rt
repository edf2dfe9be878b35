//! How many keys a history puts, how long they are, how often it replaces a value or takes a key out, and
//! where there is room for all that.
#![tactic(auto)]
