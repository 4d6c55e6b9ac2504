// The searches' answers, handed over to a caller that has no structs: a layout goes into the lent buffer as its record. Two modules that
// differ in the layout alone: a trait over both records, with its ghost members and two impls, would be longer than they are.
#![tactic(auto)]

pub mod addr; // the address search's
pub mod cs_data; // the select search's
