// The demands over the exported calls alone, bytes in and bytes out: what a bench that makes the calls itself can rely on. Nothing stands
// on this crate.
#![tactic(auto)]
